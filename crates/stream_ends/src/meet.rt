//! An offer that meets the other end.

ghost use Rattle.std.specs.Prelude.{◌≡◌, ◌<◌, ◌^◌};
ghost use Rattle.stream_ends.specs.Meeting.{met, room_meet, is_empty_pair};
ghost use Rattle.stream_ends.specs.Runs.{count_of, payload_at_once};

use crate::open_copy::{CopyResult, OpenCopy, payload};
use crate::side::Side;
use crate::stream_end::End;

/// What came of a read or write (CanonicalABI.md, "Stream State").
#[derive(Clone, Copy)]
pub enum Meet {
    /// No offer stands at the other end: the offer stands.
    Stands,
    /// So many elements, at least one, are to be copied between the two offers. Then the call is completed.
    Copies(u32),
    /// The other end is dropped. The call is answered so, and its own end is done from then on.
    Dropped,
    /// The other end's offer has no room left: it is completed, and this offer stands.
    Displaces,
    /// A write of no element met a read of none: the write is completed, and the read stands.
    ZeroDone,
    /// A call for no element met an offer with room: the call is completed, and the offer stands.
    NothingNow,
}

impl Meet {
    /// How many elements are to be copied.
    pub fn count(self) -> u32
        ensures { result ≡ count_of self }
    {
        match self {
            Meet::Copies(count) => count,
            Meet::Stands | Meet::Dropped | Meet::Displaces => 0,
            Meet::ZeroDone | Meet::NothingNow => 0,
        }
    }

    /// The payload of a call that is answered at once: its result, 0 for completed and 1 for dropped, plus 16 times the
    /// elements copied. A call whose offer stands has none yet.
    pub fn payload(self) -> Option<u32>
        requires { count_of self < 2 ^ 28 }
        ensures { result ≡ payload_at_once self }
    {
        match self {
            Meet::Stands | Meet::Displaces => None,
            Meet::Copies(count) => Some(payload(CopyResult::Completed, count)),
            Meet::Dropped => Some(payload(CopyResult::Dropped, 0)),
            Meet::ZeroDone | Meet::NothingNow => Some(payload(CopyResult::Completed, 0)),
        }
    }
}

/// Lets the offer of a call of this side meet the other end.
#[tactic(auto, unfolding(crate::specs::Meeting::met))]
pub fn meet_other(side: Side, call: OpenCopy, own: &mut End, other: &mut End) -> Meet
    ensures meet { result ≡ (met side call own.old other.old).meet }
    ensures own { own.new ≡ (met side call own.old other.old).own }
    ensures other { other.new ≡ (met side call own.old other.old).other }
{
    if other.dropped {
        own.done = true;
        return Meet::Dropped;
    }
    match other.standing() {
        None => {
            own.copy = Some(call);
            Meet::Stands
        }
        Some(offer) => {
            if offer.copied < offer.length {
                return meet_room(&call, &offer);
            }
            if is_empty_pair(side, &call, &offer) {
                return Meet::ZeroDone;
            }
            other.leave();
            own.copy = Some(call);
            Meet::Displaces
        }
    }
}

/// What comes of a call at an offer with room.
fn meet_room(call: &OpenCopy, offer: &OpenCopy) -> Meet
    requires { offer.now.copied < offer.now.length }
    ensures { result ≡ room_meet call.now offer.now }
{
    if call.length > 0 {
        Meet::Copies((offer.length - offer.copied).min(call.length))
    } else {
        Meet::NothingNow
    }
}

/// Whether this is a write of no element that finds a read of none.
fn is_empty_pair(side: Side, call: &OpenCopy, offer: &OpenCopy) -> bool
    ensures { result ≡ is_empty_pair side call.now offer.now }
{
    match side {
        Side::Reader => false,
        Side::Writer => offer.length == 0 && call.length == 0,
    }
}
