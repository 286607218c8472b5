//! An offer that meets the other end.

ghost use Rattle.std.specs.Prelude.{◌≡◌};
ghost use Rattle.future_ends.specs.Meeting.{met};
ghost use Rattle.future_ends.specs.Places.{copies};
ghost use Rattle.future_ends.specs.Runs.{payload_at_once};

use crate::future_end::payload;
use stream_ends::{CopyResult, End, OpenCopy};

/// What came of a read or write (CanonicalABI.md, "Future State").
#[derive(Clone, Copy)]
pub enum Meet {
    /// No offer stands at the other end: the offer stands.
    Stands,
    /// The value is to be copied between the two offers. Then both are completed.
    Copies,
    /// The other end is dropped. The call is answered so, and its own end is done from then on.
    Dropped,
}

impl Meet {
    /// Whether the value is to be copied.
    pub fn copies(self) -> bool
        ensures { result ≡ copies self }
    {
        match self {
            Meet::Copies => true,
            Meet::Stands | Meet::Dropped => false,
        }
    }

    /// The payload of a call that is answered at once: its result, 0 for completed and 1 for dropped. A call whose offer
    /// stands has none yet.
    pub fn payload(self) -> Option<u32>
        ensures { result ≡ payload_at_once self }
    {
        match self {
            Meet::Stands => None,
            Meet::Copies => Some(payload(CopyResult::Completed)),
            Meet::Dropped => Some(payload(CopyResult::Dropped)),
        }
    }
}

/// Lets the offer of a call at its own end meet the other end.
#[tactic(auto, unfolding(crate::specs::Meeting::met))]
pub fn meet_other(call: OpenCopy, own: &mut End, other: &End) -> Meet
    ensures meet { result ≡ (met call own.old other.now).meet }
    ensures own { own.new ≡ (met call own.old other.now).own }
{
    if other.dropped {
        own.done = true;
        return Meet::Dropped;
    }
    match other.standing() {
        None => {
            own.copy = Some(call);
            Meet::Stands
        }
        Some(_) => Meet::Copies,
    }
}
