//! A read or write under way, and what comes of it.

ghost use Rattle.std.specs.Prelude.{◌≡◌, ◌^◌, ◌<◌};
ghost use Rattle.stream_ends.specs.Ends.{new_copy, payload_of, offer_of, result_of};

use crate::side::Side;

/// Who reads or writes.
#[derive(Clone, Copy)]
pub enum By {
    /// The task of this number.
    Task(u32),
}

/// What is to be told of a copy that waits (CanonicalABI.md, "Stream State": `CopyResult`).
#[derive(Clone, Copy)]
pub enum CopyEvent {
    /// Elements were copied, or another offer took its place.
    Completed,
    /// The other end was dropped.
    Dropped,
}

/// How a copy ended (CanonicalABI.md, "Stream State": `CopyResult`).
#[derive(Clone, Copy)]
pub enum CopyResult {
    /// Elements were copied, or the other end answered.
    Completed,
    /// The other end is dropped.
    Dropped,
    /// The copy was given up.
    Cancelled,
}

/// An offer as the layer above sees it.
#[derive(Clone, Copy)]
pub struct Offer {
    /// The end that was read or written.
    pub side: Side,
    /// Who reads or writes.
    pub by: By,
    /// The number of the canonical built-in that was called.
    pub canon: u32,
    /// The place of its first element in memory.
    pub place: u32,
    /// How many elements it has, or has room for: at most 2^28 - 1.
    pub length: u32,
    /// How many of them are copied.
    pub copied: u32,
}

/// A read or write that was begun at an end and not yet told of its result.
#[derive(Clone, Copy)]
pub struct OpenCopy {
    /// Who reads or writes.
    pub by: By,
    /// The number of the canonical built-in that was called.
    pub canon: u32,
    /// The place of its first element in memory.
    pub place: u32,
    /// How many elements it has, or has room for: at most 2^28 - 1.
    pub length: u32,
    /// How many of them are copied.
    pub copied: u32,
    /// What is to be told of it, if anything.
    pub event: Option<CopyEvent>,
    /// Whether the other end can still meet it.
    pub standing: bool,
}

impl OpenCopy {
    /// A copy that stands, with nothing copied.
    pub fn new(by: By, canon: u32, place: u32, length: u32) -> OpenCopy
        ensures { result ≡ new_copy by canon place length }
    {
        OpenCopy {
            by,
            canon,
            place,
            length,
            copied: 0,
            event: None,
            standing: true,
        }
    }

    /// The copy as an offer of this end.
    pub fn offer(&self, side: Side) -> Offer
        ensures { result ≡ offer_of side self.now }
    {
        Offer {
            side,
            by: self.by,
            canon: self.canon,
            place: self.place,
            length: self.length,
            copied: self.copied,
        }
    }

    /// How the copy ends when it is told now: by its event, else as cancelled.
    pub fn result(&self) -> CopyResult
        ensures { result ≡ result_of self.now.event }
    {
        match self.event {
            Some(CopyEvent::Completed) => CopyResult::Completed,
            Some(CopyEvent::Dropped) => CopyResult::Dropped,
            None => CopyResult::Cancelled,
        }
    }
}

/// The payload of a copy that ended so with this many elements (CanonicalABI.md,
/// `canon stream.{read,write}`): 0 for completed, 1 for dropped and 2 for cancelled, plus 16 times the elements.
pub fn payload(ended: CopyResult, count: u32) -> u32
    requires { count < 2 ^ 28 }
    ensures { result ≡ payload_of ended count }
{
    let code = match ended {
        CopyResult::Completed => 0,
        CopyResult::Dropped => 1,
        CopyResult::Cancelled => 2,
    };
    code + 16 * count
}
