//! A stream or a future.

ghost use Rattle.std.specs.Prelude.{◌≡◌, if◌then◌else◌, Some, None};
ghost use Rattle.stream_ends.specs.Ends.{is_idle, is_copying, is_pending};
ghost use Rattle.channels.specs.Channels.{new_ends, kind_of, end_in, standing_in, may_offer, meet_in, offered, is_due, copied, payload_in, told, may_drop, dropped, with_ends, future_meet};

use builtin_kinds::EndKind;
use stream_ends::{By, Meet, Offer, OpenCopy, Side};

/// Both ends of a stream or a future.
#[derive(Drop)]
pub enum Ends {
    /// Of a stream.
    Stream(stream_ends::Rendezvous),
    /// Of a future.
    Future(future_ends::Rendezvous),
}

/// A stream or a future. No call takes memory.
#[derive(Drop)]
pub struct Channel {
    /// The number of its type, the whole type of a stream or a future.
    pub end_type: usize,
    /// Its ends.
    pub ends: Ends,
}

impl Channel {
    /// A new stream or future of this type.
    pub fn new(kind: EndKind, end_type: usize) -> Channel
        ensures { result ≡ record { end_type = end_type; ends = new_ends kind } }
    {
        let ends = match kind {
            EndKind::Stream => Ends::Stream(stream_ends::Rendezvous::new()),
            EndKind::Future => Ends::Future(future_ends::Rendezvous::new()),
        };
        Channel { end_type, ends }
    }

    /// Whether it is a stream or a future.
    pub fn kind(&self) -> EndKind
        ensures { result ≡ kind_of self.now.ends }
    {
        match &self.ends {
            Ends::Stream(_) => EndKind::Stream,
            Ends::Future(_) => EndKind::Future,
        }
    }

    /// The offer that stands, if there is one.
    pub fn standing(&self) -> Option<Offer>
        ensures { result ≡ standing_in self.now.ends }
    {
        match &self.ends {
            Ends::Stream(ends) => ends.standing(),
            Ends::Future(ends) => ends.standing(),
        }
    }

    /// The read or write that is open at this end, if there is one: also one that stands no more.
    pub fn open_copy(&self, side: Side) -> Option<OpenCopy>
        ensures { result ≡ (end_in side self.now.ends).copy }
    {
        match &self.ends {
            Ends::Stream(ends) => ends.open_copy(side),
            Ends::Future(ends) => ends.open_copy(side),
        }
    }

    /// Whether a read or write may begin at this end.
    pub fn is_idle(&self, side: Side) -> bool
        ensures { result ≡ is_idle (end_in side self.now.ends) }
    {
        match &self.ends {
            Ends::Stream(ends) => ends.is_idle(side),
            Ends::Future(ends) => ends.is_idle(side),
        }
    }

    /// Whether one is open at this end.
    pub fn is_copying(&self, side: Side) -> bool
        ensures { result ≡ is_copying (end_in side self.now.ends) }
    {
        match &self.ends {
            Ends::Stream(ends) => ends.is_copying(side),
            Ends::Future(ends) => ends.is_copying(side),
        }
    }

    /// Whether this end was told that the other one is dropped, or of a future that its copy is completed.
    pub fn is_done(&self, side: Side) -> bool
        ensures { result ≡ (end_in side self.now.ends).done }
    {
        match &self.ends {
            Ends::Stream(ends) => ends.is_done(side),
            Ends::Future(ends) => ends.is_done(side),
        }
    }

    /// Whether this end is dropped.
    pub fn is_dropped(&self, side: Side) -> bool
        ensures { result ≡ (end_in side self.now.ends).dropped }
    {
        match &self.ends {
            Ends::Stream(ends) => ends.is_dropped(side),
            Ends::Future(ends) => ends.is_dropped(side),
        }
    }

    /// Whether a result waits to be told at this end.
    pub fn pending(&self, side: Side) -> bool
        ensures { result ≡ is_pending (end_in side self.now.ends) }
    {
        match &self.ends {
            Ends::Stream(ends) => ends.pending(side),
            Ends::Future(ends) => ends.pending(side),
        }
    }

    /// Begins a read or write of so many elements at this end, one of a future whatever is said, and answers what it meets. After
    /// `Copies(n)` the caller moves n elements and then calls `copied(n)`. A future's meetings are those of a stream with one element.
    ///
    /// None is answered, and nothing changes, where the end isn't idle, or 2^28 elements or more are said of a stream.
    pub fn offer(&mut self, side: Side, by: By, canon: u32, place: u32, length: u32) -> Option<Meet>
        ensures meet { result ≡ (if may_offer side length self.old.ends then Some (meet_in side by canon place length self.old.ends) else None) }
        ensures exact { self.new ≡ (if may_offer side length self.old.ends then with_ends (offered side by canon place length self.old.ends) self.old else self.old) }
    {
        if !self.is_idle(side) {
            return None;
        }
        match &mut self.ends {
            Ends::Stream(ends) => {
                if length > MOST {
                    return None;
                }
                Some(ends.offer(side, by, canon, place, length))
            }
            Ends::Future(ends) => Some(met(ends.offer(side, by, canon, place))),
        }
    }

    /// Counts the elements that were moved between the standing offer and the call that met it, as many as `offer` answered. Where no
    /// meeting of so many is due nothing changes, and the answer is false.
    pub fn copied(&mut self, count: u32) -> bool
        ensures answer { result ≡ is_due count self.old.ends }
        ensures exact { self.new ≡ (if result then with_ends (copied count self.old.ends) self.old else self.old) }
    {
        match &mut self.ends {
            Ends::Stream(ends) => {
                if !ends.is_due(count) {
                    return false;
                }
                ends.copied(count);
            }
            Ends::Future(ends) => {
                if count != 1 || !ends.is_due() {
                    return false;
                }
                ends.copied();
            }
        }
        true
    }

    /// Tells the result that waits at this end, and ends its copy. The answer is the payload: 0 for completed and 1 for dropped, and
    /// of a stream 16 times the elements copied besides. Where none waits nothing changes.
    pub fn deliver(&mut self, side: Side) -> Option<u32>
        ensures payload { result ≡ (if is_pending (end_in side self.old.ends) then Some (payload_in side self.old.ends) else None) }
        ensures exact { self.new ≡ (if is_pending (end_in side self.old.ends) then with_ends (told side self.old.ends) self.old else self.old) }
    {
        if !self.pending(side) {
            return None;
        }
        Some(match &mut self.ends {
            Ends::Stream(ends) => ends.deliver(side),
            Ends::Future(ends) => ends.deliver(side),
        })
    }

    /// Ends the copy that is open at this end: it is told its result, where one waits, and else that it is cancelled, which is 2 in
    /// the payload. Where none is open nothing changes.
    pub fn cancel(&mut self, side: Side) -> Option<u32>
        ensures payload { result ≡ (if is_copying (end_in side self.old.ends) then Some (payload_in side self.old.ends) else None) }
        ensures exact { self.new ≡ (if is_copying (end_in side self.old.ends) then with_ends (told side self.old.ends) self.old else self.old) }
    {
        if !self.is_copying(side) {
            return None;
        }
        Some(match &mut self.ends {
            Ends::Stream(ends) => ends.cancel(side),
            Ends::Future(ends) => ends.cancel(side),
        })
    }

    /// Whether this end may be dropped: it isn't dropped, no copy is open there, and the writable end of a future is done.
    pub fn may_drop(&self, side: Side) -> bool
        ensures { result ≡ may_drop side self.now.ends }
    {
        let is_free = !self.is_dropped(side) && !self.is_copying(side);
        match (&self.ends, side) {
            (Ends::Future(_), Side::Writer) => is_free && self.is_done(side),
            (Ends::Future(_), Side::Reader) => is_free,
            (Ends::Stream(_), _) => is_free,
        }
    }

    /// Drops an end. What stands at the other one is then to be told so. Where it may not be dropped nothing changes, and the answer is
    /// false.
    pub fn drop_end(&mut self, side: Side) -> bool
        ensures answer { result ≡ may_drop side self.old.ends }
        ensures exact { self.new ≡ (if result then with_ends (dropped side self.old.ends) self.old else self.old) }
    {
        if !self.may_drop(side) {
            return false;
        }
        match &mut self.ends {
            Ends::Stream(ends) => ends.drop_end(side),
            Ends::Future(ends) => ends.drop_end(side),
        }
        true
    }
}

/// The greatest number of elements of a read or write.
const MOST: u32 = 268_435_455;

/// What a read or write of a future meets, as one of a stream with one element.
fn met(meet: future_ends::Meet) -> Meet
    ensures { result ≡ future_meet meet }
{
    match meet {
        future_ends::Meet::Stands => Meet::Stands,
        future_ends::Meet::Copies => Meet::Copies(1),
        future_ends::Meet::Dropped => Meet::Dropped,
    }
}
