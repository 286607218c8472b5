//! Both ends of a future.

ghost use Rattle.std.specs.Prelude.{◌≡◌, ℕ, IsTrue, List, [], ◌∷◌, ◌++◌};
ghost use Rattle.stream_ends.specs.declared.side.Side as sides;
ghost use Rattle.stream_ends.specs.declared.open_copy.By as bys;
ghost use Rattle.stream_ends.specs.Ends.{end_at, is_idle, is_copying, is_pending};
ghost use Rattle.stream_ends.specs.Meeting.{standing, changed, after_dropping};
ghost use Rattle.stream_ends.specs.Closed.{new_ends};
ghost use Rattle.future_ends.specs.declared.meet.Meet.TheVariants.{Copies};
ghost use Rattle.future_ends.specs.Meeting.{new_offer, met_at, after, after_copy, told, told_payload, DueIfCopies, may_drop_at, Sound};
ghost use Rattle.future_ends.specs.Runs.{Act, Call, Deliver, Cancel, Drop};
ghost use Rattle.future_ends.specs.Places.{settled, offered_at, AsksIfCopies, ComesOf, ComesOfCall};

use crate::future_end::{take, tell};
use crate::meet::{Meet, meet_other};
use std::marker::Model;
use stream_ends::{By, End, Offer, OpenCopy, Side};

/// Both ends of a future: what is under way at each, whether it is done or dropped, and whether the last call is to copy the value. No
/// call takes memory.
#[derive(Drop)]
pub struct Rendezvous {
    reader: End,
    writer: End,
    // Whether the last call answered that the value is to be copied, and nothing was called since.
    is_due: bool,
}

impl Model for Rendezvous {
    ghost use Rattle.future_ends.specs.Places.{FuturePlace, SoundPlace};

    ghost Value = { FuturePlace };

    ghost view = { λ r. record { ends = record { reader = r.reader; writer = r.writer }; is_due = r.is_due } };

    ghost invariant = { λ r. SoundPlace (record { ends = record { reader = r.reader; writer = r.writer }; is_due = r.is_due }) };
}

impl Rendezvous {
    /// The ends of a new future.
    pub fn new() -> Rendezvous
        ensures exact { result ≡ settled new_ends.view }
        ensures stands { ComesOf [] result }
    {
        Rendezvous {
            reader: End::new(),
            writer: End::new(),
            is_due: false,
        }
    }

    /// The offer that stands, if there is one. No second one does.
    pub fn standing(&self) -> Option<Offer>
        ensures exact { result ≡ standing self.now.ends }
        ensures sound { Sound self.now.ends }
    {
        if let Some(copy) = self.reader.standing() {
            return Some(copy.offer(Side::Reader));
        }
        match self.writer.standing() {
            Some(copy) => Some(copy.offer(Side::Writer)),
            None => None,
        }
    }

    /// The read or write that is open at this end, if there is one.
    pub fn open_copy(&self, side: Side) -> Option<OpenCopy>
        ensures exact { result ≡ (end_at side self.now.ends).copy }
    {
        self.end(side).copy
    }

    /// Begins a read or write at an end that is idle, and answers what it meets. After `Copies` the caller moves the value
    /// and then calls `copied`.
    #[tactic(auto, using(crate::proofs::Coming::offer_comes, crate::proofs::Coming::asks_for))]
    pub fn offer(&mut self, side: Side, by: By, canon: u32, place: u32) -> Meet
        requires { IsTrue (is_idle (end_at side self.old.ends)) }
        ensures meet { result ≡ (met_at side (new_offer by canon place) self.old.ends).meet }
        ensures exact { self.new ≡ offered_at side (new_offer by canon place) self.old }
        ensures stands { (acts : List Act) → ComesOf acts self.old → ComesOfCall acts (Call side by canon place) result self.new }
        ensures due { DueIfCopies result self.new.ends }
        ensures asks { AsksIfCopies result self.new }
    {
        let meet = self.begin(side, by, canon, place);
        self.is_due = meet.copies();
        meet
    }

    /// Lets a read or write meet the other end, before what it is to copy is due.
    fn begin(&mut self, side: Side, by: By, canon: u32, place: u32) -> Meet
        requires { IsTrue (is_idle (end_at side self.old.ends)) }
        ensures meet { result ≡ (met_at side (new_offer by canon place) self.old.ends).meet }
        ensures exact { self.new ≡ settled (after side (new_offer by canon place) self.old.ends) }
        ensures due { DueIfCopies result self.new.ends }
    {
        self.is_due = false;
        let call = OpenCopy::new(by, canon, place, 1);
        match side {
            Side::Reader => meet_other(call, &mut self.reader, &self.writer),
            Side::Writer => meet_other(call, &mut self.writer, &self.reader),
        }
    }

    /// Whether the value is to be copied: `offer` answered that, and nothing was called since.
    pub fn is_due(&self) -> bool
        ensures exact { result ≡ self.now.is_due }
    {
        self.is_due
    }

    /// Completes the standing offer and the call of the other side that met it, between which the value was copied.
    #[tactic(auto, using(crate::proofs::Coming::copied_comes))]
    pub fn copied(&mut self)
        requires { IsTrue self.old.is_due }
        ensures exact { self.new ≡ settled (after_copy self.old.ends) }
        ensures stands { (side : sides.Side) (by : bys.By) (canon place : ℕ) (acts : List Act) → IsTrue (is_idle (end_at side self.old.ends)) → (met_at side (new_offer by canon place) self.old.ends).meet ≡ Copies → ComesOf acts self.old → ComesOf (acts ++ Call side by canon place ∷ []) self.new }
    {
        self.pass();
    }

    /// Completes both.
    fn pass(&mut self)
        requires { IsTrue self.old.is_due }
        ensures { self.new ≡ settled (after_copy self.old.ends) }
    {
        self.is_due = false;
        if self.reader.standing().is_some() {
            take(&mut self.reader);
            self.writer.done = true;
        } else {
            take(&mut self.writer);
            self.reader.done = true;
        }
    }

    /// Whether a copy may begin at this end.
    pub fn is_idle(&self, side: Side) -> bool
        ensures exact { result ≡ is_idle (end_at side self.now.ends) }
    {
        self.end(side).is_idle()
    }

    /// Whether a copy is under way at this end.
    pub fn is_copying(&self, side: Side) -> bool
        ensures exact { result ≡ is_copying (end_at side self.now.ends) }
    {
        self.end(side).is_copying()
    }

    /// Whether this end was told that the value was copied, or that the other end is dropped.
    pub fn is_done(&self, side: Side) -> bool
        ensures exact { result ≡ (end_at side self.now.ends).done }
    {
        self.end(side).done
    }

    /// Whether this end is dropped.
    pub fn is_dropped(&self, side: Side) -> bool
        ensures exact { result ≡ (end_at side self.now.ends).dropped }
    {
        self.end(side).dropped
    }

    /// Whether a result waits to be told at this end.
    pub fn pending(&self, side: Side) -> bool
        ensures exact { result ≡ is_pending (end_at side self.now.ends) }
    {
        self.end(side).is_pending()
    }

    /// Tells the result that waits at this end, and ends its copy. The answer is the result: 0 for completed and 1 for
    /// dropped.
    #[tactic(auto, using(crate::proofs::Coming::deliver_comes))]
    pub fn deliver(&mut self, side: Side) -> u32
        requires { IsTrue (is_pending (end_at side self.old.ends)) }
        ensures payload { result ≡ told_payload (end_at side self.old.ends).copy }
        ensures exact { self.new ≡ settled (changed side told self.old.ends) }
        ensures stands { (acts : List Act) → ComesOf acts self.old → ComesOf (acts ++ Deliver side ∷ []) self.new }
    {
        self.tell_end(side)
    }

    /// Ends the copy under way at this end. It is told its result, where one waits, and else that it is cancelled. The
    /// answer is the result: 0 for completed, 1 for dropped and 2 for cancelled.
    #[tactic(auto, using(crate::proofs::Coming::cancel_comes))]
    pub fn cancel(&mut self, side: Side) -> u32
        requires { IsTrue (is_copying (end_at side self.old.ends)) }
        ensures payload { result ≡ told_payload (end_at side self.old.ends).copy }
        ensures exact { self.new ≡ settled (changed side told self.old.ends) }
        ensures stands { (acts : List Act) → ComesOf acts self.old → ComesOf (acts ++ Cancel side ∷ []) self.new }
    {
        self.tell_end(side)
    }

    /// Drops an end that is not dropped yet and has no copy under way. What stands at the other one is then to be told so,
    /// and stands until it is. A writable end is dropped only when it is done.
    #[tactic(auto, using(crate::proofs::Coming::drop_comes))]
    pub fn drop_end(&mut self, side: Side)
        requires { IsTrue (may_drop_at side (end_at side self.old.ends)) }
        ensures exact { self.new ≡ settled (after_dropping side self.old.ends) }
        ensures stands { (acts : List Act) → ComesOf acts self.old → ComesOf (acts ++ Drop side ∷ []) self.new }
    {
        self.leave(side);
    }

    /// Drops an end.
    fn leave(&mut self, side: Side)
        ensures { self.new ≡ settled (after_dropping side self.old.ends) }
    {
        self.is_due = false;
        match side {
            Side::Reader => {
                self.reader.dropped = true;
                self.writer.hear_of_drop();
            }
            Side::Writer => {
                self.writer.dropped = true;
                self.reader.hear_of_drop();
            }
        }
    }

    /// The end of this side.
    fn end(&self, side: Side) -> &End
        ensures { result.now ≡ end_at side self.now.ends }
    {
        match side {
            Side::Reader => &self.reader,
            Side::Writer => &self.writer,
        }
    }

    /// Ends the copy at this end and answers its payload.
    fn tell_end(&mut self, side: Side) -> u32
        ensures payload { result ≡ told_payload (end_at side self.old.ends).copy }
        ensures exact { self.new ≡ settled (changed side told self.old.ends) }
    {
        self.is_due = false;
        match side {
            Side::Reader => tell(&mut self.reader),
            Side::Writer => tell(&mut self.writer),
        }
    }
}
