//! Both ends of a stream.

ghost use Rattle.std.specs.Prelude.{◌≡◌, ℕ, ◌^◌, ◌<◌, IsTrue, List, [], ◌∷◌, ◌++◌};
ghost use Rattle.stream_ends.specs.declared.side.Side as sides;
ghost use Rattle.stream_ends.specs.declared.open_copy.By as bys;
ghost use Rattle.stream_ends.specs.declared.meet.Meet.TheVariants.{Copies};
ghost use Rattle.stream_ends.specs.Ends.{end_at, new_copy, is_idle, is_copying, is_pending, told, told_payload};
ghost use Rattle.stream_ends.specs.Meeting.{met_at, after, may_drop, standing, changed, after_copy, after_dropping, DueIfCopies, Sound};
ghost use Rattle.stream_ends.specs.Runs.{Act, Call, Deliver, Cancel, Drop, count_of, may_call, run};
ghost use Rattle.stream_ends.specs.Closed.{new_ends};
ghost use Rattle.stream_ends.specs.Places.{settled, offered_at, is_due, AsksIfCopies, ComesOf, ComesOfCall};

use crate::meet::{Meet, meet_other};
use crate::open_copy::{By, Offer, OpenCopy};
use crate::side::Side;
use crate::stream_end::End;
use std::marker::Model;

/// Both ends of a stream: what is under way at each, whether it is done or dropped, and how many elements the last call is to copy.
/// No call takes memory.
#[derive(Drop)]
pub struct Rendezvous {
    reader: End,
    writer: End,
    // What the last call answered to be copied, where nothing was called since, else 0.
    due: u32,
}

impl Model for Rendezvous {
    ghost use Rattle.stream_ends.specs.Places.{MeetingPlace, SoundPlace};

    ghost Value = { MeetingPlace };

    ghost view = { λ r. record { ends = record { reader = r.reader; writer = r.writer }; due = r.due } };

    ghost invariant = { λ r. SoundPlace (record { ends = record { reader = r.reader; writer = r.writer }; due = r.due }) };
}

impl Rendezvous {
    /// The ends of a new stream.
    pub fn new() -> Rendezvous
        ensures exact { result ≡ settled new_ends.view }
        ensures stands { ComesOf [] result }
    {
        Rendezvous {
            reader: End::new(),
            writer: End::new(),
            due: 0,
        }
    }

    /// The offer that stands, if there is one. Counts are in their ranges, and no second offer stands.
    pub fn standing(&self) -> Option<Offer>
        ensures exact { result ≡ standing self.now.ends }
        ensures sound { Sound self.now.ends }
    {
        if let Some(copy) = self.reader.standing() {
            return Some(copy.offer(Side::Reader));
        }
        match self.writer.standing() {
            Some(copy) => Some(copy.offer(Side::Writer)),
            None => None,
        }
    }

    /// The read or write that is open at this end, if there is one: also one that another took the place of.
    pub fn open_copy(&self, side: Side) -> Option<OpenCopy>
        ensures exact { result ≡ (end_at side self.now.ends).copy }
    {
        self.end(side).copy
    }

    /// Begins a read or write of so many elements, at most 2^28 - 1, at an end that is idle, and answers what it meets.
    /// After `Copies(n)` the caller moves n elements and then calls `copied(n)`.
    #[tactic(auto, using(crate::proofs::Coming::offer_comes, crate::proofs::Coming::asks_for))]
    pub fn offer(&mut self, side: Side, by: By, canon: u32, place: u32, length: u32) -> Meet
        requires idle { IsTrue (is_idle (end_at side self.old.ends)) }
        requires short { length < 2 ^ 28 }
        ensures meet { result ≡ (met_at side (new_copy by canon place length) self.old.ends).meet }
        ensures exact { self.new ≡ offered_at side (new_copy by canon place length) self.old }
        ensures stands { (acts : List Act) → ComesOf acts self.old → ComesOfCall acts (Call side by canon place length) result self.new }
        ensures due { DueIfCopies result self.new.ends }
        ensures asks { AsksIfCopies result self.new }
        ensures short { count_of result < 2 ^ 28 }
    {
        let meet = self.begin(side, by, canon, place, length);
        self.due = meet.count();
        meet
    }

    /// Lets a read or write meet the other end, before what it is to copy is due.
    fn begin(&mut self, side: Side, by: By, canon: u32, place: u32, length: u32) -> Meet
        requires idle { IsTrue (is_idle (end_at side self.old.ends)) }
        requires short { length < 2 ^ 28 }
        ensures meet { result ≡ (met_at side (new_copy by canon place length) self.old.ends).meet }
        ensures exact { self.new ≡ settled (after side (met_at side (new_copy by canon place length) self.old.ends)) }
        ensures due { DueIfCopies result self.new.ends }
        ensures short { count_of result < 2 ^ 28 }
    {
        self.due = 0;
        let call = OpenCopy::new(by, canon, place, length);
        match side {
            Side::Reader => meet_other(side, call, &mut self.reader, &mut self.writer),
            Side::Writer => meet_other(side, call, &mut self.writer, &mut self.reader),
        }
    }

    /// Whether so many elements are to be copied: `offer` answered that, and nothing was called since.
    pub fn is_due(&self, count: u32) -> bool
        ensures exact { result ≡ is_due count self.now }
    {
        0 < count && self.due == count
    }

    /// Counts the elements that were copied between the standing offer and the call of the other side that met it, as
    /// many as that meeting answered.
    #[tactic(auto, using(crate::proofs::Coming::copied_comes))]
    pub fn copied(&mut self, count: u32)
        requires { IsTrue (is_due count self.old) }
        ensures exact { self.new ≡ settled (after_copy count self.old.ends) }
        ensures stands { (side : sides.Side) (by : bys.By) (canon place length : ℕ) (acts : List Act) → IsTrue (may_call side length (run acts new_ends)) → (met_at side (new_copy by canon place length) self.old.ends).meet ≡ Copies count → ComesOf acts self.old → ComesOf (acts ++ Call side by canon place length ∷ []) self.new }
    {
        self.grow(count);
    }

    /// Lets the standing offer grow.
    fn grow(&mut self, count: u32)
        requires { IsTrue (is_due count self.old) }
        ensures { self.new ≡ settled (after_copy count self.old.ends) }
    {
        self.due = 0;
        if self.reader.standing().is_some() {
            self.reader.grow(count);
        } else {
            self.writer.grow(count);
        }
    }

    /// Whether a copy may begin at this end.
    pub fn is_idle(&self, side: Side) -> bool
        ensures exact { result ≡ is_idle (end_at side self.now.ends) }
    {
        self.end(side).is_idle()
    }

    /// Whether a copy is under way at this end.
    pub fn is_copying(&self, side: Side) -> bool
        ensures exact { result ≡ is_copying (end_at side self.now.ends) }
    {
        self.end(side).is_copying()
    }

    /// Whether this end was told that the other one is dropped.
    pub fn is_done(&self, side: Side) -> bool
        ensures exact { result ≡ (end_at side self.now.ends).done }
    {
        self.end(side).done
    }

    /// Whether this end is dropped.
    pub fn is_dropped(&self, side: Side) -> bool
        ensures exact { result ≡ (end_at side self.now.ends).dropped }
    {
        self.end(side).dropped
    }

    /// Whether a result waits to be told at this end.
    pub fn pending(&self, side: Side) -> bool
        ensures exact { result ≡ is_pending (end_at side self.now.ends) }
    {
        self.end(side).is_pending()
    }

    /// Tells the result that waits at this end, and ends its copy. The answer is its payload: the result, 0 for completed
    /// and 1 for dropped, plus 16 times the elements copied.
    #[tactic(auto, using(crate::proofs::Coming::deliver_comes))]
    pub fn deliver(&mut self, side: Side) -> u32
        requires { IsTrue (is_pending (end_at side self.old.ends)) }
        ensures payload { result ≡ told_payload (end_at side self.old.ends).copy }
        ensures exact { self.new ≡ settled (changed side told self.old.ends) }
        ensures stands { (acts : List Act) → ComesOf acts self.old → ComesOf (acts ++ Deliver side ∷ []) self.new }
    {
        self.tell(side)
    }

    /// Ends the copy under way at this end. It is told its result, where one waits, and else that it is cancelled. The
    /// answer is its payload: the result, 0 for completed, 1 for dropped and 2 for cancelled, plus 16 times the elements
    /// copied.
    #[tactic(auto, using(crate::proofs::Coming::cancel_comes))]
    pub fn cancel(&mut self, side: Side) -> u32
        requires { IsTrue (is_copying (end_at side self.old.ends)) }
        ensures payload { result ≡ told_payload (end_at side self.old.ends).copy }
        ensures exact { self.new ≡ settled (changed side told self.old.ends) }
        ensures stands { (acts : List Act) → ComesOf acts self.old → ComesOf (acts ++ Cancel side ∷ []) self.new }
    {
        self.tell(side)
    }

    /// Drops an end that is not dropped yet and has no copy under way. What stands at the other one is then to be told so,
    /// and stands until it is.
    #[tactic(auto, using(crate::proofs::Coming::drop_comes))]
    pub fn drop_end(&mut self, side: Side)
        requires { IsTrue (may_drop (end_at side self.old.ends)) }
        ensures exact { self.new ≡ settled (after_dropping side self.old.ends) }
        ensures stands { (acts : List Act) → ComesOf acts self.old → ComesOf (acts ++ Drop side ∷ []) self.new }
    {
        self.leave(side);
    }

    /// Drops an end.
    fn leave(&mut self, side: Side)
        ensures { self.new ≡ settled (after_dropping side self.old.ends) }
    {
        self.due = 0;
        match side {
            Side::Reader => {
                self.reader.dropped = true;
                self.writer.hear_of_drop();
            }
            Side::Writer => {
                self.writer.dropped = true;
                self.reader.hear_of_drop();
            }
        }
    }

    /// The end of this side.
    fn end(&self, side: Side) -> &End
        ensures { result.now ≡ end_at side self.now.ends }
    {
        match side {
            Side::Reader => &self.reader,
            Side::Writer => &self.writer,
        }
    }

    /// Ends the copy at this end and answers its payload.
    fn tell(&mut self, side: Side) -> u32
        ensures payload { result ≡ told_payload (end_at side self.old.ends).copy }
        ensures exact { self.new ≡ settled (changed side told self.old.ends) }
    {
        self.due = 0;
        match side {
            Side::Reader => self.reader.tell(),
            Side::Writer => self.writer.tell(),
        }
    }
}
