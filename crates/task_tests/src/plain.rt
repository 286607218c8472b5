//! A plain model of a stream's ends: one place where an offer waits, and a box for each side's result.

use crate::act::{Act, Answer};
use stream_ends::Side;

/// An offer that waits for the other side.
#[derive(Clone, Copy)]
struct Waiting {
    side: Side,
    length: u32,
    passed: u32,
}

/// One side.
#[derive(Clone, Copy)]
struct Seat {
    gone: bool,
    done: bool,
    result: Option<u32>,
}

/// Both sides.
#[derive(Clone, Copy)]
pub struct Plain {
    waiting: Option<Waiting>,
    reader: Seat,
    writer: Seat,
}

/// The side across.
fn across(side: Side) -> Side {
    match side {
        Side::Reader => Side::Writer,
        Side::Writer => Side::Reader,
    }
}

impl Plain {
    /// A new stream.
    pub fn new() -> Plain {
        let seat = Seat {
            gone: false,
            done: false,
            result: None,
        };
        Plain {
            waiting: None,
            reader: seat,
            writer: seat,
        }
    }

    /// Lets an act happen where it may.
    pub fn happen(&mut self, act: Act) -> Answer {
        match act {
            Act::Call(side, length) => self.call(side, length),
            Act::Deliver(side) => {
                let ready = match self.waits(side) {
                    Some(waiting) => waiting.passed > 0,
                    None => self.seat(side).result.is_some(),
                };
                if ready { self.tell(side) } else { Answer::No }
            }
            Act::Cancel(side) => {
                if self.is_busy(side) {
                    self.tell(side)
                } else {
                    Answer::No
                }
            }
            Act::DropEnd(side) => self.leave(side),
        }
    }

    fn seat(&self, side: Side) -> Seat {
        match side {
            Side::Reader => self.reader,
            Side::Writer => self.writer,
        }
    }

    fn sit(&mut self, side: Side, seat: Seat) {
        match side {
            Side::Reader => self.reader = seat,
            Side::Writer => self.writer = seat,
        }
    }

    /// The side's own offer, where it waits.
    fn waits(&self, side: Side) -> Option<Waiting> {
        match self.waiting {
            Some(waiting) => {
                if waiting.side == side {
                    Some(waiting)
                } else {
                    None
                }
            }
            None => None,
        }
    }

    fn is_busy(&self, side: Side) -> bool {
        self.waits(side).is_some() || self.seat(side).result.is_some()
    }

    fn call(&mut self, side: Side, length: u32) -> Answer {
        let mut own = self.seat(side);
        if own.gone || own.done || self.is_busy(side) {
            return Answer::No;
        }
        if self.seat(across(side)).gone {
            own.done = true;
            self.sit(side, own);
            return Answer::Payload(1);
        }
        if let Some(met) = self.waiting {
            let room = met.length.wrapping_sub(met.passed);
            if room > 0 {
                let passes = if room < length { room } else { length };
                self.waiting = Some(Waiting {
                    passed: met.passed.wrapping_add(passes),
                    ..met
                });
                return Answer::Payload(passes.wrapping_mul(16));
            }
            if side == Side::Writer && length == 0 && met.length == 0 {
                return Answer::Payload(0);
            }
            let mut other = self.seat(met.side);
            other.result = Some(met.passed.wrapping_mul(16));
            self.sit(met.side, other);
        }
        self.waiting = Some(Waiting {
            side,
            length,
            passed: 0,
        });
        Answer::Stands
    }

    /// Tells a side its result, or that its offer is given up.
    fn tell(&mut self, side: Side) -> Answer {
        let mut own = self.seat(side);
        let payload = match self.waits(side) {
            Some(waiting) => {
                self.waiting = None;
                if waiting.passed > 0 {
                    waiting.passed.wrapping_mul(16)
                } else {
                    2
                }
            }
            None => own.result.unwrap_or(0),
        };
        own.result = None;
        if payload % 16 == 1 {
            own.done = true;
        }
        self.sit(side, own);
        Answer::Payload(payload)
    }

    fn leave(&mut self, side: Side) -> Answer {
        let mut own = self.seat(side);
        if own.gone || self.is_busy(side) {
            return Answer::No;
        }
        own.gone = true;
        self.sit(side, own);
        if let Some(waiting) = self.waiting {
            let mut other = self.seat(waiting.side);
            other.result = Some(waiting.passed.wrapping_mul(16).wrapping_add(1));
            self.sit(waiting.side, other);
            self.waiting = None;
        }
        Answer::Gone
    }
}
