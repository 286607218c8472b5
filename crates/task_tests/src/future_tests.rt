//! Reads, writes, cancels and drops of futures.
//!
//! What happens, then what is answered. `o` is the offer that stands, as its side, its task, its length and how much is copied.
//! `kr` and `kw` are the open copy of an end, as its length, how much is copied and whether it stands. A payload is 0 for completed, 1 for dropped, 2 for cancelled.

use crate::act::{Act, Answer, act_of, write_answer, write_copy, write_offer};
use cases::{Acts, Answers, acted};
use future_ends::{Meet, Rendezvous};
use std::alloc::{AllocError, Global};
use std::test::Fail;
use stream_ends::{By, Side};

/// Lets an act happen where it may. A call has no length of its own.
fn happen(ends: &mut Rendezvous, act: Act) -> Answer {
    match act {
        Act::Call(side, _) => call(ends, side),
        Act::Deliver(side) => {
            if ends.pending(side) {
                Answer::Payload(ends.deliver(side))
            } else {
                Answer::No
            }
        }
        Act::Cancel(side) => {
            if ends.is_copying(side) {
                Answer::Payload(ends.cancel(side))
            } else {
                Answer::No
            }
        }
        Act::DropEnd(side) => drop_end(ends, side),
    }
}

/// A read or write, with its copy.
fn call(ends: &mut Rendezvous, side: Side) -> Answer {
    if !ends.is_idle(side) {
        return Answer::No;
    }
    let meet = ends.offer(side, By::Task(1), 0, 0);
    if meet == Meet::Copies {
        ends.copied();
    }
    match meet.payload() {
        Some(payload) => Answer::Payload(payload),
        None => Answer::Stands,
    }
}

/// A drop.
fn drop_end(ends: &mut Rendezvous, side: Side) -> Answer {
    if ends.is_dropped(side) || ends.is_copying(side) {
        return Answer::No;
    }
    match side {
        Side::Reader => ends.drop_end(Side::Reader),
        Side::Writer => {
            if !ends.is_done(Side::Writer) {
                return Answer::No;
            }
            ends.drop_end(Side::Writer);
        }
    }
    Answer::Gone
}

/// The ends of a future, which words change.
#[derive(Drop)]
struct Ends {
    ends: Rendezvous,
}

impl Ends {
    /// Writes the answer to a word.
    fn write_answer(&mut self, word: &str, text: &mut String) -> Result<(), AllocError> {
        match word {
            "o" => write_offer(text, self.ends.standing()),
            "kr" => write_copy(text, self.ends.open_copy(Side::Reader)),
            "kw" => write_copy(text, self.ends.open_copy(Side::Writer)),
            _ => match act_of(word) {
                Some(act) => write_answer(text, happen(&mut self.ends, act)),
                None => text.push_str("no such word"),
            },
        }
    }
}

impl Acts for Ends {
    fn act(
        &mut self,
        _alloc: Global,
        name: &str,
        _rest: &str,
        text: &mut String,
    ) -> Result<(), Fail> {
        self.write_answer(name, text)?;
        Ok(())
    }
}

/// The ends of new futures.
pub(crate) struct Futures;

impl Answers for Futures {
    fn answer(alloc: Global, given: &str) -> Result<String, Fail> {
        let ends = Rendezvous::new();
        acted(alloc, Ends { ends }, given)
    }
}
