//! Reads, writes, cancels and drops of streams.
//!
//! What happens, then what is answered. `o` is the offer that stands, as its side, its task, its length and how much is copied; `kr`
//! and `kw` are the open copy of an end, as its length, how much is copied and whether it stands;
//! `fr` and `fw` ask whether an end is done. A payload is 16 times the elements copied, plus 0 for completed, 1 for dropped and
//! 2 for cancelled.

use crate::act::{Act, Answer, act_of, write_answer, write_copy, write_offer};
use cases::{Acts, Answers, acted};
use std::alloc::{AllocError, Global};
use std::test::Fail;
use stream_ends::{By, Meet, Rendezvous, Side};

/// Lets an act happen where it may.
pub fn happen(ends: &mut Rendezvous, act: Act) -> Answer {
    match act {
        Act::Call(side, length) => call(ends, side, length),
        Act::Deliver(side) => {
            if ends.pending(side) {
                Answer::Payload(ends.deliver(side))
            } else {
                Answer::No
            }
        }
        Act::Cancel(side) => {
            if ends.is_copying(side) {
                Answer::Payload(ends.cancel(side))
            } else {
                Answer::No
            }
        }
        Act::DropEnd(side) => {
            if ends.is_dropped(side) || ends.is_copying(side) {
                Answer::No
            } else {
                ends.drop_end(side);
                Answer::Gone
            }
        }
    }
}

/// A read or write, with its copy.
fn call(ends: &mut Rendezvous, side: Side, length: u32) -> Answer {
    if !ends.is_idle(side) || length > 0x0FFF_FFFF {
        return Answer::No;
    }
    let meet = ends.offer(side, By::Task(1), 0, 0, length);
    if let Meet::Copies(count) = meet {
        ends.copied(count);
    }
    match meet.payload() {
        Some(payload) => Answer::Payload(payload),
        None => Answer::Stands,
    }
}

/// An answer to a question.
fn yes_or_no(answer: bool) -> &'static str {
    if answer { "yes" } else { "no" }
}

/// The ends of a stream, which words change.
#[derive(Drop)]
struct Ends {
    ends: Rendezvous,
}

impl Ends {
    /// Writes the answer to a word.
    fn write_answer(&mut self, word: &str, text: &mut String) -> Result<(), AllocError> {
        match word {
            "o" => write_offer(text, self.ends.standing()),
            "kr" => write_copy(text, self.ends.open_copy(Side::Reader)),
            "kw" => write_copy(text, self.ends.open_copy(Side::Writer)),
            "fr" => text.push_str(yes_or_no(self.ends.is_done(Side::Reader))),
            "fw" => text.push_str(yes_or_no(self.ends.is_done(Side::Writer))),
            _ => match act_of(word) {
                Some(act) => write_answer(text, happen(&mut self.ends, act)),
                None => text.push_str("no such word"),
            },
        }
    }
}

impl Acts for Ends {
    fn act(
        &mut self,
        _alloc: Global,
        name: &str,
        _rest: &str,
        text: &mut String,
    ) -> Result<(), Fail> {
        self.write_answer(name, text)?;
        Ok(())
    }
}

/// The ends of new streams.
pub(crate) struct Streams;

impl Answers for Streams {
    fn answer(alloc: Global, given: &str) -> Result<String, Fail> {
        let ends = Rendezvous::new();
        acted(alloc, Ends { ends }, given)
    }
}
