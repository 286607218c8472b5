//! What may happen at two ends, and what is answered.

use std::alloc::AllocError;
use std::fmt::Write;
use stream_ends::{By, Offer, OpenCopy, Side};

/// What happens.
#[derive(Clone, Copy)]
pub enum Act {
    /// A read or write of this length.
    Call(Side, u32),
    /// A delivery.
    Deliver(Side),
    /// A cancel.
    Cancel(Side),
    /// A drop.
    DropEnd(Side),
}

/// What is answered.
#[derive(Clone, Copy, PartialEq)]
pub enum Answer {
    /// It may not happen now.
    No,
    /// The offer stands.
    Stands,
    /// A payload.
    Payload(u32),
    /// The end is dropped.
    Gone,
}

/// What a word of a case stands for: `r3` and `w3` read and write 3 elements, `dr` and `dw` deliver, `cr` and `cw`
/// cancel, `xr` and `xw` drop.
pub fn act_of(word: &str) -> Option<Act> {
    match word.as_bytes() {
        [b'd', b'r'] => Some(Act::Deliver(Side::Reader)),
        [b'd', b'w'] => Some(Act::Deliver(Side::Writer)),
        [b'c', b'r'] => Some(Act::Cancel(Side::Reader)),
        [b'c', b'w'] => Some(Act::Cancel(Side::Writer)),
        [b'x', b'r'] => Some(Act::DropEnd(Side::Reader)),
        [b'x', b'w'] => Some(Act::DropEnd(Side::Writer)),
        [b'r', digit] => Some(Act::Call(Side::Reader, length_of(*digit))),
        [b'w', digit] => Some(Act::Call(Side::Writer, length_of(*digit))),
        _ => None,
    }
}

/// The length that a digit writes.
fn length_of(digit: u8) -> u32 {
    digit.saturating_sub(b'0') as u32
}

/// Writes an answer as cases write it.
pub fn write_answer(text: &mut String, answer: Answer) -> Result<(), AllocError> {
    match answer {
        Answer::No => text.push_str("no"),
        Answer::Stands => text.push_str("stands"),
        Answer::Payload(payload) => write!(text, "{payload}"),
        Answer::Gone => text.push_str("gone"),
    }
}

/// Writes the offer that stands: its side, who made it, its length, and how much of it is copied.
pub fn write_offer(text: &mut String, offer: Option<Offer>) -> Result<(), AllocError> {
    let Some(offer) = offer else {
        return text.push_str("none");
    };
    let side = match offer.side {
        Side::Reader => "r",
        Side::Writer => "w",
    };
    let By::Task(task) = offer.by;
    let length = offer.length;
    let copied = offer.copied;
    write!(text, "{side}/{task}/{length}/{copied}")
}

/// Writes the open copy of an end: its length, how much of it is copied, and whether it stands.
pub fn write_copy(text: &mut String, copy: Option<OpenCopy>) -> Result<(), AllocError> {
    let Some(copy) = copy else {
        return text.push_str("none");
    };
    let stands = if copy.standing { "y" } else { "n" };
    let length = copy.length;
    let copied = copy.copied;
    write!(text, "{length}/{copied}/{stands}")
}
