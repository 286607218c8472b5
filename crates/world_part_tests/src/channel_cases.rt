//! Streams and futures of type 40.
//!
//! `r:3` and `w:3` read and write 3 elements, by task 1 and the canonical function 2 at place 64, and `copied:3` says that so many were
//! moved; `dr` and `dw` deliver, `cr` and `cw` cancel, `xr` and `xw` drop, `mr` and `mw` ask whether an end may be dropped. `o` is the
//! offer that stands, as its side, its task, its length and how much is copied; `kr` and `kw` the open copy of an end, as its canonical
//! function, its length, how much is copied and whether it stands. `ir`, `br`, `fr`, `gr` and `pr` ask whether the readable end is idle,
//! copying, done, dropped, and whether a result waits there, and `iw` to `pw` the same of the writable one; `type` tells kind and type.

use crate::words::{number, write_some, yes_or_no};
use builtin_kinds::EndKind;
use cases::{Acts, Answers, acted};
use channels::Channel;
use std::alloc::{AllocError, Global};
use std::fmt::Write;
use std::test::Fail;
use stream_ends::{By, Meet, Side};

/// A stream or a future that words change.
#[derive(Drop)]
struct Changed {
    channel: Channel,
}

/// Writes what a read or write meets.
fn write_meet(text: &mut String, meet: Option<Meet>) -> Result<(), AllocError> {
    match meet {
        None => text.push_str("no"),
        Some(Meet::Stands) => text.push_str("stands"),
        Some(Meet::Copies(count)) => write!(text, "copies-{count}"),
        Some(Meet::Dropped) => text.push_str("dropped"),
        Some(Meet::Displaces) => text.push_str("displaces"),
        Some(Meet::ZeroDone) => text.push_str("zero"),
        Some(Meet::NothingNow) => text.push_str("nothing"),
    }
}

impl Changed {
    /// A read or write.
    fn write_call(&mut self, text: &mut String, side: Side, rest: &str) -> Result<(), AllocError> {
        let meet = self.channel.offer(side, By::Task(1), 2, 64, number(rest));
        write_meet(text, meet)
    }

    /// Writes the offer that stands.
    fn write_offer(&self, text: &mut String) -> Result<(), AllocError> {
        let Some(offer) = self.channel.standing() else {
            return text.push_str("none");
        };
        let side = match offer.side {
            Side::Reader => "r",
            Side::Writer => "w",
        };
        let By::Task(task) = offer.by;
        let (length, copied) = (offer.length, offer.copied);
        write!(text, "{side}/{task}/{length}/{copied}")
    }

    /// Writes the open copy of an end.
    fn write_copy(&self, text: &mut String, side: Side) -> Result<(), AllocError> {
        let Some(copy) = self.channel.open_copy(side) else {
            return text.push_str("none");
        };
        let stands = yes_or_no(copy.standing);
        let (canon, length, copied) = (copy.canon, copy.length, copy.copied);
        write!(text, "{canon}/{length}/{copied}/{stands}")
    }

    /// Writes the kind and the type.
    fn write_type(&self, text: &mut String) -> Result<(), AllocError> {
        let kind = match self.channel.kind() {
            EndKind::Stream => "stream",
            EndKind::Future => "future",
        };
        let number = self.channel.end_type;
        write!(text, "{kind}-{number}")
    }

    /// What is asked of an end.
    fn test(&self, what: u8, side: Side) -> &'static str {
        yes_or_no(match what {
            b'i' => self.channel.is_idle(side),
            b'b' => self.channel.is_copying(side),
            b'f' => self.channel.is_done(side),
            b'g' => self.channel.is_dropped(side),
            b'p' => self.channel.pending(side),
            _ => self.channel.may_drop(side),
        })
    }

    /// Writes the answer to a word of two letters, the second of which names a side.
    fn write_at(&mut self, text: &mut String, what: u8, side: Side) -> Result<(), AllocError> {
        match what {
            b'd' => write_some(text, self.channel.deliver(side)),
            b'c' => write_some(text, self.channel.cancel(side)),
            b'x' => text.push_str(yes_or_no(self.channel.drop_end(side))),
            b'k' => self.write_copy(text, side),
            _ => text.push_str(self.test(what, side)),
        }
    }

    /// Writes the answer to a word.
    fn write_answer(
        &mut self,
        text: &mut String,
        name: &str,
        rest: &str,
    ) -> Result<(), AllocError> {
        match name {
            "r" => self.write_call(text, Side::Reader, rest),
            "w" => self.write_call(text, Side::Writer, rest),
            "copied" => text.push_str(yes_or_no(self.channel.copied(number(rest)))),
            "o" => self.write_offer(text),
            "type" => self.write_type(text),
            _ => match name.as_bytes() {
                [what, b'r'] => self.write_at(text, *what, Side::Reader),
                [what, b'w'] => self.write_at(text, *what, Side::Writer),
                _ => text.push_str("no such word"),
            },
        }
    }
}

impl Acts for Changed {
    fn act(
        &mut self,
        _alloc: Global,
        name: &str,
        rest: &str,
        text: &mut String,
    ) -> Result<(), Fail> {
        self.write_answer(text, name, rest)?;
        Ok(())
    }
}

/// New streams.
pub(crate) struct Streams;

impl Answers for Streams {
    fn answer(alloc: Global, given: &str) -> Result<String, Fail> {
        let channel = Channel::new(EndKind::Stream, 40);
        acted(alloc, Changed { channel }, given)
    }
}

/// New futures.
pub(crate) struct Futures;

impl Answers for Futures {
    fn answer(alloc: Global, given: &str) -> Result<String, Fail> {
        let channel = Channel::new(EndKind::Future, 40);
        acted(alloc, Changed { channel }, given)
    }
}
