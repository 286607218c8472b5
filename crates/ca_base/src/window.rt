//! A window of a file that is being read.

ghost use Rattle.std.specs.Prelude.{◌≡◌, ◌<◌, ◌^◌, ◌+◌, ◌==◌, length, OnErr};
ghost use Rattle.ca_base.specs.Grammar.{Byte, Take, Reads, Opens, Closes, passing, next_byte};

use crate::refusal::Refusal;
use std::marker::Model;

/// What is left of a window of a file.
#[derive(Drop)]
pub struct Window<'a, W> {
    bytes: &'a [u8],
    next: usize,
    base: usize,
    past: W,
}

impl<'a, W> Model for Window<'a, W> {
    ghost use Rattle.std.specs.Prelude.{◌<◌, ◌≤◌, ◌^◌, ◌+◌, drop, length};
    ghost use Rattle.ca_base.specs.Span.{Span};

    ghost Value = { Span W };

    ghost view = { λ w. record { bytes = drop w.next w.bytes.now; at = w.base + w.next; past = w.past } };

    ghost invariant = { λ w. (w.next ≤ length w.bytes.now) × (w.base + length w.bytes.now < 2 ^ 64) };
}

impl<'a, W> Window<'a, W> {
    /// The bytes from a place of a file on. What passes their end is refused for the given reason.
    pub fn of(bytes: &'a [u8], base: usize, past: W) -> Self
        requires { base + length bytes.now < 2 ^ 64 }
        ensures { result ≡ record { bytes = bytes.now; at = base; past = past } }
    {
        Window {
            bytes,
            next: 0,
            base,
            past,
        }
    }

    /// The place in the file of the next byte. The window's end has a place too.
    pub fn at(&self) -> usize
        ensures at { result ≡ self.now.at }
        ensures bound { self.now.at + length self.now.bytes < 2 ^ 64 }
    {
        self.base + self.next
    }

    /// How many bytes are left.
    pub fn left(&self) -> usize
        ensures { result ≡ length self.now.bytes }
    {
        self.bytes.len() - self.next
    }

    /// The next byte, without reading it, or none where no bytes are left.
    pub fn next(&self) -> Option<u8>
        ensures { result ≡ next_byte self.now.bytes }
    {
        if self.next == self.bytes.len() {
            None
        } else {
            Some(self.bytes[self.next])
        }
    }

    /// Whether no bytes are left.
    pub fn is_empty(&self) -> bool
        ensures { result ≡ (length self.now.bytes == 0) }
    {
        self.left() == 0
    }
}

impl<'a, W: Copy> Window<'a, W> {
    /// Reads one byte. A refused call leaves the window as it was.
    pub fn byte(&mut self) -> Result<u8, Refusal<W>>
        ensures reads { Reads (λ b. b) Byte self.old self.new result }
        ensures err { OnErr result (self.new ≡ self.old) }
    {
        if self.next == self.bytes.len() {
            return Err(self.passing());
        }
        let byte = self.bytes[self.next];
        self.next += 1;
        Ok(byte)
    }

    /// Reads so many bytes. A refused call leaves the window as it was.
    pub fn take(&mut self, count: usize) -> Result<&'a [u8], Refusal<W>>
        ensures reads { Reads (λ part. part.now) (Take count) self.old self.new result }
        ensures err { OnErr result (self.new ≡ self.old) }
    {
        if self.left() < count {
            return Err(self.passing());
        }
        let end = self.next + count;
        let part = &self.bytes[self.next..end];
        self.next = end;
        Ok(part)
    }

    /// Reads so many bytes as a window of their own. What passes the end of those is refused for the given reason.
    /// A refused call leaves the window as it was.
    pub fn sized<V: Copy>(&mut self, count: usize, past: V) -> Result<Window<'a, V>, Refusal<W>>
        ensures { Opens count past self.old self.new result }
    {
        let at = self.at();
        let part = self.take(count)?;
        Ok(Window::of(part, at, past))
    }

    /// The same window again, which can be read ahead of this one.
    pub(crate) fn ahead(&self) -> Self
        ensures { result ≡ self.now }
    {
        Window {
            bytes: self.bytes,
            next: self.next,
            base: self.base,
            past: self.past,
        }
    }

    /// Ends the reading of a window. Bytes that are left are refused.
    pub fn finish(self) -> Result<(), Refusal<W>>
        ensures { Closes self.entry result }
    {
        if self.is_empty() {
            Ok(())
        } else {
            Err(Refusal {
                place: self.at(),
                why: self.past,
            })
        }
    }

    /// The refusal of what passes the window's end.
    fn passing(&self) -> Refusal<W>
        ensures { result ≡ passing self.now }
    {
        Refusal {
            place: self.at() + self.left(),
            why: self.past,
        }
    }
}
