//! Texts that are read from front to back: blanks, marks, words, labels and digits.

ghost use Rattle.std.specs.Prelude.{◌≡◌, ◌≤◌, ◌<◌, ◌==◌, length, take, drop, if◌then◌else◌, None, Some, MatchOption};
ghost use Rattle.std.specs.List.{prefix_len, position_or_len};
ghost use Rattle.value_reader.specs.Tokens as tokens;
ghost use Rattle.value_reader.specs.Reads.{Reads, Follows, Tests};

use crate::fault::NoText;
use std::marker::Model;

/// Whether a byte is a blank: a space or a tab.
fn is_blank(byte: u8) -> bool
    ensures { result ≡ tokens.is_blank byte }
{
    byte == b' ' || byte == b'\t'
}

/// Whether a byte is a bracket or a brace.
fn is_bracket(byte: u8) -> bool
    ensures { result ≡ tokens.is_bracket byte }
{
    byte == b'(' || byte == b')' || byte == b'[' || byte == b']' || byte == b'{' || byte == b'}'
}

/// Whether a label ends before this byte.
fn ends_label(byte: u8) -> bool
    ensures { result ≡ tokens.ends_label byte }
{
    is_blank(byte)
        || is_bracket(byte)
        || byte == b','
        || byte == b':'
        || byte == b'"'
        || byte == b'\''
}

/// The value of a digit or a letter, and 36 for any other byte.
pub fn digit_value(byte: u8) -> u64
    ensures { result ≡ tokens.digit_value byte }
{
    if byte < b'0' {
        36
    } else if byte <= b'9' {
        u64::from(byte - b'0')
    } else if byte < b'A' {
        36
    } else if byte <= b'Z' {
        u64::from(byte - b'A' + 10)
    } else if byte < b'a' {
        36
    } else if byte <= b'z' {
        u64::from(byte - b'a' + 10)
    } else {
        36
    }
}

/// Whether a byte is a digit in this base.
fn is_digit(base: u64, byte: u8) -> bool
    ensures { result ≡ tokens.is_digit base byte }
{
    digit_value(byte) < base
}

/// How many blanks stand before a text.
fn blanks_before(text: &[u8]) -> usize
    ensures value { result ≡ prefix_len tokens.is_blank text.now }
    ensures within { result ≤ length text.now }
{
    text.iter().take_while(|byte| is_blank(**byte)).count()
}

/// How many bytes a label at the front of a text has.
fn label_length(text: &[u8]) -> usize
    ensures value { result ≡ position_or_len tokens.ends_label text.now }
    ensures within { result ≤ length text.now }
{
    text.iter().take_while(|byte| !ends_label(**byte)).count()
}

/// How many digits stand at the front of a text.
fn digits_before(base: u64, text: &[u8]) -> usize
    ensures value { result ≡ prefix_len (tokens.is_digit base) text.now }
    ensures within { result ≤ length text.now }
{
    text.iter()
        .take_while(|byte| is_digit(base, **byte))
        .count()
}

/// A text without the blanks before it.
fn without_blanks(text: &[u8]) -> &[u8]
    ensures { result.now ≡ tokens.without_blanks text.now }
{
    &text[blanks_before(text)..]
}

/// What follows a mark of one byte, with or without blanks before it.
fn after_mark(mark: u8, text: &[u8]) -> Option<&[u8]>
    ensures { MatchOption result (tokens.after_mark mark text.now ≡ None) (λ rest. tokens.after_mark mark text.now ≡ Some rest.now) }
{
    match without_blanks(text) {
        [first, rest @ ..] if *first == mark => Some(rest),
        _ => None,
    }
}

/// What is left of a text that is being read. Contracts see its bytes.
#[derive(Drop)]
pub struct Text<'a> {
    bytes: &'a [u8],
}

impl<'a> Model for Text<'a> {
    ghost use Rattle.std.specs.Prelude.{ℕ, List};

    ghost Value = { List ℕ };

    ghost view = { λ t. t.bytes.now };
}

impl<'a> Text<'a> {
    /// A text that is to be read.
    pub fn of(bytes: &'a [u8]) -> Self
        ensures { result ≡ bytes.now }
    {
        Text { bytes }
    }

    /// How many bytes are left.
    pub fn len(&self) -> usize
        ensures { result ≡ length self.now }
    {
        self.bytes.len()
    }

    /// Whether no bytes are left.
    pub fn is_empty(&self) -> bool
        ensures { result ≡ (length self.now == 0) }
    {
        self.bytes.is_empty()
    }

    /// Goes on behind the blanks that stand here.
    pub fn skip_blanks(&mut self)
        ensures { self.new ≡ tokens.without_blanks self.old }
    {
        self.bytes = without_blanks(self.bytes);
    }

    /// Reads a byte.
    pub fn byte(&mut self) -> Result<u8, NoText>
        ensures { Reads (tokens.byte_at self.old) self.new result }
    {
        let (first, rest) = self.bytes.split_first().ok_or(NoText)?;
        self.bytes = rest;
        Ok(*first)
    }

    /// Reads a word where it stands here, and answers whether it does. Else the text stays as it was.
    pub fn has_word(&mut self, word: &[u8]) -> bool
        ensures { Tests (tokens.after word.now self.old) self.old self.new result }
    {
        match self.bytes.strip_prefix(word) {
            Some(rest) => {
                self.bytes = rest;
                true
            }
            None => false,
        }
    }

    /// Reads a mark of one byte where it stands here, with or without blanks before it, and answers whether it does. Else
    /// the text stays as it was.
    pub fn has_mark(&mut self, mark: u8) -> bool
        ensures { Tests (tokens.after_mark mark self.old) self.old self.new result }
    {
        match after_mark(mark, self.bytes) {
            Some(rest) => {
                self.bytes = rest;
                true
            }
            None => false,
        }
    }

    /// Reads a word.
    pub fn word(&mut self, word: &[u8]) -> Result<(), NoText>
        ensures { Follows (tokens.after word.now self.old) self.new result }
    {
        if self.has_word(word) {
            Ok(())
        } else {
            Err(NoText)
        }
    }

    /// Reads a mark of one byte, with or without blanks before it.
    pub fn mark(&mut self, mark: u8) -> Result<(), NoText>
        ensures { Follows (tokens.after_mark mark self.old) self.new result }
    {
        if self.has_mark(mark) {
            Ok(())
        } else {
            Err(NoText)
        }
    }

    /// Reads so many bytes.
    fn front(&mut self, count: usize) -> &'a [u8]
        requires { count ≤ length self.old }
        ensures front { result.now ≡ take count self.old }
        ensures rest { self.new ≡ drop count self.old }
    {
        let (front, rest) = self.bytes.split_at(count);
        self.bytes = rest;
        front
    }

    /// Reads a label, which has no bytes where none stands here.
    pub fn label(&mut self) -> &'a [u8]
        ensures label { result.now ≡ tokens.label_of self.old }
        ensures rest { self.new ≡ tokens.behind_label self.old }
    {
        let count = label_length(self.bytes);
        self.front(count)
    }

    /// Reads the digits of a base that stand here.
    pub fn digits(&mut self, base: u64) -> &'a [u8]
        ensures digits { result.now ≡ tokens.digits_of base self.old }
        ensures rest { self.new ≡ tokens.behind_digits base self.old }
    {
        let count = digits_before(base, self.bytes);
        self.front(count)
    }

    /// Reads this label where it stands here, with or without blanks before it, and answers whether it does. Else the text
    /// stays as it was.
    pub fn has_label(&mut self, label: &[u8]) -> bool
        ensures is { result ≡ tokens.is_next label.now self.old }
        ensures rest { self.new ≡ (if result then tokens.behind_next self.old else self.old) }
    {
        let here = without_blanks(self.bytes);
        let (front, rest) = here.split_at(label_length(here));
        if front == label {
            self.bytes = rest;
            true
        } else {
            false
        }
    }
}
