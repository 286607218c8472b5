//! Characters and texts between quotes.

ghost use Rattle.std.specs.Prelude.{◌≡◌, ◌++◌, true, false, OnOk, MatchResult};
ghost use Rattle.std.specs.Char.{encode_utf8};
ghost use Rattle.std.specs.Str.{is_utf8, chars};
ghost use Rattle.value_reader.specs.Reads.{Reads, MayRead};
ghost use Rattle.value_reader.specs.Quoted as quoted;

use crate::fault::NoText;
use crate::numbers::number_up_to;
use crate::text::Text;
use faults::{Memory, MemoryOr};
use std::alloc::Global;
use syntax_trees::{Bytes, Name, Seq};

/// The character for which a letter stands behind a backslash.
fn escaped(letter: u8) -> Option<u8>
    ensures { result ≡ quoted.escaped letter }
{
    match letter {
        b'\'' => Some(b'\''),
        b'"' => Some(b'"'),
        b'\\' => Some(b'\\'),
        b'n' => Some(b'\n'),
        b'r' => Some(b'\r'),
        b't' => Some(b'\t'),
        _ => None,
    }
}

/// The character with this code in hexadecimal digits, of which there are one to six.
fn char_of_code(digits: &[u8]) -> Option<char>
    ensures { result ≡ quoted.char_of_code digits.now }
{
    if digits.is_empty() || digits.len() > 6 {
        return None;
    }
    let code = number_up_to(16, 0x10_ffff, digits)?;
    char::from_u32(code as u32)
}

/// Reads the code of a character in braces.
fn code_at(text: &mut Text<'_>) -> Result<char, NoText>
    ensures { Reads (quoted.code_at text.old) text.new result }
{
    text.word(b"{")?;
    let digits = text.digits(16);
    let c = char_of_code(digits).ok_or(NoText)?;
    text.word(b"}")?;
    Ok(c)
}

/// Reads what stands behind a backslash.
fn escape_at(text: &mut Text<'_>) -> Result<char, NoText>
    ensures { Reads (quoted.escape_at text.old) text.new result }
{
    let letter = text.byte()?;
    if letter == b'u' {
        return code_at(text);
    }
    let byte = escaped(letter).ok_or(NoText)?;
    Ok(char::from(byte))
}

/// Appends a character.
fn push_char(c: char, to: &mut Vec<u8>) -> Result<(), Memory>
    ensures { OnOk result (to.new.items ≡ to.old.items ++ encode_utf8 c) }
{
    let mut buffer = [0u8; 4];
    let text = c.encode_utf8(&mut buffer);
    to.extend_from_slice(text.as_bytes())?;
    Ok(())
}

/// Reads the bytes of a literal and the quote that ends it.
#[tactic(auto, using(crate::proofs::Contents::content_over, crate::proofs::Contents::content_no_byte, crate::proofs::Contents::content_ends, crate::proofs::Contents::content_goes, crate::proofs::Contents::content_escapes, crate::proofs::Contents::content_no_escape))]
fn content_at(alloc: Global, quote: u8, text: &mut Text<'_>) -> Result<Bytes, MemoryOr<NoText>>
    ensures { MayRead (quoted.content_at quote text.old) text.new result }
{
    let mut bytes = Vec::new(alloc);
    let count = text.len();
    for _part in 0..count {
        let byte = text.byte()?;
        if byte == quote {
            return Ok(Seq::from_vec(bytes));
        }
        if byte == b'\\' {
            let c = escape_at(text)?;
            push_char(c, &mut bytes)?;
        } else {
            bytes.push(byte)?;
        }
    }
    Err(MemoryOr::Fault(NoText))
}

/// Reads a literal between two quotes.
fn literal_at(alloc: Global, quote: u8, text: &mut Text<'_>) -> Result<Bytes, MemoryOr<NoText>>
    ensures { MayRead (quoted.literal_at quote text.old) text.new result }
{
    text.word(&[quote])?;
    content_at(alloc, quote, text)
}

/// Bytes as text, where they are UTF-8.
#[tactic(auto, using(crate::proofs::Utf8::no_text, crate::proofs::Utf8::some_text))]
fn as_text(bytes: &[u8]) -> Result<&str, NoText>
    ensures { MatchResult result (λ s. (s.now ≡ bytes.now) × (is_utf8 bytes.now ≡ true)) (λ e. is_utf8 bytes.now ≡ false) }
{
    match std::str::from_utf8(bytes) {
        Ok(text) => Ok(text),
        Err(_) => Err(NoText),
    }
}

/// The character of a text that has only one.
#[tactic(auto, using(crate::proofs::Utf8::only_one, crate::proofs::Utf8::only_more))]
fn only_char(text: &str) -> Option<char>
    ensures { result ≡ quoted.only (chars text.now) }
{
    let mut chars = text.chars();
    let first = chars.next()?;
    match chars.next() {
        Some(_) => None,
        None => Some(first),
    }
}

/// Reads a text.
pub fn string_at(alloc: Global, text: &mut Text<'_>) -> Result<Name, MemoryOr<NoText>>
    ensures { MayRead (quoted.string_at text.old) text.new result }
{
    let bytes = literal_at(alloc, b'"', text)?;
    let content = as_text(bytes.as_slice())?;
    Ok(Name::new(alloc, content)?)
}

/// Reads a character.
pub fn char_at(alloc: Global, text: &mut Text<'_>) -> Result<char, MemoryOr<NoText>>
    ensures { MayRead (quoted.char_at text.old) text.new result }
{
    let bytes = literal_at(alloc, b'\'', text)?;
    let content = as_text(bytes.as_slice())?;
    let c = only_char(content).ok_or(NoText)?;
    Ok(c)
}
