//! What lines make of a linear memory, as text.

use crate::hex::{hex, hex32, split};
use cases::{Steps, bytes_of_lines};
use faults::Memory;
use std::alloc::{AllocError, Global};
use std::fmt::Write;
use std::test::Fail;
use wasm_code_reader::{load, store};
use wasm_memory::{LinearMemory, MOST_PAGES, OutOfBounds};

/// The words behind the name of a line, as numbers. The text from the second one on may be bytes too.
#[derive(Clone, Copy)]
struct Words<'a> {
    first: u32,
    second: u32,
    third: u32,
    value: u64,
    bytes: &'a str,
}

/// The words of a text.
fn words_of(text: &str) -> Words<'_> {
    let (first, bytes) = split(text);
    let (second, rest) = split(bytes);
    let (third, value) = split(rest);
    Words {
        first: hex32(first),
        second: hex32(second),
        third: hex32(third),
        value: hex(value),
        bytes,
    }
}

/// The lowest byte of a number.
fn low_byte(number: u32) -> u8 {
    (number % 256) as u8
}

/// The answer of a call that may be out of bounds.
fn done(answer: Result<(), OutOfBounds>) -> &'static str {
    match answer {
        Ok(()) => "ok",
        Err(OutOfBounds) => "out of bounds",
    }
}

/// Writes a value that may be out of bounds.
fn write_value(text: &mut String, value: Option<u64>) -> Result<(), AllocError> {
    match value {
        Some(value) => write!(text, "{value:x}"),
        None => text.push_str("out of bounds"),
    }
}

/// Writes what a load gives: its opcode, its operand and its offset.
fn write_loaded(
    text: &mut String,
    memory: &LinearMemory,
    words: Words<'_>,
) -> Result<(), AllocError> {
    match load(low_byte(words.first)) {
        Some(op) => write_value(text, memory.load(op, words.second, words.third)),
        None => text.push_str("no such load"),
    }
}

/// Stores a value: the opcode, the operand, the offset and the value.
fn stored(memory: &mut LinearMemory, words: Words<'_>) -> &'static str {
    match store(low_byte(words.first)) {
        Some(op) => done(memory.store(op, words.second, words.third, words.value)),
        None => "no such store",
    }
}

/// Sets one byte by a reference to all: where, and which.
fn set(memory: &mut LinearMemory, words: Words<'_>) -> &'static str {
    let at = words.first as usize;
    let bytes = memory.bytes_mut();
    if at < bytes.len() {
        bytes[at] = low_byte(words.second);
        "ok"
    } else {
        "out of bounds"
    }
}

/// Does what a line says that changes bytes, and answers what comes of it. A copy has the places to which and from which it
/// copies, and how many bytes; a fill a place, a byte, and how many.
fn changed(memory: &mut LinearMemory, name: &str, words: Words<'_>) -> &'static str {
    match name {
        "store" => stored(memory, words),
        "copy" => done(memory.copy(words.first, words.second, words.third)),
        "fill" => done(memory.fill(words.first, low_byte(words.second), words.third)),
        "set" => set(memory, words),
        _ => "no such step",
    }
}

/// Writes the first of bytes.
fn write_first(text: &mut String, bytes: &[u8], count: usize) -> Result<(), AllocError> {
    for byte in bytes.get(..count).unwrap_or(bytes) {
        write!(text, "{byte:02x}")?;
    }
    Ok(())
}

/// Writes so many bytes from a place on.
fn write_bytes(
    text: &mut String,
    memory: &LinearMemory,
    words: Words<'_>,
) -> Result<(), AllocError> {
    match memory.bytes().split_at_checked(words.first as usize) {
        Some((_front, rest)) => write_first(text, rest, words.second as usize),
        None => text.push_str("no such place"),
    }
}

/// Writes how many pages a memory had that is grown.
fn write_grown(text: &mut String, grown: Result<Option<u32>, Memory>) -> Result<(), AllocError> {
    match grown {
        Ok(Some(before)) => write!(text, "{before:x}"),
        Ok(None) => text.push_str("too many"),
        Err(Memory) => text.push_str("want of memory"),
    }
}

/// Does what a line says, and writes what comes of it.
fn write_step(
    text: &mut String,
    memory: &mut LinearMemory,
    name: &str,
    words: Words<'_>,
) -> Result<(), AllocError> {
    match name {
        "pages" => write_value(text, Some(u64::from(memory.pages()))),
        "grow" => write_grown(text, memory.grow(words.first)),
        "load" => write_loaded(text, memory, words),
        "bytes" => write_bytes(text, memory, words),
        _ => text.push_str(changed(memory, name, words)),
    }
}

/// Writes bytes from a place on, and writes what comes of it.
fn write_into(
    alloc: Global,
    text: &mut String,
    memory: &mut LinearMemory,
    words: Words<'_>,
) -> Result<(), Fail> {
    let bytes = bytes_of_lines(alloc, words.bytes)?;
    text.push_str(done(memory.write(words.first, &bytes)))?;
    Ok(())
}

/// The maximum of a text, where `-` stands for none.
fn max_of(text: &str) -> Option<u32> {
    if text == "-" { None } else { Some(hex32(text)) }
}

/// The memory of so many pages and of a maximum.
fn memory_of(alloc: Global, pages: u32, max: Option<u32>) -> Result<LinearMemory, Fail> {
    if pages > MOST_PAGES.min(max.unwrap_or(MOST_PAGES)) {
        return Err(Fail::new("more pages than it may have"));
    }
    Ok(LinearMemory::new(alloc, pages, max)?)
}

/// A memory that lines change.
#[derive(Drop)]
pub(crate) struct Paged {
    memory: LinearMemory,
}

impl Steps for Paged {
    fn begin(alloc: Global, title: &str) -> Result<Paged, Fail> {
        let (pages, max) = split(title);
        let memory = memory_of(alloc, hex32(pages), max_of(max))?;
        Ok(Paged { memory })
    }

    fn step(&mut self, alloc: Global, line: &str, text: &mut String) -> Result<(), Fail> {
        let (name, rest) = split(line);
        let words = words_of(rest);
        if name == "write" {
            return write_into(alloc, text, &mut self.memory, words);
        }
        write_step(text, &mut self.memory, name, words)?;
        Ok(())
    }
}
