//! The longest script, one with many calls, some that say a thing many times, and two with one long value.

use crate::escapes::bytes_of;
use crate::scripts::{Shown, outcome};
use cases::bytes_of_lines;
use std::alloc::{AllocError, Global};
use std::fmt::Write;
use std::test::Fail;

/// Makes a script of so many spaces, and of bytes behind them.
fn push_spaces(script: &mut Vec<u8>, count: usize, end: &[u8]) -> Result<(), AllocError> {
    script.resize(count, b' ')?;
    script.extend_from_slice(end)
}

/// A script of so many spaces, and of bytes behind them.
fn blanks(alloc: Global, count: usize, hex: &str) -> Result<Vec<u8>, Fail> {
    let end = bytes_of_lines(alloc, hex)?;
    let mut script = Vec::new(alloc);
    push_spaces(&mut script, count, &end)?;
    Ok(script)
}

/// The number of a text, which is 0 where it has none.
fn number(text: &str) -> usize {
    text.parse::<usize>().unwrap_or(0)
}

/// What becomes of a script of spaces.
pub(crate) fn blank_answer(alloc: Global, given: &str) -> Result<String, Fail> {
    let (count, hex) = given.split_once(' ').unwrap_or((given, ""));
    let script = blanks(alloc, number(count), hex)?;
    outcome(alloc, Shown::All, &script, "")
}

/// How many functions are exported where there are many calls. A script of these is read within the time of a run only where
/// a call is looked up without going through the exports.
const EXPORTS: usize = 1_000;

/// The text of many exports.
fn many_exports(alloc: Global) -> Result<String, AllocError> {
    let mut exports = String::new(alloc);
    for number in 0..EXPORTS {
        write!(exports, "export{number}:\n")?;
    }
    Ok(exports)
}

/// So many calls, of one export after the other, the last one first.
fn many_calls(alloc: Global, count: usize) -> Result<String, AllocError> {
    let mut script = String::new(alloc);
    for number in 0..count {
        let called = EXPORTS - 1 - number % EXPORTS;
        write!(script, "call export{called}()\n")?;
    }
    Ok(script)
}

/// How many calls are read of a script of so many, where there are many exports.
pub(crate) fn calls_answer(alloc: Global, given: &str) -> Result<String, Fail> {
    let script = many_calls(alloc, number(given))?;
    let exports = many_exports(alloc)?;
    outcome(alloc, Shown::Sizes, script.as_bytes(), exports.as_str())
}

/// Writes a text so many times.
fn push_times(text: &mut String, part: &str, times: usize) -> Result<(), AllocError> {
    for _ in 0..times {
        text.push_str(part)?;
    }
    Ok(())
}

/// A script of a front, and of a part that it has so many times.
fn said_often(alloc: Global, count: usize, first: &str, part: &str) -> Result<Vec<u8>, AllocError> {
    let mut script = bytes_of(alloc, first)?;
    let part = bytes_of(alloc, part)?;
    for _ in 0..count {
        script.extend_from_slice(part.as_slice())?;
    }
    Ok(script)
}

/// How many items and picks are read of a script that says a thing so many times.
pub(crate) fn often_answer(alloc: Global, given: &str) -> Result<String, Fail> {
    let (count, parts) = given.split_once(';').unwrap_or((given, ""));
    let (first, part) = parts.split_once(';').unwrap_or((parts, ""));
    let script = said_often(alloc, number(count), first, part)?;
    outcome(alloc, Shown::Sizes, &script, "zero:")
}

/// Writes the call of `sum` with a list of so many elements.
fn push_list(text: &mut String, count: usize) -> Result<(), AllocError> {
    text.push_str("call sum ([0")?;
    push_times(text, ", 1", count.saturating_sub(1))?;
    text.push_str("])")
}

/// Writes the call of `say` with a text of so many bytes.
fn push_text(text: &mut String, count: usize) -> Result<(), AllocError> {
    text.push_str("call say (\"")?;
    push_times(text, "x", count)?;
    text.push_str("\")")
}

/// Writes the call with one long value: a list or a text.
fn push_value(text: &mut String, kind: &str, count: usize) -> Result<(), AllocError> {
    match kind {
        "list" => push_list(text, count),
        _ => push_text(text, count),
    }
}

/// How long a value of a script of one call is read.
pub(crate) fn long_answer(alloc: Global, given: &str) -> Result<String, Fail> {
    let (kind, count) = given.split_once(' ').unwrap_or((given, ""));
    let mut script = String::new(alloc);
    push_value(&mut script, kind, number(count))?;
    outcome(
        alloc,
        Shown::Sizes,
        script.as_bytes(),
        "sum:a=numbers\nsay:a=string",
    )
}
