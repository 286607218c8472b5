//! The outcome of the reading of a script as text.

use crate::exports::exports_of;
use faults::MemoryOr;
use script_reader::{Call, Item, Script, ScriptFault, read_script};
use std::alloc::{AllocError, Global};
use std::fmt::Write;
use std::test::Fail;
use syntax_trees::{Exports, Value};

/// Writes a number.
fn write_number(text: &mut String, number: u32) -> Result<(), AllocError> {
    write!(text, "{number}")
}

/// Writes a text in angle brackets.
fn write_words(text: &mut String, words: &str) -> Result<(), AllocError> {
    write!(text, "<{words}>")
}

/// Writes a value: a number, or a text in angle brackets.
fn write_value(text: &mut String, value: &Value) -> Result<(), AllocError> {
    match value {
        Value::U32(number) => write_number(text, *number),
        Value::String(words) => write_words(text, words.as_str()),
        _ => text.push_str("another value"),
    }
}

/// Writes a value behind a text.
fn write_behind(text: &mut String, between: &str, value: &Value) -> Result<(), AllocError> {
    text.push_str(between)?;
    write_value(text, value)
}

/// Writes the values of a call, with commas between them.
fn write_values(text: &mut String, values: &[Value]) -> Result<(), AllocError> {
    let mut between = "";
    for value in values {
        write_behind(text, between, value)?;
        between = ", ";
    }
    Ok(())
}

/// Writes the name of a call.
fn write_name(text: &mut String, name: &str) -> Result<(), AllocError> {
    write!(text, "; {name} (")
}

/// Writes a call.
fn write_call(text: &mut String, call: &Call) -> Result<(), AllocError> {
    write_name(text, call.name.as_str())?;
    write_values(text, call.values.as_slice())?;
    text.push(')')
}

/// Writes an item of a script.
fn write_item(text: &mut String, item: &Item) -> Result<(), AllocError> {
    match item {
        Item::Call(call) => write_call(text, call),
        Item::Cancel(call) => write!(text, "; cancel {call}"),
    }
}

/// Writes what a script says.
fn write_script(text: &mut String, script: &Script) -> Result<(), AllocError> {
    write!(text, "fuel {}", script.fuel())?;
    for pick in script.picks() {
        write!(text, "; pick {pick}")?;
    }
    for item in script.items() {
        write_item(text, item)?;
    }
    Ok(())
}

/// How long the first argument of a call is: the elements of a list, the bytes of a text.
fn first_length(call: &Call) -> usize {
    match call.values.as_slice().first() {
        Some(Value::List(elements)) => elements.len(),
        Some(Value::String(text)) => text.as_str().len(),
        _ => 0,
    }
}

/// How long the first argument is, where a call is the first item.
fn length_at(items: &[Item]) -> usize {
    match items.first() {
        Some(Item::Call(call)) => first_length(call),
        Some(Item::Cancel(_)) | None => 0,
    }
}

/// Writes how many items and picks a script has, and how long the first argument of a first call is.
fn write_sizes(text: &mut String, script: &Script) -> Result<(), AllocError> {
    let items = script.items();
    let picks = script.picks().len();
    let length = length_at(items);
    write!(text, "{} items, {picks} picks, {length}", items.len())
}

/// What is told of a script.
#[derive(Clone, Copy)]
pub(crate) enum Shown {
    /// All that it says.
    All,
    /// How many items and picks it has, and how long the first argument of a first call is.
    Sizes,
}

/// Writes what is told of a script.
fn write_shown(text: &mut String, shown: Shown, script: &Script) -> Result<(), AllocError> {
    match shown {
        Shown::All => write_script(text, script),
        Shown::Sizes => write_sizes(text, script),
    }
}

/// The script of bytes, for a component with these exports.
fn script_of(
    alloc: Global,
    bytes: &[u8],
    exports: &Exports,
) -> Result<Script, MemoryOr<ScriptFault>> {
    read_script(alloc, bytes, exports)
}

/// Writes the line that is refused, and why.
fn write_fault(text: &mut String, fault: ScriptFault) -> Result<(), AllocError> {
    let ScriptFault { line, why } = fault;
    write!(text, "line {line}: {why:?}")
}

/// Writes what came of a script.
fn write_read(
    text: &mut String,
    shown: Shown,
    read: Result<Script, MemoryOr<ScriptFault>>,
) -> Result<(), AllocError> {
    match read {
        Ok(script) => write_shown(text, shown, &script),
        Err(MemoryOr::Memory) => text.push_str("memory"),
        Err(MemoryOr::Fault(fault)) => write_fault(text, fault),
    }
}

/// Writes what the reading of a script answers, for a component with the exports of a text.
fn write_outcome(
    alloc: Global,
    text: &mut String,
    shown: Shown,
    bytes: &[u8],
    exports: &str,
) -> Result<(), AllocError> {
    let exports = exports_of(alloc, exports)?;
    write_read(text, shown, script_of(alloc, bytes, &exports))
}

/// What the reading of a script answers, for a component with the exports of a text.
pub(crate) fn outcome(
    alloc: Global,
    shown: Shown,
    bytes: &[u8],
    exports: &str,
) -> Result<String, Fail> {
    let mut text = String::new(alloc);
    write_outcome(alloc, &mut text, shown, bytes, exports)?;
    Ok(text)
}
