//! Long texts, and bytes that are no text.

use crate::reading::value_in;
use cases::bytes_of;
use faults::Memory;
use std::alloc::{AllocError, Global};
use std::test::Fail;
use syntax_trees::{ValType, Value};
use type_texts::type_of;

/// How many elements a list or bytes a text has.
fn length_of(value: &Value) -> Option<usize> {
    match value {
        Value::List(values) => Some(values.len()),
        Value::String(text) => Some(text.as_str().len()),
        _ => None,
    }
}

/// The length of a value that is let go then.
fn length_told(alloc: Global, value: Value) -> Result<String, Fail> {
    let length = length_of(&value).ok_or("no length")?;
    Ok(format!(in alloc; "{length}")?)
}

/// The length of what is read of a text.
fn length_read(alloc: Global, text: &[u8], val_type: &ValType) -> Result<String, Fail> {
    match value_in(alloc, text, val_type)? {
        Some(value) => length_told(alloc, value),
        None => Err(Fail::new("no value")),
    }
}

/// A text that repeats a part 20,000 times between two others.
fn repeated(alloc: Global, first: &str, part: &str, last: &str) -> Result<String, AllocError> {
    let mut text = String::from_str(alloc, first)?;
    for _ in 0..20_000 {
        text.push_str(part)?;
    }
    text.push_str(last)?;
    Ok(text)
}

/// The length of what is read of the long text of a line.
pub(crate) fn length_answer(alloc: Global, given: &str) -> Result<String, Fail> {
    let (val_type, parts) = given.split_once(';').ok_or("no text")?;
    let (first, parts) = parts.split_once(';').ok_or("one part")?;
    let (part, last) = parts.split_once(';').ok_or("two parts")?;
    let text = repeated(alloc, first, part, last)?;
    let val_type = type_of(alloc, val_type)?;
    length_read(alloc, text.as_bytes(), val_type.get())
}

/// Whether no value is read of bytes.
fn is_none(alloc: Global, text: &[u8], val_type: &ValType) -> Result<bool, Memory> {
    Ok(value_in(alloc, text, val_type)?.is_none())
}

/// Whether a text is read of the bytes of a line.
pub(crate) fn bytes_answer(alloc: Global, given: &str) -> Result<String, Fail> {
    let bytes = bytes_of(alloc, given)?;
    let val_type = type_of(alloc, "string")?;
    let none = is_none(alloc, &bytes, val_type.get())?;
    let word = if none { "none" } else { "a text" };
    Ok(String::from_str(alloc, word)?)
}
