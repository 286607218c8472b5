//! What is read of a text, written as traces write it.

use faults::Memory;
use std::alloc::Global;
use std::test::Fail;
use syntax_trees::{ValType, Value};
use type_texts::{type_of, value_told};
use value_reader::read_value;

/// The value of a type that a text stands for.
pub(crate) fn value_in(
    alloc: Global,
    text: &[u8],
    val_type: &ValType,
) -> Result<Option<Value>, Memory> {
    read_value(alloc, text, val_type)
}

/// A text without the angle brackets around it, and with a tab for each `~`.
pub(crate) fn unbracketed(alloc: Global, text: &str) -> Result<Vec<u8>, Fail> {
    let text = text.trim().strip_prefix('<').ok_or("no bracket")?;
    let text = text.strip_suffix('>').ok_or("no bracket")?;
    let mut bytes = Vec::new(alloc);
    for byte in text.as_bytes() {
        bytes.push(if *byte == b'~' { b'\t' } else { *byte })?;
    }
    Ok(bytes)
}

/// The text of a value that is let go then.
pub(crate) fn told(alloc: Global, value: Value, val_type: &ValType) -> Result<String, Fail> {
    value_told(alloc, &value, val_type)
}

/// What is read of a text, between angle brackets, or `none`.
fn read_back(alloc: Global, text: &[u8], val_type: &ValType) -> Result<String, Fail> {
    match value_in(alloc, text, val_type)? {
        Some(value) => told(alloc, value, val_type),
        None => Ok(String::from_str(alloc, "none")?),
    }
}

/// What is read of the text of a line.
pub(crate) fn read_answer(alloc: Global, given: &str) -> Result<String, Fail> {
    let (val_type, text) = given.split_once('|').ok_or("no text")?;
    let text = unbracketed(alloc, text)?;
    let val_type = type_of(alloc, val_type)?;
    read_back(alloc, &text, val_type.get())
}
