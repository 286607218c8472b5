//! The texts of types and values.

use ca_types::fits;
use std::alloc::Global;
use std::str::from_utf8;
use std::test::Fail;
use syntax_trees::{ValType, Value};
use value_texts::{type_text, value_text};

/// Bytes as text. It fails if they are none, or if a line feed is among them.
pub fn text_of(alloc: Global, bytes: &[u8]) -> Result<String, Fail> {
    if bytes.contains(&b'\n') {
        return Err(Fail::new("a line feed"));
    }
    Ok(String::from_str(alloc, from_utf8(bytes)?)?)
}

/// The text of a type.
pub fn type_told(alloc: Global, val_type: &ValType) -> Result<String, Fail> {
    let text = type_text(alloc, val_type)?;
    text_of(alloc, text.as_slice())
}

/// The text of a value in angle brackets, or `misfit` if it is not of this type.
pub fn value_told(alloc: Global, value: &Value, val_type: &ValType) -> Result<String, Fail> {
    if !fits(value, val_type) {
        return Ok(String::from_str(alloc, "misfit")?);
    }
    let text = value_text(alloc, value, val_type)?;
    let text = text_of(alloc, text.as_slice())?;
    Ok(format!(in alloc; "<{text}>")?)
}
