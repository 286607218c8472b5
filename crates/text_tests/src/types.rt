//! What is told of types.

use crate::kinds::What;
use ca_types::{flatten, has_end};
use laid_types::{align, size};
use std::alloc::{AllocError, Global};
use std::fmt::Write;
use std::test::Fail;
use syntax_trees::{CoreType, ValType};
use type_texts::{type_of, type_told};
use value_reader::has_host_type;

/// Writes a type's size and alignment.
fn write_layout(text: &mut String, val_type: &ValType) -> Result<(), AllocError> {
    let size = size(val_type);
    let align = align(val_type);
    write!(text, "{size} {align}")
}

/// Writes core types, each behind a space.
pub(crate) fn write_core(text: &mut String, types: &[CoreType]) -> Result<(), AllocError> {
    for core_type in types {
        match core_type {
            CoreType::I32 => text.push_str(" i32")?,
            CoreType::I64 => text.push_str(" i64")?,
        }
    }
    Ok(())
}

/// Writes a type's core types.
fn write_flat(alloc: Global, text: &mut String, val_type: &ValType) -> Result<(), Fail> {
    let flat = flatten(alloc, val_type)?;
    Ok(write_core(text, flat.as_slice())?)
}

/// A truth value.
pub(crate) fn word(truth: bool) -> &'static str {
    if truth { "yes" } else { "no" }
}

/// Writes a type's size, alignment, core types, whether it holds an end, and its text.
fn write_all(alloc: Global, text: &mut String, val_type: &ValType) -> Result<(), Fail> {
    write_layout(text, val_type)?;
    text.push_str(" |")?;
    write_flat(alloc, text, val_type)?;
    let end = word(has_end(val_type));
    let name = type_told(alloc, val_type)?;
    Ok(write!(text, " | {end} | {name}")?)
}

/// Writes what is told of a type.
fn write_told(
    alloc: Global,
    text: &mut String,
    what: What,
    val_type: &ValType,
) -> Result<(), Fail> {
    match what {
        What::Layout => Ok(write_layout(text, val_type)?),
        What::Held => Ok(text.push_str(word(has_host_type(val_type)))?),
        _ => write_all(alloc, text, val_type),
    }
}

/// What is told of the type of a line.
pub(crate) fn type_answer(alloc: Global, what: What, given: &str) -> Result<String, Fail> {
    let mut text = String::new(alloc);
    let val_type = type_of(alloc, given)?;
    write_told(alloc, &mut text, what, val_type.get())?;
    Ok(text)
}
