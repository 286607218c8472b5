//! Types of core functions as texts.

use std::alloc::{AllocError, Global};
use syntax_trees::module_types::{FuncType, ValType};

/// The letter of a type of values.
fn letter(val_type: ValType) -> char {
    match val_type {
        ValType::I32 => 'i',
        ValType::I64 => 'l',
    }
}

/// Puts the letters of types of values behind a text.
fn push_letters(text: &mut String, val_types: &[ValType]) -> Result<(), AllocError> {
    for val_type in val_types {
        text.push(letter(*val_type))?;
    }
    Ok(())
}

/// The text of a function type: a letter for each parameter, a colon, and a letter for each result. Other types have other texts.
/// It fails for want of memory alone.
pub(crate) fn text_of(alloc: Global, func_type: &FuncType) -> Result<String, AllocError> {
    let mut text = String::new(alloc);
    push_letters(&mut text, func_type.params.as_slice())?;
    text.push(':')?;
    push_letters(&mut text, func_type.results.as_slice())?;
    Ok(text)
}
