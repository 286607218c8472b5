//! What is told of the module of bytes.

use crate::items::{items_text, op_text, sizes_text};
use module_reading::{checked, read_at};
use std::alloc::{AllocError, Global};
use std::test::Fail;
use wasm_typing::{Module, Valid};

/// What is shown of a module: its `items`, or its `sizes`.
fn shown(alloc: Global, kind: &str, read: &Module) -> Result<String, Fail> {
    match kind {
        "items" => Ok(items_text(alloc, read.tree(), read.places())?),
        "sizes" => Ok(sizes_text(alloc, read.tree())?),
        _ => Err(Fail::new("another kind")),
    }
}

/// What is shown of a module that is let go then.
fn read_text(alloc: Global, kind: &str, read: Module) -> Result<String, Fail> {
    shown(alloc, kind, &read)
}

/// The items of a module in its parts.
fn parts_text(alloc: Global, read: Module) -> Result<String, AllocError> {
    let parts = read.into_parts();
    items_text(alloc, &parts.tree, &parts.places)
}

/// How much a valid module has.
fn valid_sizes(alloc: Global, valid: Valid) -> Result<String, AllocError> {
    sizes_text(alloc, valid.tree())
}

/// How much a module has that is found to be valid.
fn valid_text(alloc: Global, read: Module) -> Result<String, Fail> {
    let valid = checked(alloc, read)?;
    Ok(valid_sizes(alloc, valid)?)
}

/// What is told of the module of bytes, of which the first one stands at a place: its `items`, or its `sizes`, which is how
/// much it has; its items in its `parts`; or how much it has where it is `valid`.
pub(crate) fn told(alloc: Global, kind: &str, bytes: &[u8], base: u16) -> Result<String, Fail> {
    let read = read_at(alloc, bytes, base)?;
    match kind {
        "parts" => Ok(parts_text(alloc, read)?),
        "valid" => valid_text(alloc, read),
        _ => read_text(alloc, kind, read),
    }
}

/// The operation at a place of the first function's body, if there is one, and how many the body has.
fn op_of(alloc: Global, read: Module, at: usize) -> Result<String, AllocError> {
    op_text(alloc, read.tree().funcs.as_slice(), at)
}

/// The same of the module of bytes.
pub(crate) fn operation(alloc: Global, bytes: &[u8], at: usize) -> Result<String, Fail> {
    let read = read_at(alloc, bytes, 0)?;
    Ok(op_of(alloc, read, at)?)
}
