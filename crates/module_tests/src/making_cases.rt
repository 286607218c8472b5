//! Bytes that are made of what is read of bytes, and components of core modules.

use crate::making::{component, remade, valid_remade};
use cases::bytes_of;
use std::alloc::{AllocError, Global};
use std::test::Fail;

/// Whether bytes are made as they are wanted.
fn compared(alloc: Global, made: &[u8], wanted: &[u8]) -> Result<String, AllocError> {
    let answer = if made == wanted {
        "made"
    } else {
        "other bytes"
    };
    String::from_str(alloc, answer)
}

/// Whether what is read of a line is made as its bytes, or as those that stand behind them.
pub(crate) fn module_made(alloc: Global, given: &str) -> Result<String, Fail> {
    let (_title, given) = given.split_once(" | ").ok_or("no bytes")?;
    let (given, wanted) = given.split_once(" | ").unwrap_or((given, given));
    let given = bytes_of(alloc, given)?;
    let wanted = bytes_of(alloc, wanted)?;
    let made = remade(alloc, &given)?;
    Ok(compared(alloc, made.as_slice(), &wanted)?)
}

/// Whether the module of a paragraph is made as its bytes. It fails if it is not valid.
pub(crate) fn valid_made(alloc: Global, given: &str) -> Result<String, Fail> {
    let (_text, hex) = given.split_once("\nbytes\n").ok_or("no bytes")?;
    let bytes = bytes_of(alloc, hex)?;
    let made = valid_remade(alloc, &bytes)?;
    Ok(compared(alloc, made.as_slice(), &bytes)?)
}

/// Whether the component of the modules that stand in a line behind it is made as its bytes.
pub(crate) fn component_made(alloc: Global, given: &str) -> Result<String, Fail> {
    let (_title, rest) = given.split_once(" | ").ok_or("no bytes")?;
    let (wanted, modules) = rest.split_once('|').unwrap_or((rest, ""));
    let bytes = bytes_of(alloc, wanted)?;
    let made = component(alloc, modules)?;
    Ok(compared(alloc, made.as_slice(), &bytes)?)
}
