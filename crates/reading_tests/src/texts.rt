//! What is written behind texts.

use std::alloc::AllocError;
use std::fmt::{Debug, Write};

/// Writes a text, and a number behind it.
pub(crate) fn write_behind(text: &mut String, front: &str, number: u32) -> Result<(), AllocError> {
    text.push_str(front)?;
    write!(text, "{number}")
}

/// Writes a text, and a value behind it as its type tells it.
pub(crate) fn write_debug<T: Copy + Debug>(
    text: &mut String,
    front: &str,
    value: T,
) -> Result<(), AllocError> {
    text.push_str(front)?;
    write!(text, "{value:?}")
}
