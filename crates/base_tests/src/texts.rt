//! Answers as texts, and the parts of a line.

use crate::why::Why;
use ca_base::{ReadError, Refusal};
use std::alloc::AllocError;
use std::fmt::{Debug, Write};
use std::str::from_utf8;
use syntax_trees::Seq;

/// A text up to a mark, and what stands behind it.
pub(crate) fn split<'a>(text: &'a str, mark: &str) -> (&'a str, &'a str) {
    text.split_once(mark).unwrap_or((text, ""))
}

/// The number of a text, which is 0 where it has none.
pub(crate) fn number(text: &str) -> u64 {
    text.parse::<u64>().unwrap_or(0)
}

/// The same of a number that is a byte.
pub(crate) fn byte(text: &str) -> u8 {
    text.parse::<u8>().unwrap_or(0)
}

/// The text of bytes.
pub(crate) fn text_of(bytes: &[u8]) -> &str {
    from_utf8(bytes).unwrap_or("no text")
}

/// Writes a value.
pub(crate) fn write_value<T: Debug + Drop>(text: &mut String, value: T) -> Result<(), AllocError> {
    write!(text, "{value:?}")
}

/// Writes the place and the reason.
pub(crate) fn write_refusal<W: Copy + Debug>(
    text: &mut String,
    refusal: Refusal<W>,
) -> Result<(), AllocError> {
    let Refusal { place, why } = refusal;
    write!(text, "{place} {why:?}")
}

/// Writes what was read, or the place and the reason.
pub(crate) fn write_read<T: Debug + Drop, W: Copy + Debug>(
    text: &mut String,
    read: Result<T, Refusal<W>>,
) -> Result<(), AllocError> {
    match read {
        Ok(item) => write_value(text, item),
        Err(refusal) => write_refusal(text, refusal),
    }
}

/// Writes the place and the reason.
pub(crate) fn write_error(text: &mut String, error: ReadError<Why>) -> Result<(), AllocError> {
    match error {
        ReadError::Memory => text.push_str("memory"),
        ReadError::Fault(refusal) => write_refusal(text, refusal),
    }
}

/// Writes the item that was read, or the place and the reason.
pub(crate) fn write_item<T: Debug + Drop>(
    text: &mut String,
    read: Result<T, ReadError<Why>>,
) -> Result<(), AllocError> {
    match read {
        Ok(item) => write_value(text, item),
        Err(error) => write_error(text, error),
    }
}

/// Writes items.
fn write_items<T: Debug + Drop>(text: &mut String, items: Seq<T>) -> Result<(), AllocError> {
    write!(text, "{:?}", items.as_slice())
}

/// Writes the items that were read, or the place and the reason.
pub(crate) fn write_list<T: Debug + Drop>(
    text: &mut String,
    read: Result<Seq<T>, ReadError<Why>>,
) -> Result<(), AllocError> {
    match read {
        Ok(items) => write_items(text, items),
        Err(error) => write_error(text, error),
    }
}

/// Writes the items of a section that may be absent, or the place and the reason.
pub(crate) fn write_section<T: Debug + Drop>(
    text: &mut String,
    read: Result<Option<Seq<T>>, ReadError<Why>>,
) -> Result<(), AllocError> {
    match read {
        Ok(Some(items)) => write_items(text, items),
        Ok(None) => text.push_str("none"),
        Err(error) => write_error(text, error),
    }
}
