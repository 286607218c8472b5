//! Numbers and values in texts.

use std::alloc::{AllocError, Global};
use std::fmt::{Debug, Write};

/// Writes a value.
pub fn write_value<T: Debug + Drop>(text: &mut String, value: T) -> Result<(), AllocError> {
    write!(text, "{value:?}")
}

/// Writes a text, and a number behind it.
pub fn write_behind(text: &mut String, front: &str, number: u32) -> Result<(), AllocError> {
    text.push_str(front)?;
    write_value(text, number)
}

/// The numbers of a text, with a comma between them.
pub fn numbers_of(alloc: Global, text: &str) -> Result<Vec<u32>, AllocError> {
    let mut numbers = Vec::new(alloc);
    for part in text.split(',') {
        if let Ok(number) = part.parse::<u32>() {
            numbers.push(number)?;
        }
    }
    Ok(numbers)
}

/// A number, which is 0 where the text has none.
pub fn number_of(text: &str) -> u32 {
    text.parse::<u32>().unwrap_or(0)
}

/// Writes numbers with a comma between them, and none as a line.
pub fn write_numbers(text: &mut String, numbers: &[u32]) -> Result<(), AllocError> {
    if numbers.is_empty() {
        text.push('-')?;
    }
    for (place, number) in numbers.iter().enumerate() {
        if place > 0 {
            text.push(',')?;
        }
        write!(text, "{number}")?;
    }
    Ok(())
}
