//! Numbers in words, and answers in texts.

use res_handles::Refusal;
use std::alloc::AllocError;
use std::fmt::Write;

/// The number of a text, 0 where it has none.
pub fn number(text: &str) -> u32 {
    text.parse::<u32>().unwrap_or(0)
}

/// The two numbers of a text with a comma between them.
pub fn pair(text: &str) -> (u32, u32) {
    let (first, second) = text.split_once(',').unwrap_or((text, ""));
    (number(first), number(second))
}

/// A list of numbers with commas between them.
pub fn list(alloc: std::alloc::Global, text: &str) -> Result<Vec<u32>, AllocError> {
    let mut numbers = Vec::new(alloc);
    for part in text.split(',') {
        if let Ok(number) = part.parse::<u32>() {
            numbers.push(number)?;
        }
    }
    Ok(numbers)
}

/// A truth value as cases write it.
pub fn yes_or_no(answer: bool) -> &'static str {
    if answer { "yes" } else { "no" }
}

/// A refusal as cases write it.
pub fn refused(why: Refusal) -> &'static str {
    match why {
        Refusal::Absent => "Absent",
        Refusal::OtherKind => "OtherKind",
        Refusal::OtherType => "OtherType",
        Refusal::NotOwn => "NotOwn",
        Refusal::Lent => "Lent",
        Refusal::NotIdle => "NotIdle",
    }
}

/// Writes a number.
pub fn write_number(text: &mut String, number: u64) -> Result<(), AllocError> {
    write!(text, "{number}")
}

/// Writes a number, where there is one.
pub fn write_some(text: &mut String, number: Option<u32>) -> Result<(), AllocError> {
    match number {
        Some(number) => write_number(text, u64::from(number)),
        None => text.push_str("none"),
    }
}

/// Writes numbers with commas between them, and none as a line.
pub fn write_list(text: &mut String, numbers: &[u32]) -> Result<(), AllocError> {
    if numbers.is_empty() {
        text.push('-')?;
    }
    for (place, number) in numbers.iter().enumerate() {
        if place > 0 {
            text.push(',')?;
        }
        write_number(text, u64::from(*number))?;
    }
    Ok(())
}
