//! A line of each kind.

use crate::labels::{blocked, label_of, numbers_of};
use crate::telling::line_told;
use std::alloc::Global;
use std::test::Fail;

/// The line of the label of a word and numbers.
pub fn label_answer(alloc: Global, given: &str) -> Result<String, Fail> {
    let (kind, numbers) = given.split_once(' ').unwrap_or((given, ""));
    let numbers = numbers_of(alloc, numbers)?;
    let label = label_of(alloc, kind, &numbers)?;
    line_told(alloc, label)
}

/// The line of a task that blocks: why it does, and a number.
pub fn block_answer(alloc: Global, given: &str) -> Result<String, Fail> {
    let (kind, number) = given.split_once(' ').ok_or("no number")?;
    let label = blocked(kind, number.parse()?).ok_or("no reason")?;
    line_told(alloc, label)
}
