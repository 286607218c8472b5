//! The texts of values.

use std::alloc::Global;
use std::test::Fail;
use type_texts::{type_of, value_of, value_told};

/// The text of the value of a line, or `misfit`.
pub(crate) fn text_answer(alloc: Global, given: &str) -> Result<String, Fail> {
    let (val_type, value) = given.split_once(" | ").ok_or("no value")?;
    let val_type = type_of(alloc, val_type)?;
    let value = value_of(alloc, value)?;
    value_told(alloc, &value, val_type.get())
}
