//! What scripts say.

use crate::escapes::bytes_of;
use crate::scripts::{Shown, outcome};
use std::alloc::Global;
use std::test::Fail;

/// A line an export: its name, its parameters, and behind `>` the type of its result where it is not u32. Two have one name.
const EXPORTS: &str = "add: a b
zero:
a#b: x
zero: x
größe: x
greet: name=string
close: file=own
listen: >stream";

/// What the script of a line says.
pub(crate) fn script_answer(alloc: Global, given: &str) -> Result<String, Fail> {
    let bytes = bytes_of(alloc, given)?;
    outcome(alloc, Shown::All, &bytes, EXPORTS)
}
