//! What is read of modules, and the operations of a body.

use crate::telling::{operation, told};
use cases::{bytes_of, bytes_of_lines};
use std::alloc::Global;
use std::test::Fail;

/// What is told of the module of a paragraph: what it is, what is told and the place of its first byte, and its bytes.
pub(crate) fn reading_answer(alloc: Global, given: &str) -> Result<String, Fail> {
    let (_title, rest) = given.split_once('\n').ok_or("no base")?;
    let (head, lines) = rest.split_once('\n').ok_or("no bytes")?;
    let (kind, base) = head.split_once(" at ").ok_or("no base")?;
    let base: u16 = base.parse()?;
    let bytes = bytes_of_lines(alloc, lines)?;
    told(alloc, kind, &bytes, base)
}

/// A module of a function whose body has three operations.
const BODY: &str = "0061736d01000000 010401600000 03020100 0a07010500 2007 6a 0b";

/// The operation at the place of a line in the body.
pub(crate) fn operation_answer(alloc: Global, given: &str) -> Result<String, Fail> {
    let bytes = bytes_of(alloc, BODY)?;
    operation(alloc, &bytes, given.parse()?)
}
