//! The answers to lines.

use crate::arguments::arguments_answer;
use crate::functions::{core_answer, holder_answer};
use crate::kinds::What;
use crate::limits::{bytes_answer, length_answer};
use crate::reading::read_answer;
use crate::script_cases::script_answer;
use crate::script_limits::{blank_answer, calls_answer, long_answer, often_answer};
use crate::types::type_answer;
use crate::values::text_answer;
use std::alloc::Global;
use std::test::Fail;

/// What is told of a line.
pub(crate) fn answer(alloc: Global, what: What, given: &str) -> Result<String, Fail> {
    match what {
        What::Type | What::Layout | What::Held => type_answer(alloc, what, given),
        What::Function => core_answer(alloc, given),
        What::Text => text_answer(alloc, given),
        What::Read => read_answer(alloc, given),
        What::Arguments => arguments_answer(alloc, given),
        What::Holder => holder_answer(alloc, given),
        What::Length => length_answer(alloc, given),
        What::Bytes => bytes_answer(alloc, given),
        What::Script => script_answer(alloc, given),
        What::Blank => blank_answer(alloc, given),
        What::Calls => calls_answer(alloc, given),
        What::Often => often_answer(alloc, given),
        What::LongArgument => long_answer(alloc, given),
    }
}
