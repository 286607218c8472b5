//! The answers to cases.

use crate::fate_cases::{body_answer, file_answer, module_answer};
use crate::kinds::What;
use crate::making_cases::{component_made, module_made, valid_made};
use crate::reading_cases::{operation_answer, reading_answer};
use std::alloc::Global;
use std::test::Fail;

/// What is told of a case.
pub(crate) fn answer(alloc: Global, what: What, given: &str) -> Result<String, Fail> {
    match what {
        What::Body => body_answer(alloc, given),
        What::Module => module_answer(alloc, given),
        What::File => file_answer(alloc, given),
        What::Reading => reading_answer(alloc, given),
        What::Operation => operation_answer(alloc, given),
        What::Made => module_made(alloc, given),
        What::Text => valid_made(alloc, given),
        What::Component => component_made(alloc, given),
    }
}
