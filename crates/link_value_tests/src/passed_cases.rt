//! The types of what functions pass.

use crate::labelling::func_type;
use cases::{Answers, check_lines};
use comp_graph::{FuncTypes, PassedTypes};
use link_types::Types;
use std::alloc::{AllocError, Global};
use std::test::Fail;

/// A line the types of the parameters and of the result: the size and the alignment of the type of the arguments, and of the type of
/// the result.
const PASSED: &str = "
- : - = 0 1
u32 : u64 = 4 4 : 8 8
string u64 : pair = 16 8 : 8 4
u64 u32 : string = 16 8 : 8 4
u32 u64 u32 : - = 24 8
pair u32 words : words = 20 4 : 8 4
";

/// What is told of the types of what a function passes.
fn told(alloc: Global, passed: &PassedTypes<'_>) -> Result<String, AllocError> {
    let params = &passed.params;
    let text = format!(in alloc; "{} {}", params.size(), params.align())?;
    match &passed.returned {
        Some(returned) => { format!(in alloc; "{text} : {} {}", returned.size(), returned.align()) }
        None => Ok(text),
    }
}

/// The same of the function type of a number.
fn passed(alloc: Global, types: &FuncTypes, number: usize) -> Result<String, Fail> {
    if number >= types.len() {
        return Err(Fail::new("no function type"));
    }
    Ok(told(alloc, &types.passed(number))?)
}

/// Function types.
struct Sizes;

impl Answers for Sizes {
    fn answer(alloc: Global, given: &str) -> Result<String, Fail> {
        let mut types = Types::new(alloc);
        let made = func_type(alloc, &mut types, given)?;
        passed(alloc, &types.into_func_types(), made.number())
    }
}

#[test]
fn passed_types_are_laid_out(rt: HostRuntime) -> Result<(), Fail> {
    check_lines::<Sizes>(rt.alloc(), PASSED, " = ", 6)
}
