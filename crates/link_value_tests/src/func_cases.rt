//! What lifts ask of function types.

use crate::labelling::func_type;
use cases::{Answers, check_lines};
use link_types::{LaidFunc, Types};
use std::alloc::Global;
use std::test::Fail;
use syntax_trees::CoreType;

/// A line the types of the parameters and of the result: the first 17 core types of each, and `list` where it holds a string or a
/// list. A pair is a tuple of two u32.
const FUNCS: &str = "
- : - = :
u32 : u64 = i32 : i64
string u64 : pair = i32 i32 i64 list : i32 i32
u64 u32 : string = i64 i32 : i32 i32 list
pair words : words = i32 i32 i32 i32 list : i32 i32 list
u32 u32 u32 u32 u32 u32 u32 u32 u32 u32 u32 u32 u32 u32 u32 u32 : - = i32 i32 i32 i32 i32 i32 i32 i32 i32 i32 i32 i32 i32 i32 i32 i32 :
u32 u32 u32 u32 u32 u32 u32 u32 u32 u32 u32 u32 u32 u32 u32 u32 u64 : - = i32 i32 i32 i32 i32 i32 i32 i32 i32 i32 i32 i32 i32 i32 i32 i32 i64 :
u64 pair pair pair pair pair pair pair pair string : - = i64 i32 i32 i32 i32 i32 i32 i32 i32 i32 i32 i32 i32 i32 i32 i32 i32 list :
";

/// Writes core types, and whether there is a list.
fn told(text: &mut String, types: &[CoreType], list: bool) -> Result<(), Fail> {
    for core_type in types {
        match core_type {
            CoreType::I32 => text.push_str(" i32")?,
            CoreType::I64 => text.push_str(" i64")?,
        }
    }
    if list {
        text.push_str(" list")?;
    }
    Ok(())
}

/// What is kept of a function type.
fn kept(alloc: Global, laid: &LaidFunc) -> Result<String, Fail> {
    let mut text = String::new(alloc);
    told(&mut text, laid.params.as_slice(), laid.params_hold_list)?;
    text.push_str(" :")?;
    told(&mut text, laid.returned.as_slice(), laid.result_holds_list)?;
    Ok(text)
}

/// Function types.
struct Funcs;

impl Answers for Funcs {
    fn answer(alloc: Global, given: &str) -> Result<String, Fail> {
        let mut types = Types::new(alloc);
        let made = func_type(alloc, &mut types, given)?;
        match types.laid_func(made) {
            Some(laid) => kept(alloc, laid),
            None => Err(Fail::new("no function type")),
        }
    }
}

#[test]
fn first_core_types_and_lists_are_told(rt: HostRuntime) -> Result<(), Fail> {
    check_lines::<Funcs>(rt.alloc(), FUNCS, " =", 8)
}
