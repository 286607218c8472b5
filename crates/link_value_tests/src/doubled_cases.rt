//! Types that share parts: tuples of the same type twice, so that each has twice as many parts as the one before it.

use crate::putting::put;
use cases::{Answers, check_lines};
use laid_types::ValTypeLayer;
use link_values::ValueTypes;
use std::alloc::Global;
use std::test::Fail;

/// A line how often the type of bytes is doubled, twice over: the number, how many types there are then, and what is kept of it.
const DOUBLED: &str = "
0 = 0 of 1, size 1, depth 1
3 = 3 of 4, size 8, depth 4
31 = 31 of 32, size 2147483648, depth 32
32 = 32 of 33, size 4294967296, depth 33
200 = 200 of 201, size 18446744073709551616, depth 33
";

/// Numbers the type of bytes, doubled so often.
fn doubled(alloc: Global, types: &mut ValueTypes<'_>, times: u32) -> Result<usize, Fail> {
    let mut part = put(alloc, types, &ValTypeLayer::U8)?;
    for _ in 0..times {
        part = put(alloc, types, &ValTypeLayer::Tuple(&[part, part]))?;
    }
    Ok(part)
}

/// What is told of a number.
fn told(alloc: Global, types: &ValueTypes<'_>, number: usize) -> Result<String, Fail> {
    let Some(val_type) = types.get(number) else {
        return Err(Fail::new("no type"));
    };
    let count = types.len();
    let size = val_type.size();
    let depth = val_type.depth();
    Ok(format!(in alloc; "{number} of {count}, size {size}, depth {depth}")?)
}

/// Doubled types.
struct DoubledTypes;

impl Answers for DoubledTypes {
    fn answer(alloc: Global, given: &str) -> Result<String, Fail> {
        let times = given.parse::<u32>()?;
        let mut types = ValueTypes::new(alloc);
        let first = doubled(alloc, &mut types, times)?;
        let second = doubled(alloc, &mut types, times)?;
        if first != second {
            return Err(Fail::new("two numbers"));
        }
        told(alloc, &types, second)
    }
}

#[test]
fn doubled_types_are_numbered_at_once(rt: HostRuntime) -> Result<(), Fail> {
    check_lines::<DoubledTypes>(rt.alloc(), DOUBLED, " = ", 5)
}
