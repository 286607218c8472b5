//! The calls of a script.

ghost use Rattle.std.specs.Prelude.{◌≡◌, IfOk};
ghost use Rattle.program_maker.specs.Programs.{call_numbers};

use ca_base::{by_name, find};
use programs::CallNumbers;
use script_reader::Item;
use std::alloc::{AllocError, Global};
use syntax_trees::Export;

/// The calls among these items, in order, each of the first export of its name.
pub(crate) fn calls_of(
    alloc: Global,
    exports: &[Export],
    items: &[Item],
) -> Result<Vec<CallNumbers>, AllocError>
    ensures { IfOk result (λ calls. calls.items ≡ call_numbers exports.now 0 items.now) }
{
    let numbers = by_name(alloc, exports)?;
    let mut calls = Vec::new(alloc);
    for item in 0..items.len() {
        if let Item::Call(call) = &items[item] {
            if let Some(export) = find(&numbers, call.name.as_str()) {
                calls.push(CallNumbers { item, export })?;
            }
        }
    }
    Ok(calls)
}
