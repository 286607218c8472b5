//! Whether a module is valid (Core 2.0, section 3).

ghost use Rattle.std.specs.Prelude.{◌≡◌, IfOk, IfErr, Some};
ghost use Rattle.faults.specs.Faults.{IfFault, MayFind};
ghost use Rattle.wasm_typing.specs.Finding.{first_fault, untyped};
ghost use Rattle.wasm_typing.specs.Modules.{Typed};
ghost use Rattle.wasm_typing.specs.Untyped.{Untyped};

use crate::codes::CodeRule;
use faults::{MemoryOr, check_all};
use std::alloc::Global;
use syntax_trees::ModuleTree;
use wasm_typing::{
    Fault, Module, ModuleParts, Space, Valid, ValidFault, check_each, check_exports, check_start,
    told,
};

/// Looks for the first fault of a module, section by section.
fn check_items(alloc: Global, space: &Space) -> Result<(), MemoryOr<Fault>>
    ensures { MayFind (first_fault space.now) result }
{
    let tree = space.tree();
    check_each(alloc, space, tree.imports.as_slice())?;
    check_each(alloc, space, tree.funcs.as_slice())?;
    check_each(alloc, space, tree.tables.as_slice())?;
    check_each(alloc, space, tree.memories.as_slice())?;
    check_each(alloc, space, tree.globals.as_slice())?;
    check_exports(alloc, space, tree.exports.as_slice())?;
    check_start(space, tree.start)?;
    check_each(alloc, space, tree.element_segments.as_slice())?;
    check_all(alloc, &CodeRule { space }, tree.funcs.as_slice())?;
    check_each(alloc, space, tree.data_segments.as_slice())?;
    Ok(())
}

/// Looks for the first fault of a module, over its index spaces.
fn check_module(alloc: Global, tree: &ModuleTree) -> Result<(), MemoryOr<Fault>>
    ensures { MayFind (first_fault tree.now) result }
{
    let space = Space::of(alloc, tree)?;
    check_items(alloc, &space)
}

/// The module as a valid one, or its first fault. `Memory` is want of memory, or a first fault in the body of a function
/// whose number is 2^32 or more.
pub fn validate(alloc: Global, read: Module) -> Result<Valid, MemoryOr<ValidFault>>
    // The valid module is the tree, which is typed.
    ensures valid { IfOk result (λ v. v ≡ read.tree) }
    ensures typed { IfOk result (λ _. Typed read.tree) }
    // The fault is the first one, with its place.
    ensures exact { MayFind (untyped read.tree read.places) result }
    ensures fault { IfErr result (λ e. IfFault e (λ f. Untyped read.tree read.places f.func f.place f.why)) }
    // A typed module has none.
    ensures ill { IfErr result (λ e. IfFault e (λ _. Typed read.tree → ⊥)) }
{
    let ModuleParts { tree, places } = read.into_parts();
    match check_module(alloc, &tree) {
        Ok(()) => {
            drop(places);
            Ok(Valid::from_typed(tree))
        }
        Err(MemoryOr::Memory) => {
            drop(ModuleParts { tree, places });
            Err(MemoryOr::Memory)
        }
        Err(MemoryOr::Fault(fault)) => {
            let found = told(&places, fault);
            drop(ModuleParts { tree, places });
            Err(found)
        }
    }
}
