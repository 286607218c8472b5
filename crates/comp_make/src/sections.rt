//! The sections of a module in bytes (Core 2.0, section 5.5), in groups as they follow each other.

ghost use Rattle.std.specs.Prelude.{◌≡◌, ◌++◌, OnOk};
ghost use Rattle.comp_make.specs.Module.{declarations, definitions, start_section, uses, contents};

use crate::code::Codes;
use crate::items::{DataSegments, DeclaredFuncs, Elements, Exports, Globals, Imports};
use crate::lists::{SizedOf, push_items, push_section};
use crate::numbers::Indices;
use crate::types::{FuncTypes, Memories, Tables};
use faults::Memory;
use std::alloc::Global;
use syntax_trees::ModuleTree;

/// Appends types, imports, and functions as they are declared.
#[tactic(auto, unfolding(crate::specs::Module::declarations))]
pub(crate) fn push_declarations(
    alloc: Global,
    tree: &ModuleTree,
    to: &mut Vec<u8>,
) -> Result<(), Memory>
    ensures { OnOk result (to.new.items ≡ to.old.items ++ declarations tree.now) }
{
    push_items::<FuncTypes>(alloc, 1, &tree.types, to)?;
    push_items::<Imports>(alloc, 2, &tree.imports, to)?;
    push_items::<DeclaredFuncs>(alloc, 3, &tree.funcs, to)
}

/// Appends tables, memories and globals.
#[tactic(auto, unfolding(crate::specs::Module::definitions))]
pub(crate) fn push_definitions(
    alloc: Global,
    tree: &ModuleTree,
    to: &mut Vec<u8>,
) -> Result<(), Memory>
    ensures { OnOk result (to.new.items ≡ to.old.items ++ definitions tree.now) }
{
    push_items::<Tables>(alloc, 4, &tree.tables, to)?;
    push_items::<Memories>(alloc, 5, &tree.memories, to)?;
    push_items::<Globals>(alloc, 6, &tree.globals, to)
}

/// Appends the section of the function that runs first, where there is one.
fn push_start(alloc: Global, start: Option<u32>, to: &mut Vec<u8>) -> Result<(), Memory>
    ensures { OnOk result (to.new.items ≡ to.old.items ++ start_section start) }
{
    match start {
        None => Ok(()),
        Some(index) => push_section::<Indices>(alloc, 8, &index, to),
    }
}

/// Appends exports, the function that runs first, and segments of functions.
#[tactic(auto, unfolding(crate::specs::Module::uses))]
pub(crate) fn push_uses(alloc: Global, tree: &ModuleTree, to: &mut Vec<u8>) -> Result<(), Memory>
    ensures { OnOk result (to.new.items ≡ to.old.items ++ uses tree.now) }
{
    push_items::<Exports>(alloc, 7, &tree.exports, to)?;
    push_start(alloc, tree.start, to)?;
    push_items::<Elements>(alloc, 9, &tree.element_segments, to)
}

/// Appends code, and segments of bytes.
#[tactic(auto, unfolding(crate::specs::Module::contents))]
pub(crate) fn push_contents(
    alloc: Global,
    tree: &ModuleTree,
    to: &mut Vec<u8>,
) -> Result<(), Memory>
    ensures { OnOk result (to.new.items ≡ to.old.items ++ contents tree.now) }
{
    push_items::<SizedOf<Codes>>(alloc, 10, &tree.funcs, to)?;
    push_items::<DataSegments>(alloc, 11, &tree.data_segments, to)
}
