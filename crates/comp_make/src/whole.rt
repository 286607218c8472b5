//! The bytes of a whole module.

ghost use Rattle.std.specs.Prelude.{◌≡◌, ◌++◌, OnOk, IfOk};
ghost use Rattle.comp_make.specs.Module.{module_bytes};

use crate::sections::{push_contents, push_declarations, push_definitions, push_uses};
use faults::Memory;
use std::alloc::Global;
use syntax_trees::{Bytes, ModuleTree, Seq};
use value_texts::Text;

/// The preamble of a module: its magic number and its version.
const PREAMBLE: [u8; 8] = [0x00, 0x61, 0x73, 0x6D, 0x01, 0x00, 0x00, 0x00];

/// Modules.
pub(crate) struct Modules;

impl Text for Modules {
    ghost use Rattle.comp_make.specs.Module.{module_bytes};

    type Item = ModuleTree;

    ghost text = { module_bytes };

    fn push(alloc: Global, item: &ModuleTree, to: &mut Vec<u8>) -> Result<(), Memory> {
        to.extend_from_slice(&PREAMBLE)?;
        push_declarations(alloc, item, to)?;
        push_definitions(alloc, item, to)?;
        push_uses(alloc, item, to)?;
        push_contents(alloc, item, to)
    }
}

/// The bytes of a core module (Core 2.0, section 5.5.16): its sections in order, each left out where it would be empty, and
/// each number in as few bytes as it needs. It fails for want of memory alone.
///
/// They are the bytes of that tree whatever it holds, whether it is valid or not. A count or a size of 2^32 or more, which
/// no module has, is written in full too.
pub fn module_bytes(alloc: Global, tree: &ModuleTree) -> Result<Bytes, Memory>
    ensures { IfOk result (λ bytes. bytes ≡ module_bytes tree.now) }
{
    let mut bytes = Vec::new(alloc);
    Modules::push(alloc, tree, &mut bytes)?;
    Ok(Seq::from_vec(bytes))
}
