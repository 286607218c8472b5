//! Rules on the items of a section.

ghost use Rattle.std.specs.Prelude.{◌≡◌, []};
ghost use Rattle.faults.specs.Faults.{first_in, MayFind};

use crate::fault::Fault;
use crate::space::Space;
use faults::{MemoryOr, Rule, check_all};
use std::alloc::Global;
use std::marker::PhantomData;

/// An item of a module with a rule on it, bodies of functions left out (Core 2.0, section 3.4).
pub trait Checked {
    ghost use Rattle.std.specs.Prelude.{List, Option};
    ghost use Rattle.syntax_trees.specs.declared.module.ModuleTree.{ModuleTree};
    ghost use Rattle.wasm_typing.specs.declared.fault.Fault.{Fault};

    /// The fault of an item of a module, behind those before it in its section.
    ghost fault: { ModuleTree → List Self → Self → Option Fault };

    /// The item's fault, behind those before it in its section.
    fn fault_in(&self, space: &Space, before: &[Self]) -> Option<Fault>
        ensures { result ≡ fault space.now before.now self.now };
}

/// The rule on items of a type, in a module.
#[derive(Drop)]
struct ItemRule<'a, T> {
    space: &'a Space<'a>,
    items: PhantomData<T>,
}

impl<'a, T: Checked> Rule for ItemRule<'a, T> {
    type Item = T;

    type Fault = Fault;

    ghost fault = { λ rule. T.Checked.fault rule.space.now };

    fn check(&self, _alloc: Global, before: &[T], item: &T) -> Result<(), MemoryOr<Fault>> {
        match item.fault_in(self.space, before) {
            None => Ok(()),
            Some(fault) => Err(MemoryOr::Fault(fault)),
        }
    }
}

/// Looks for the first fault of a section's items. `Memory` is want of memory.
pub fn check_each<T: Checked>(
    alloc: Global,
    space: &Space,
    items: &[T],
) -> Result<(), MemoryOr<Fault>>
    ensures { MayFind (first_in (T.fault space.now) [] items.now) result }
{
    let rule = ItemRule {
        space,
        items: PhantomData,
    };
    check_all(alloc, &rule, items)
}
