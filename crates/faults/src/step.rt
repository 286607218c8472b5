//! A state that goes over the items of a list, and may keep references to them.

ghost use Rattle.faults.specs.Faults.{folded, MayStep};

use crate::memory::MemoryOr;
use std::alloc::Global;

/// A state.
pub trait Step<'a> {
    ghost use Rattle.std.specs.Prelude.{Result};

    /// The items.
    type Item;

    /// What is wrong with an item.
    type Fault: Drop;

    /// The state behind an item, or what is wrong with it.
    ghost stepped: { Self → Self.Item → Result Self Self.Fault };

    /// Goes over an item. `Memory` is want of memory.
    fn step(&mut self, alloc: Global, item: &'a Self::Item) -> Result<(), MemoryOr<Self::Fault>>
        ensures { MayStep (stepped self.old item.now) self.new result };
}

/// Goes over items, up to the first that is wrong. `Memory` is want of memory.
pub fn step_all<'a, S: Step<'a>>(
    alloc: Global,
    state: &mut S,
    items: &'a [S::Item],
) -> Result<(), MemoryOr<S::Fault>>
    ensures { MayStep (folded S.stepped state.old items.now) state.new result }
{
    for item in items {
        state.step(alloc, item)?;
    }
    Ok(())
}
