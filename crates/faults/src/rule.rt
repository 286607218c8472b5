//! The first fault of a list of items.

ghost use Rattle.std.specs.Prelude.{[]};
ghost use Rattle.faults.specs.Faults.{first_in, MayFind};

use crate::memory::MemoryOr;
use std::alloc::Global;

/// A rule on the items of a list.
pub trait Rule {
    ghost use Rattle.std.specs.Prelude.{List, Option};

    /// The items.
    type Item;

    /// What breaks the rule.
    type Fault: Drop;

    /// The fault of an item behind those before it.
    ghost fault: { Self → List Self.Item → Self.Item → Option Self.Fault };

    /// Checks an item behind those before it. `Memory` is want of memory.
    fn check(
        &self,
        alloc: Global,
        before: &[Self::Item],
        item: &Self::Item,
    ) -> Result<(), MemoryOr<Self::Fault>>
        ensures { MayFind (fault self.now before.now item.now) result };
}

/// Looks for the first fault. `Memory` is want of memory.
pub fn check_all<R: Rule>(
    alloc: Global,
    rule: &R,
    items: &[R::Item],
) -> Result<(), MemoryOr<R::Fault>>
    ensures { MayFind (first_in (R.fault rule.now) [] items.now) result }
{
    for (index, item) in items.iter().enumerate() {
        rule.check(alloc, &items[..index], item)?;
    }
    Ok(())
}
