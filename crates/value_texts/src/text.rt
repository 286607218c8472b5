//! Texts of lists of items.

ghost use Rattle.std.specs.Prelude.{◌≡◌, ◌++◌, OnOk};
ghost use Rattle.std.specs.List.{flat_map};
ghost use Rattle.syntax_trees.specs.Texts.{separated};

use faults::Memory;
use std::alloc::Global;

/// A way to write items as text.
pub trait Text {
    ghost use Rattle.std.specs.Prelude.{ℕ, List};

    /// The items.
    type Item;

    /// The text of an item.
    ghost text: { Self.Item → List ℕ };

    /// Appends the text of an item. It fails for want of memory alone.
    fn push(alloc: Global, item: &Self::Item, to: &mut Vec<u8>) -> Result<(), Memory>
        ensures { OnOk result (to.new.items ≡ to.old.items ++ text item.now) };
}

/// Appends the texts of items, one after the other. It fails for want of memory alone.
pub fn push_all<T: Text>(alloc: Global, items: &[T::Item], to: &mut Vec<u8>) -> Result<(), Memory>
    ensures { OnOk result (to.new.items ≡ to.old.items ++ flat_map T.text items.now) }
{
    for item in items {
        T::push(alloc, item, to)?;
    }
    Ok(())
}

/// Appends the texts of items, with a text between them. It fails for want of memory alone.
pub fn push_separated<T: Text>(
    alloc: Global,
    between: &[u8],
    items: &[T::Item],
    to: &mut Vec<u8>,
) -> Result<(), Memory>
    ensures { OnOk result (to.new.items ≡ to.old.items ++ separated between.now T.text items.now) }
{
    let Some((first, others)) = items.split_first() else {
        return Ok(());
    };
    T::push(alloc, first, to)?;
    for item in others {
        to.extend_from_slice(between)?;
        T::push(alloc, item, to)?;
    }
    Ok(())
}
