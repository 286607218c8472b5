//! Items whose kind a value tells, as a section's items by its id, or the code of a function of this type.

ghost use Rattle.ca_base.specs.Grammar.{MayRead, times};
ghost use Rattle.ca_base.specs.Items.{each, sized, vec};

use crate::reason::{NumberReason, Reason};
use crate::refusal::ReadError;
use crate::window::Window;
use std::alloc::Global;
use syntax_trees::Seq;

/// A kind of items, as a value tells it.
pub trait KindOf {
    ghost use Rattle.ca_base.specs.Grammar.{Grammar};

    /// Why bytes are refused.
    type Why: NumberReason;

    /// The items.
    type Item: Drop;

    /// The grammar of the items.
    ghost grammar: { Self → Grammar Self.Why Self.Item };

    /// Reads an item, or answers where its grammar refuses the bytes, and why. `Memory` is want of memory.
    fn read(
        &self,
        alloc: Global,
        window: &mut Window<Self::Why>,
    ) -> Result<Self::Item, ReadError<Self::Why>>
        ensures { MayRead (λ x. x) (grammar self.now) window.old window.new result };
}

/// Reads so many items, one after the other.
#[tactic(auto, using(crate::proofs::Times::times_none, crate::proofs::Times::times_ok, crate::proofs::Times::times_err))]
pub fn read_times_of<K: KindOf>(
    alloc: Global,
    kind: &K,
    count: u32,
    window: &mut Window<K::Why>,
) -> Result<Seq<K::Item>, ReadError<K::Why>>
    ensures { MayRead (λ xs. xs) (times count (K.grammar kind.now)) window.old window.new result }
{
    let mut items = Seq::new(alloc);
    for _index in 0..count {
        let read = kind.read(alloc, window)?;
        items.push(read)?;
    }
    Ok(items)
}

/// Reads a vector (Core 2.0, section 5.1.3): how many items, and the items.
pub fn read_vec_of<K: KindOf>(
    alloc: Global,
    kind: &K,
    window: &mut Window<K::Why>,
) -> Result<Seq<K::Item>, ReadError<K::Why>>
    ensures { MayRead (λ xs. xs) (vec K.Why.numbers (K.grammar kind.now)) window.old window.new result }
{
    let count = window.u32()?;
    read_times_of(alloc, kind, count, window)
}

/// Reads an item of each kind of a list, one after the other.
#[tactic(auto, using(crate::proofs::Eachs::each_none, crate::proofs::Eachs::each_ok, crate::proofs::Eachs::each_err, crate::proofs::Times::none_before))]
pub fn read_each<K: KindOf>(
    alloc: Global,
    kinds: &[K],
    window: &mut Window<K::Why>,
) -> Result<Seq<K::Item>, ReadError<K::Why>>
    ensures { MayRead (λ xs. xs) (each K.grammar kinds.now) window.old window.new result }
{
    let mut items = Seq::new(alloc);
    for kind in kinds {
        let read = kind.read(alloc, window)?;
        items.push(read)?;
    }
    Ok(items)
}

/// Reads an item behind its size, which it fills.
pub fn read_sized_of<K: KindOf>(
    alloc: Global,
    kind: &K,
    window: &mut Window<K::Why>,
) -> Result<K::Item, ReadError<K::Why>>
where
    K::Why: Reason,
    ensures { MayRead (λ x. x) (sized K.Why.numbers K.Why.reasons (K.grammar kind.now)) window.old window.new result }
{
    let mut inner = window.open()?;
    let read = kind.read(alloc, &mut inner)?;
    inner.finish()?;
    Ok(read)
}
