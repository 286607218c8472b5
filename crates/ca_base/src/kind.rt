//! Items that are read by their kind.
//!
//! A kind of items is a marker type with a grammar and a reader of one item. The loops over items stand here once, and
//! the kinds that are made of other kinds: vectors, items with their places, items behind their size.

ghost use Rattle.ca_base.specs.Grammar.{MayRead, times};
ghost use Rattle.ca_base.specs.Items.{vec, placed, section, sized, to_the_end};

use crate::placed::Placed;
use crate::reason::{NumberReason, Reason};
use crate::refusal::ReadError;
use crate::window::Window;
use std::alloc::Global;
use std::marker::PhantomData;
use syntax_trees::Seq;

/// A kind of items.
pub trait Kind {
    ghost use Rattle.ca_base.specs.Grammar.{Grammar};

    /// Why bytes are refused.
    type Why: NumberReason;

    /// The items.
    type Item: Drop;

    /// The grammar of the items.
    ghost grammar: { Grammar Self.Why Self.Item };

    /// Reads an item, or answers where its grammar refuses the bytes, and why. `Memory` is want of memory.
    fn read(
        alloc: Global,
        window: &mut Window<Self::Why>,
    ) -> Result<Self::Item, ReadError<Self::Why>>
        ensures { MayRead (λ x. x) grammar window.old window.new result };
}

/// Reads so many items, one after the other.
#[tactic(auto, using(crate::proofs::Times::times_none, crate::proofs::Times::times_ok, crate::proofs::Times::times_err))]
pub fn read_times<K: Kind>(
    alloc: Global,
    count: u32,
    window: &mut Window<K::Why>,
) -> Result<Seq<K::Item>, ReadError<K::Why>>
    ensures { MayRead (λ xs. xs) (times count K.grammar) window.old window.new result }
{
    let mut items = Seq::new(alloc);
    for _index in 0..count {
        let read = K::read(alloc, window)?;
        items.push(read)?;
    }
    Ok(items)
}

/// Reads a vector (Core 2.0, section 5.1.3): how many items, and the items.
pub fn read_vec<K: Kind>(
    alloc: Global,
    window: &mut Window<K::Why>,
) -> Result<Seq<K::Item>, ReadError<K::Why>>
    ensures { MayRead (λ xs. xs) (vec K.Why.numbers K.grammar) window.old window.new result }
{
    let count = window.u32()?;
    read_times::<K>(alloc, count, window)
}

/// Reads an item, and tells its place.
#[tactic(auto, unfolding(crate::specs::Items::placed))]
pub fn read_placed<K: Kind>(
    alloc: Global,
    window: &mut Window<K::Why>,
) -> Result<Placed<K::Item>, ReadError<K::Why>>
    ensures { MayRead (λ p. p) (placed K.grammar) window.old window.new result }
{
    let place = window.at();
    let item = K::read(alloc, window)?;
    Ok(Placed { item, place })
}

/// Reads items up to the window's end, each of at least one byte.
#[tactic(auto, using(crate::proofs::Many::many_none, crate::proofs::Many::many_ends, crate::proofs::Many::many_ok, crate::proofs::Many::many_err))]
pub fn read_to_the_end<K: Kind>(
    alloc: Global,
    window: &mut Window<K::Why>,
) -> Result<Seq<K::Item>, ReadError<K::Why>>
    ensures { MayRead (λ xs. xs) (to_the_end K.grammar) window.old window.new result }
{
    let mut items = Seq::new(alloc);
    let count = window.left();
    for _index in 0..count {
        if window.is_empty() {
            return Ok(items);
        }
        let read = K::read(alloc, window)?;
        items.push(read)?;
    }
    Ok(items)
}

/// Reads an item behind its size, which it fills.
pub fn read_sized<K: Kind>(
    alloc: Global,
    window: &mut Window<K::Why>,
) -> Result<K::Item, ReadError<K::Why>>
where
    K::Why: Reason,
    ensures { MayRead (λ x. x) (sized K.Why.numbers K.Why.reasons K.grammar) window.old window.new result }
{
    let mut inner = window.open()?;
    let read = K::read(alloc, &mut inner)?;
    inner.finish()?;
    Ok(read)
}

/// Reads the section of an id (Core 2.0, section 5.5.2), where it comes next.
pub fn read_section<K: Kind>(
    alloc: Global,
    id: u8,
    window: &mut Window<K::Why>,
) -> Result<Option<K::Item>, ReadError<K::Why>>
where
    K::Why: Reason,
    ensures { MayRead (λ found. found) (section K.Why.numbers K.Why.reasons id K.grammar) window.old window.new result }
{
    if window.next() != Some(id) {
        return Ok(None);
    }
    window.byte()?;
    let read = read_sized::<K>(alloc, window)?;
    Ok(Some(read))
}

/// Vectors of items of a kind.
pub struct VecOf<K> {
    kind: PhantomData<K>,
}

impl<K: Kind> Kind for VecOf<K> {
    ghost use Rattle.ca_base.specs.Items.{vec};

    type Why = K::Why;

    type Item = Seq<K::Item>;

    ghost grammar = { vec K.Why.numbers K.grammar };

    fn read(alloc: Global, window: &mut Window<K::Why>) -> Result<Seq<K::Item>, ReadError<K::Why>> {
        read_vec::<K>(alloc, window)
    }
}

/// Items of a kind, each with its place.
pub struct PlacedOf<K> {
    kind: PhantomData<K>,
}

impl<K: Kind> Kind for PlacedOf<K> {
    ghost use Rattle.ca_base.specs.Items.{placed};

    type Why = K::Why;

    type Item = Placed<K::Item>;

    ghost grammar = { placed K.grammar };

    fn read(
        alloc: Global,
        window: &mut Window<K::Why>,
    ) -> Result<Placed<K::Item>, ReadError<K::Why>> {
        read_placed::<K>(alloc, window)
    }
}

/// Items of a kind, each behind its size.
pub struct SizedOf<K> {
    kind: PhantomData<K>,
}

impl<K: Kind> Kind for SizedOf<K>
where
    K::Why: Reason,
{
    ghost use Rattle.ca_base.specs.Items.{sized};

    type Why = K::Why;

    type Item = K::Item;

    ghost grammar = { sized K.Why.numbers K.Why.reasons K.grammar };

    fn read(alloc: Global, window: &mut Window<K::Why>) -> Result<K::Item, ReadError<K::Why>> {
        read_sized::<K>(alloc, window)
    }
}
