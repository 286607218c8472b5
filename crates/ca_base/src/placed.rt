//! Items with their places.

ghost use Rattle.std.specs.Prelude.{◌≡◌, IfOk, map};
ghost use Rattle.ca_base.specs.Items.{joined};

use std::alloc::{AllocError, Global};
use syntax_trees::Seq;

/// An item, and where it stands.
#[derive(Clone, Copy, Debug, Drop)]
pub struct Placed<T> {
    /// The item.
    pub item: T,
    /// The place of its first byte, counted from the file's start.
    pub place: usize,
}

/// The items of a list, and the place of each: two lists of the same length. It fails for want of memory alone.
pub fn apart<T: Drop>(
    alloc: Global,
    placed: Seq<Placed<T>>,
) -> Result<(Seq<T>, Seq<usize>), AllocError>
    ensures items { IfOk result (λ r. r.0 ≡ map (λ p. p.item) placed) }
    ensures places { IfOk result (λ r. r.1 ≡ map (λ p. p.place) placed) }
{
    let mut items = Seq::new(alloc);
    let mut places = Seq::new(alloc);
    for one in placed.into_vec() {
        items.push(one.item)?;
        places.push(one.place)?;
    }
    Ok((items, places))
}

/// The items of several lists, one list after the other. It fails for want of memory alone.
pub fn join<T: Drop>(alloc: Global, parts: Seq<Seq<T>>) -> Result<Seq<T>, AllocError>
    ensures { IfOk result (λ items. items ≡ joined parts) }
{
    let mut items = Seq::new(alloc);
    for part in parts.into_vec() {
        items.append(part)?;
    }
    Ok(items)
}
