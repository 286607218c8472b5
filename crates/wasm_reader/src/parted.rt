//! Parts of a module with their places.

ghost use Rattle.std.specs.Prelude.{◌≡◌, IfOk, map};

use std::alloc::{AllocError, Global};
use syntax_trees::Seq;

/// A part of a module, and its places.
#[derive(Drop)]
pub(crate) struct Parted<T, P> {
    pub part: T,
    pub places: P,
}

/// The parts of a list, and the places of each: two lists of the same length. It fails for want of memory alone.
pub(crate) fn parts_and_places<T: Drop, P: Drop>(
    alloc: Global,
    whole: Seq<Parted<T, P>>,
) -> Result<(Seq<T>, Seq<P>), AllocError>
    ensures parts { IfOk result (λ r. r.0 ≡ map (λ p. p.part) whole) }
    ensures places { IfOk result (λ r. r.1 ≡ map (λ p. p.places) whole) }
{
    let mut parts = Seq::new(alloc);
    let mut places = Seq::new(alloc);
    for one in whole.into_vec() {
        parts.push(one.part)?;
        places.push(one.places)?;
    }
    Ok((parts, places))
}
