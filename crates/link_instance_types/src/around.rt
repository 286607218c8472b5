//! What stands around a type, from the inside out.

ghost use Rattle.std.specs.Prelude.{◌≡◌, ◌∷◌, map, IfOk};
ghost use Rattle.std.specs.List.{slice_get};
ghost use Rattle.link_meanings.specs.declared.levels.Enclosing.TheVariants as enclosing;
ghost use Rattle.link_meanings.specs.Levels.{enclosed_types, types_in};

use link_meanings::{Enclosing, Level};
use std::alloc::{AllocError, Global};

/// What stands around the items of a component instance, seen from these levels. It fails for want of memory alone, as do the
/// other functions of this crate that fail.
pub(crate) fn all_enclosing<'b>(
    alloc: Global,
    levels: &[Level<'b>],
) -> Result<Vec<Enclosing<'b>>, AllocError>
    ensures { IfOk result (λ v. v.items ≡ map enclosing.Component levels.now) }
{
    let mut around = Vec::new(alloc);
    for level in levels {
        around.push(Enclosing::Component(*level))?;
    }
    Ok(around)
}

/// One level more inside the others.
pub(crate) fn within<'b>(
    alloc: Global,
    own: Enclosing<'b>,
    around: &[Enclosing<'b>],
) -> Result<Vec<Enclosing<'b>>, AllocError>
    ensures { IfOk result (λ v. v.items ≡ own.entry ∷ around.now) }
{
    let mut levels = Vec::new(alloc);
    levels.push(own)?;
    levels.extend_from_slice(around)?;
    Ok(levels)
}

/// The level so many levels out of the own one.
pub(crate) fn level_at<'b>(
    own: Enclosing<'b>,
    around: &[Enclosing<'b>],
    up: u32,
) -> Option<Enclosing<'b>>
    ensures { result ≡ slice_get (own.entry ∷ around.now) up }
{
    if up == 0 {
        return Some(own);
    }
    around.get(up as usize - 1).copied()
}

/// The level where a type stands: one with nothing in it where there is none.
pub(crate) fn innermost<'b>(around: &[Enclosing<'b>]) -> Enclosing<'b>
    ensures { enclosed_types result ≡ types_in around.now }
{
    match around.first().copied() {
        Some(level) => level,
        None => Enclosing::Instance {
            types: &[],
            components: &[],
        },
    }
}
