//! What outer aliases name.

ghost use Rattle.std.specs.Prelude.{◌≡◌, List, Option, IfOk};
ghost use Rattle.link_spec.specs.Definitions.{Closure};
ghost use Rattle.link_spec.specs.Spaces as spaces;
ghost use Rattle.link_spec.specs.Types as types_read;
ghost use Rattle.link_types.specs.Table.{Table, IsType, Grows};
ghost use Rattle.link_meanings.specs.Meant.{IsFoundAs, IsMeaning};
ghost use Rattle.link_meanings.specs.Levels.{IsClosure, IsEnclosing};

use link_meanings::{Enclosing, moved_type};
use link_types::{Change, Meant, TypeRef, Types};
use std::alloc::{AllocError, Global};

/// The type of an index of a level, as it is seen from so many levels further in. It fails for want of memory alone.
pub(crate) fn outer_type<'a>(
    alloc: Global,
    types: &mut Types<'_>,
    level: Option<Enclosing<'_>>,
    up: usize,
    index: u32,
) -> Result<Meant<'a, TypeRef>, AllocError>
    ensures ok { IfOk result (λ m. (closures : List Closure) (l : Option spaces.Level) → IsFoundAs (IsEnclosing types.old closures) level.entry l → IsMeaning (IsType types.new) m (types_read.outer_type up index l)) }
    ensures grows { Grows types.old types.new }
{
    let Some(level) = level else {
        return Ok(Meant::absent());
    };
    match level.type_at(index) {
        None => Ok(Meant::absent()),
        Some(None) => Ok(Meant::there(None)),
        Some(Some(closed)) => {
            let moved = moved_type(alloc, types, closed, Change::FurtherIn(up))?;
            Ok(Meant::there(Some(moved)))
        }
    }
}

/// The component of an index of a level.
pub(crate) fn outer_component<'a>(level: Option<Enclosing<'_>>, index: u32) -> Meant<'a, usize>
    ensures { (t : Table) (closures : List Closure) (l : Option spaces.Level) → IsFoundAs (IsEnclosing t closures) level.entry l → IsMeaning (IsClosure closures) result (types_read.outer_component index l) }
{
    let Some(level) = level else {
        return Meant::absent();
    };
    match level.component_at(index) {
        Some(means) => Meant::there(means),
        None => Meant::absent(),
    }
}
