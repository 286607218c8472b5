//! What outer aliases see of component instances.

ghost use Rattle.std.specs.Prelude.{◌≡◌, ◌∷◌, ◌++◌, [], ℕ, List, OnOk, IfOk};
ghost use Rattle.std.specs.List.{AllZip};
ghost use Rattle.link_spec.specs.Spaces.{Linking, levels_at};
ghost use Rattle.link_types.specs.Table.{Table};
ghost use Rattle.link_instances.specs.References.{World};
ghost use Rattle.link_meanings.specs.Levels.{AreLevels};
ghost use Rattle.link_state.specs.State.{IsKept};

use crate::linker::item_numbered;
use crate::scope::Scope;
use link_meanings::Level;
use std::alloc::{AllocError, Global};

/// What outer aliases see of a component instance.
fn level_of<'b>(scope: &'b Scope<'_>) -> Level<'b>
    ensures types { result.types.now ≡ scope.now.types.items }
    ensures components { result.components.now ≡ scope.now.components.items }
{
    Level {
        types: &scope.types,
        components: &scope.components,
    }
}

/// Puts what outer aliases see of the component instance of a number behind the others, if it has begun. It fails for want of
/// memory alone, as does the other function here that fails.
fn push_level<'b>(
    levels: &mut Vec<Level<'b>>,
    scopes: &'b [Scope<'_>],
    number: usize,
) -> Result<(), AllocError>
    ensures { OnOk result ((t : Table) (w : World) (l : Linking) (numbers : List ℕ) → AllZip (IsKept t w) scopes.now l.scopes → AreLevels t w.components levels.old.items (levels_at l numbers) → AreLevels t w.components levels.new.items (levels_at l (numbers ++ number ∷ []))) }
{
    let Some(scope) = item_numbered(scopes, Some(number)) else {
        return Ok(());
    };
    levels.push(level_of(scope))?;
    Ok(())
}

/// What outer aliases see of a component instance and of those around it, from the inside out.
pub fn levels_at<'b>(
    alloc: Global,
    scopes: &'b [Scope<'_>],
    n: usize,
    around: &[usize],
) -> Result<Vec<Level<'b>>, AllocError>
    ensures { IfOk result (λ levels. (t : Table) (w : World) (l : Linking) → AllZip (IsKept t w) scopes.now l.scopes → AreLevels t w.components levels.items (levels_at l (n ∷ around.now))) }
{
    let mut levels = Vec::new(alloc);
    push_level(&mut levels, scopes, n)?;
    for number in around {
        push_level(&mut levels, scopes, *number)?;
    }
    Ok(levels)
}
