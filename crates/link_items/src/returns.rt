//! Built-ins that return results.

ghost use Rattle.std.specs.Prelude.{◌≡◌, ◌&&◌, false, Option, IfOk};
ghost use Rattle.syntax_trees.specs.declared.types.ValType.{ValType};
ghost use Rattle.comp_graph.specs.Needs.{task_return_needs_memory};
ghost use Rattle.comp_graph.specs.Passed.{MayBeAt};
ghost use Rattle.link_spec.specs.Canons as canons;
ghost use Rattle.link_spec.specs.Builtins.{return_meaning};
ghost use Rattle.link_meanings.specs.Meant.{IsFoundAs};
ghost use Rattle.canon_types.specs.Built.{IsBuiltinMeaning};

use crate::used::can_be_used;
use canon_types::{BuiltinMeant, held_type, return_builtin, return_needs_memory, stand_once};
use comp_tree::CanonOption;
use laid_types::LaidType;
use link_core_exports::Given;
use link_types::Types;
use std::alloc::{AllocError, Global};

/// Whether what options give serves a built-in that returns a result of this type, where no option stands twice.
fn can_return(given: &Given<'_>, returned: &Option<LaidType<'_>>, once: bool) -> bool
    ensures { result ≡ (canons.can_be_used (task_return_needs_memory returned.now) false given.now && once) }
{
    can_be_used(given, return_needs_memory(returned), false) && once
}

/// What a built-in comes to that returns a result of the type of a number, where that is found, with what options give. It fails for want of
/// memory alone.
pub fn returning(
    alloc: Global,
    types: &Types<'_>,
    is_there: bool,
    passed: Option<Option<usize>>,
    options: &[CanonOption],
    given: &Given<'_>,
) -> Result<BuiltinMeant, AllocError>
    ensures { IfOk result (λ m. (found : Option (Option ValType)) → IsFoundAs (MayBeAt types.now.values) passed found → IsBuiltinMeaning types.now.values m (return_meaning is_there found options.now given.now)) }
{
    let once = stand_once(options);
    let Some(number) = passed else {
        return Ok(BuiltinMeant {
            is_there,
            means: None,
            serves: once,
        });
    };
    let returned = held_type(types, number);
    let serves = can_return(given, &returned, once);
    let made = return_builtin(alloc, number, &returned, given.options())?;
    Ok(BuiltinMeant {
        is_there,
        means: Some(made),
        serves,
    })
}
