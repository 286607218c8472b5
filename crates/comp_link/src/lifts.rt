//! Linking of lifts.

ghost use Rattle.std.specs.Prelude.{◌≡◌, ◌<◌, List, OnOk, length};
ghost use Rattle.link_spec.specs.Definitions.{Exports};
ghost use Rattle.link_spec.specs.Spaces.{Spaces, Linking};
ghost use Rattle.link_spec.specs.Computed.{lifted_to, lifted_of, lift_outcome};
ghost use Rattle.link_instances.specs.References.{IsLifted};
ghost use Rattle.link_parts.specs.Told.{IsTold};
ghost use Rattle.link_state.specs.State.{IsAt, IsMade, ended};

use comp_tree::{CanonOption, CoreSort};
use faults::MemoryOr;
use link_instances::{DefinitionRef, LiftedRef};
use link_items::lifted_to;
use link_parts::ItemError;
use link_spec::LinkWhy;
use link_state::Linker;
use link_types::TypeRef;

/// The lift of the core function of an index, with options, to a function of the type of an index.
fn lifted(
    linker: &Linker<'_>,
    n: usize,
    core_func: u32,
    options: &[CanonOption],
    func_type: u32,
) -> Result<LiftedRef, ItemError>
    requires { n < length linker.now.scopes.items }
    ensures { (bases : List Exports) (l : Linking) (s : Spaces) → IsAt bases linker.now n l s → IsTold (IsLifted linker.now.types) result (lifted_of n s core_func options.now func_type) }
{
    let scope = linker.scope(n);
    let Some(item) = scope.core_item(CoreSort::Func, core_func) else {
        return Err(MemoryOr::Fault(LinkWhy::Index));
    };
    if !scope.are_there(options) {
        return Err(MemoryOr::Fault(LinkWhy::Index));
    }
    let Some(of_type) = scope.type_at(func_type) else {
        return Err(MemoryOr::Fault(LinkWhy::Index));
    };
    let TypeRef::Func(of_func) = of_type else {
        return Err(MemoryOr::Fault(LinkWhy::Typing));
    };
    let given = scope.given(options);
    lifted_to(&linker.types, n, &item, options, &given, of_func)
}

/// Links a lift.
pub fn link_lift(
    linker: &mut Linker<'_>,
    n: usize,
    core_func: u32,
    options: &[CanonOption],
    func_type: u32,
) -> Result<(), ItemError>
    requires { n < length linker.old.scopes.items }
    ensures made { (bases : List Exports) (l : Linking) (s : Spaces) → IsAt bases linker.old n l s → IsTold (λ _ outcome. IsMade linker.new outcome) result (lift_outcome l n s core_func options.now func_type) }
    ensures scopes { OnOk result (length linker.new.scopes.items ≡ length linker.old.scopes.items) }
    ensures live { OnOk result (ended linker.new ≡ ended linker.old) }
{
    let lifted = lifted(linker, n, core_func, options, func_type)?;
    linker.add(n, DefinitionRef::Func(lifted))?;
    Ok(())
}
