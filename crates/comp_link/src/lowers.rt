//! Linking of lowers.

ghost use Rattle.std.specs.Prelude.{◌≡◌, ◌<◌, List, OnOk, length};
ghost use Rattle.link_spec.specs.Definitions.{Exports};
ghost use Rattle.link_spec.specs.Spaces.{Spaces, Linking};
ghost use Rattle.link_spec.specs.Computed.{lowered_from, lower_outcome};
ghost use Rattle.link_parts.specs.Told.{IsTold};
ghost use Rattle.link_state.specs.State.{IsAt, IsMade, ended};
ghost use Rattle.comp_link.specs.Ready.{IsLowering};

use comp_graph::Options;
use comp_tree::CanonOption;
use faults::MemoryOr;
use link_instances::LiftedRef;
use link_items::lowered_from;
use link_parts::ItemError;
use link_spec::LinkWhy;
use link_state::Linker;
use std::alloc::Global;

/// The function of an index, and what options give its lowering.
fn lowered(
    linker: &Linker<'_>,
    n: usize,
    func: u32,
    options: &[CanonOption],
) -> Result<(LiftedRef, Options), ItemError>
    requires { n < length linker.now.scopes.items }
    ensures { (bases : List Exports) (l : Linking) (s : Spaces) → IsAt bases linker.now n l s → IsTold (IsLowering linker.now.types l n s) result (lower_outcome l n s func options.now) }
{
    let scope = linker.scope(n);
    let Some(lifted) = scope.func(func) else {
        return Err(MemoryOr::Fault(LinkWhy::Index));
    };
    if !scope.are_there(options) {
        return Err(MemoryOr::Fault(LinkWhy::Index));
    }
    let given = scope.given(options);
    let used = lowered_from(&linker.types, lifted.func_type, options, &given)?;
    Ok((lifted, used))
}

/// Links a lower.
pub fn link_lower(
    alloc: Global,
    linker: &mut Linker<'_>,
    n: usize,
    func: u32,
    options: &[CanonOption],
) -> Result<(), ItemError>
    requires { n < length linker.old.scopes.items }
    ensures made { (bases : List Exports) (l : Linking) (s : Spaces) → IsAt bases linker.old n l s → IsTold (λ _ outcome. IsMade linker.new outcome) result (lower_outcome l n s func options.now) }
    ensures scopes { OnOk result (length linker.new.scopes.items ≡ length linker.old.scopes.items) }
    ensures live { OnOk result (ended linker.new ≡ ended linker.old) }
{
    let (lifted, used) = lowered(linker, n, func, options)?;
    linker.add_lower(alloc, n, lifted, used)?;
    Ok(())
}
