//! Linking of aliases of exports of core instances.

ghost use Rattle.std.specs.Prelude.{◌≡◌, ◌<◌, List, OnOk, length};
ghost use Rattle.comp_tree.specs.declared.instances.AliasTarget.TheVariants as target;
ghost use Rattle.link_spec.specs.Definitions.{Exports};
ghost use Rattle.link_spec.specs.Spaces.{Spaces, Linking};
ghost use Rattle.link_spec.specs.Computed.{alias_outcome};
ghost use Rattle.link_parts.specs.Told.{IsTold};
ghost use Rattle.link_state.specs.State.{IsAt, IsMade, ended};

use crate::linker::Linker;
use comp_tree::Sort;
use link_core_exports::aliased;
use link_parts::ItemError;
use std::alloc::Global;
use syntax_trees::Name;

/// Links an alias of an export of a core instance.
pub fn link_core_alias(
    alloc: Global,
    linker: &mut Linker<'_>,
    n: usize,
    sort: Sort,
    instance: u32,
    name: &Name,
) -> Result<(), ItemError>
    requires { n < length linker.old.scopes.items }
    ensures made { (bases : List Exports) (l : Linking) (s : Spaces) → IsAt bases linker.old n l s → IsTold (λ _ outcome. IsMade linker.new outcome) result (alias_outcome l n s sort (target.CoreInstanceExport instance name.now)) }
    ensures scopes { OnOk result (length linker.new.scopes.items ≡ length linker.old.scopes.items) }
    ensures live { OnOk result (ended linker.new ≡ ended linker.old) }
{
    let instances = linker.scope(n).core_instances.as_slice();
    let item = aliased(alloc, instances, sort, instance, name)?;
    linker.add_core_item(n, item)?;
    Ok(())
}
