//! Aliases: of what an instance exports, and of what stands in a component instance further out.

ghost use Rattle.std.specs.Prelude.{◌≡◌, ◌<◌, ◌∷◌, List, length, OnOk};
ghost use Rattle.std.specs.List.{slice_get};
ghost use Rattle.comp_tree.specs.declared.instances.AliasTarget.TheVariants as target;
ghost use Rattle.link_spec.specs.Definitions.{Exports};
ghost use Rattle.link_spec.specs.Spaces.{Spaces, Linking, outer_at};
ghost use Rattle.link_spec.specs.Computed.{alias_outcome};
ghost use Rattle.link_instances.specs.References as references;
ghost use Rattle.link_meanings.specs.Meant.{IsFoundAs};
ghost use Rattle.link_parts.specs.Told.{IsTold};
ghost use Rattle.link_state.specs.State.{world_of, IsAt, IsMade, ended};

use comp_tree::{Alias, AliasTarget, Sort};
use faults::MemoryOr;
use link_core_exports::missing;
use link_instances::DefinitionRef;
use link_parts::ItemError;
use link_spec::LinkWhy;
use link_state::{Linker, link_core_alias};
use std::alloc::Global;
use syntax_trees::Name;

/// Links an alias of an export of an instance.
fn link_export_alias<'a>(
    alloc: Global,
    linker: &mut Linker<'a>,
    n: usize,
    sort: Sort,
    instance: u32,
    name: &'a Name,
) -> Result<(), ItemError>
    requires { n < length linker.old.scopes.items }
    ensures made { (bases : List Exports) (l : Linking) (s : Spaces) → IsAt bases linker.old n l s → IsTold (λ _ outcome. IsMade linker.new outcome) result (alias_outcome l n s sort (target.InstanceExport instance name.now)) }
    ensures scopes { OnOk result (length linker.new.scopes.items ≡ length linker.old.scopes.items) }
    ensures live { OnOk result (ended linker.new ≡ ended linker.old) }
{
    let number = linker.name(name)?;
    let Some(instance) = linker.scope(n).instance(instance) else {
        return Err(MemoryOr::Fault(LinkWhy::Index));
    };
    let Some(definition) = linker
        .instances
        .export_named(&linker.types, instance, number)
    else {
        return Err(missing(alloc, name.as_str()));
    };
    if !definition.is_of(sort) {
        return Err(MemoryOr::Fault(LinkWhy::Typing));
    }
    linker.add(n, definition)?;
    Ok(())
}

/// The number of the component instance that stands so many levels further out than one, of those around it.
fn level(n: usize, around: &[usize], up: u32) -> Option<usize>
    ensures { result ≡ slice_get (n ∷ around.now) up }
{
    if up == 0 {
        return Some(n);
    }
    around.get(up as usize - 1).copied()
}

/// The definition that an outer alias names.
fn outer(linker: &Linker<'_>, n: usize, sort: Sort, up: u32, index: u32) -> Option<DefinitionRef>
    requires { n < length linker.now.scopes.items }
    ensures { (bases : List Exports) (l : Linking) (s : Spaces) → IsAt bases linker.now n l s → IsFoundAs (references.Stands linker.now.types (world_of bases linker.now)) result (outer_at l (n ∷ s.around) sort up index) }
{
    let around = linker.scope(n).around.get().as_slice();
    let level = level(n, around, up)?;
    let scope = linker.scope_at(level)?;
    scope.outer_definition(sort, index)
}

/// Links an alias of a definition further out.
fn link_outer(
    linker: &mut Linker<'_>,
    n: usize,
    sort: Sort,
    up: u32,
    index: u32,
) -> Result<(), ItemError>
    requires { n < length linker.old.scopes.items }
    ensures made { (bases : List Exports) (l : Linking) (s : Spaces) → IsAt bases linker.old n l s → IsTold (λ _ outcome. IsMade linker.new outcome) result (alias_outcome l n s sort (target.Outer up index)) }
    ensures scopes { OnOk result (length linker.new.scopes.items ≡ length linker.old.scopes.items) }
    ensures live { OnOk result (ended linker.new ≡ ended linker.old) }
{
    let Some(definition) = outer(linker, n, sort, up, index) else {
        return Err(MemoryOr::Fault(LinkWhy::Index));
    };
    linker.add(n, definition)?;
    Ok(())
}

/// Links an alias.
pub fn link_alias<'a>(
    alloc: Global,
    linker: &mut Linker<'a>,
    n: usize,
    alias: &'a Alias,
) -> Result<(), ItemError>
    requires { n < length linker.old.scopes.items }
    ensures made { (bases : List Exports) (l : Linking) (s : Spaces) → IsAt bases linker.old n l s → IsTold (λ _ outcome. IsMade linker.new outcome) result (alias_outcome l n s alias.now.sort alias.now.target) }
    ensures scopes { OnOk result (length linker.new.scopes.items ≡ length linker.old.scopes.items) }
    ensures live { OnOk result (ended linker.new ≡ ended linker.old) }
{
    let sort = alias.sort;
    match &alias.target {
        AliasTarget::InstanceExport { instance, name } => {
            link_export_alias(alloc, linker, n, sort, *instance, name)?
        }
        AliasTarget::CoreInstanceExport { instance, name } => {
            link_core_alias(alloc, linker, n, sort, *instance, name)?
        }
        AliasTarget::Outer { up, index } => link_outer(linker, n, sort, *up, *index)?,
    }
    Ok(())
}
