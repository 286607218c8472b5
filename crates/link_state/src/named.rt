//! Definitions under names: the arguments of a component, and the exports of an instance.

ghost use Rattle.std.specs.Prelude.{◌≡◌, ◌<◌, List, nat_lt, length};
ghost use Rattle.std.specs.List.{list_all};
ghost use Rattle.link_spec.specs.declared.fault.LinkWhy.TheVariants as why;
ghost use Rattle.link_spec.specs.Definitions.{Exports, WithExport};
ghost use Rattle.link_spec.specs.Spaces.{Spaces, Linking, size_of, definition_at};
ghost use Rattle.link_spec.specs.Computed as computed;
ghost use Rattle.link_spec.specs.Computed.{exports_behind, there_or};
ghost use Rattle.link_spec.specs.Definitions.{EmptyInstance};
ghost use Rattle.link_types.specs.Table.{Table};
ghost use Rattle.link_instances.specs.References.{World, IsListing};
ghost use Rattle.link_parts.specs.Told.{IsTold};
ghost use Rattle.link_state.specs.State.{world_of, IsScope, IsAt};

use crate::linker::Linker;
use crate::scope::Scope;
use ca_base::are_distinct;
use comp_tree::NamedDefinition;
use faults::MemoryOr;
use link_instances::DefinitionRef;
use link_parts::ItemError;
use link_spec::LinkWhy;
use link_types::Listing;
use std::alloc::Global;

/// Whether the definition of each index is there.
fn are_there(scope: &Scope<'_>, read: &[NamedDefinition]) -> bool
    ensures { (t : Table) (w : World) (s : Spaces) → IsScope t w scope.now s → result ≡ list_all (λ d. nat_lt d.index (size_of s d.sort)) read.now }
{
    for definition in read {
        if (definition.index as usize) >= scope.size(definition.sort) {
            return false;
        }
    }
    true
}

/// Puts a definition under its name behind others.
fn add_named<'a>(
    linker: &mut Linker<'a>,
    n: usize,
    read: &'a NamedDefinition,
    listing: &mut Listing<DefinitionRef>,
) -> Result<(), ItemError>
    requires { n < length linker.old.scopes.items }
    ensures named { (bases : List Exports) (l : Linking) (s : Spaces) (before : Exports) → IsAt bases linker.old n l s → IsListing linker.old.types (world_of bases linker.old) listing.old before → IsTold (λ _ d. IsListing linker.new.types (world_of bases linker.new) listing.new (WithExport before read.now.name d)) result (there_or why.Typing (definition_at s read.now.sort read.now.index)) }
    ensures at { (bases : List Exports) (l : Linking) (s : Spaces) → IsAt bases linker.old n l s → IsAt bases linker.new n l s }
    ensures scopes { linker.new.scopes ≡ linker.old.scopes }
{
    let number = linker.name(&read.name)?;
    let Some(definition) = linker.scope(n).definition(read.sort, read.index) else {
        return Err(MemoryOr::Fault(LinkWhy::Typing));
    };
    listing.push(number, definition)?;
    Ok(())
}

/// Definitions under their names, in order.
fn all_named<'a>(
    alloc: Global,
    linker: &mut Linker<'a>,
    n: usize,
    read: &'a [NamedDefinition],
) -> Result<Listing<DefinitionRef>, ItemError>
    requires { n < length linker.old.scopes.items }
    ensures named { (bases : List Exports) (l : Linking) (s : Spaces) → IsAt bases linker.old n l s → IsTold (λ listing exports. IsListing linker.new.types (world_of bases linker.new) listing exports) result (exports_behind s EmptyInstance read.now) }
    ensures at { (bases : List Exports) (l : Linking) (s : Spaces) → IsAt bases linker.old n l s → IsAt bases linker.new n l s }
    ensures scopes { linker.new.scopes ≡ linker.old.scopes }
{
    let mut listing = Listing::new(alloc);
    for definition in read {
        add_named(linker, n, definition, &mut listing)?;
    }
    Ok(listing)
}

/// Definitions under their names, in order. No index is absent, and no name stands twice.
pub fn named_exports<'a>(
    alloc: Global,
    linker: &mut Linker<'a>,
    n: usize,
    read: &'a [NamedDefinition],
) -> Result<Listing<DefinitionRef>, ItemError>
    requires { n < length linker.old.scopes.items }
    ensures named { (bases : List Exports) (l : Linking) (s : Spaces) → IsAt bases linker.old n l s → IsTold (λ listing exports. IsListing linker.new.types (world_of bases linker.new) listing exports) result (computed.named_exports s read.now) }
    ensures at { (bases : List Exports) (l : Linking) (s : Spaces) → IsAt bases linker.old n l s → IsAt bases linker.new n l s }
    ensures scopes { linker.new.scopes ≡ linker.old.scopes }
{
    if !are_there(linker.scope(n), read) {
        return Err(MemoryOr::Fault(LinkWhy::Index));
    }
    if !are_distinct(alloc, read)? {
        return Err(MemoryOr::Fault(LinkWhy::Typing));
    }
    all_named(alloc, linker, n, read)
}
