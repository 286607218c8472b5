//! Types.

ghost use Rattle.std.specs.Prelude.{◌≡◌, ◌<◌, ◌∷◌, List, length, OnOk, IfOk};
ghost use Rattle.comp_tree.specs.declared.types.DefType.{out-DefType};
ghost use Rattle.link_spec.specs.Definitions.{Exports};
ghost use Rattle.link_spec.specs.Spaces.{Spaces, Linking, levels_at};
ghost use Rattle.link_spec.specs.Types as types_read;
ghost use Rattle.link_spec.specs.Resources.{resource_written};
ghost use Rattle.link_spec.specs.Items.{type_meaning};
ghost use Rattle.link_spec.specs.Computed.{type_outcome, defined_outcome};
ghost use Rattle.link_types.specs.Table.{IsType};
ghost use Rattle.link_meanings.specs.Meant.{IsMeaning};
ghost use Rattle.link_parts.specs.Told.{IsTold};
ghost use Rattle.link_state.specs.State.{IsAt, IsMade, ended};
ghost use Rattle.comp_link.specs.Ready.{IsTyped};

use crate::resources::link_resource;
use comp_tree::DefType;
use faults::MemoryOr;
use link_core_exports::missing;
use link_instance_types::meaning_of;
use link_items::resource_written;
use link_parts::ItemError;
use link_spec::LinkWhy;
use link_state::{Linker, levels_at};
use link_types::{Meant, TypeRef};
use std::alloc::{AllocError, Global};

/// What a type means that stands in a component instance.
fn meaning_at<'a>(
    alloc: Global,
    linker: &mut Linker<'a>,
    n: usize,
    def_type: &'a DefType,
) -> Result<Meant<'a, TypeRef>, AllocError>
    requires { n < length linker.old.scopes.items }
    ensures means { IfOk result (λ m. (bases : List Exports) (l : Linking) (s : Spaces) → IsAt bases linker.old n l s → IsMeaning (IsType linker.new.types) m (types_read.meaning_of def_type.now (levels_at l (n ∷ s.around)))) }
    ensures at { (bases : List Exports) (l : Linking) (s : Spaces) → IsAt bases linker.old n l s → IsAt bases linker.new n l s }
    ensures scopes { linker.new.scopes ≡ linker.old.scopes }
{
    let around = linker.scopes[n].around.get().as_slice();
    let levels = levels_at(alloc, &linker.scopes, n, around)?;
    meaning_of(alloc, &mut linker.types, &levels, def_type)
}

/// The type that an item makes.
fn type_meant<'a>(
    alloc: Global,
    linker: &mut Linker<'a>,
    n: usize,
    def_type: &'a DefType,
) -> Result<TypeRef, ItemError>
    requires { n < length linker.old.scopes.items }
    ensures made { (bases : List Exports) (l : Linking) (s : Spaces) → IsAt bases linker.old n l s → IsTold (IsTyped linker.new.types l n s) result (type_outcome l n s (types_read.meaning_of def_type.now (levels_at l (n ∷ s.around)))) }
    ensures at { (bases : List Exports) (l : Linking) (s : Spaces) → IsAt bases linker.old n l s → IsAt bases linker.new n l s }
    ensures scopes { linker.new.scopes ≡ linker.old.scopes }
{
    let meant = meaning_at(alloc, linker, n, def_type)?;
    if !meant.is_there {
        return Err(MemoryOr::Fault(LinkWhy::Index));
    }
    if let Some(name) = meant.missing {
        return Err(missing(alloc, name.as_str()));
    }
    let Some(closed) = meant.means else {
        return Err(MemoryOr::Fault(LinkWhy::Typing));
    };
    if meant.deep {
        return Err(MemoryOr::Fault(LinkWhy::Limit));
    }
    Ok(closed)
}

/// Links a type that is none of resources.
fn link_closed<'a>(
    alloc: Global,
    linker: &mut Linker<'a>,
    n: usize,
    def_type: &'a DefType,
) -> Result<(), ItemError>
    requires { n < length linker.old.scopes.items }
    ensures made { (bases : List Exports) (l : Linking) (s : Spaces) → IsAt bases linker.old n l s → IsTold (λ _ outcome. IsMade linker.new outcome) result (type_outcome l n s (types_read.meaning_of def_type.now (levels_at l (n ∷ s.around)))) }
    ensures scopes { OnOk result (length linker.new.scopes.items ≡ length linker.old.scopes.items) }
    ensures live { OnOk result (ended linker.new ≡ ended linker.old) }
{
    let meant = type_meant(alloc, linker, n, def_type)?;
    linker.add_type(n, meant)?;
    Ok(())
}

/// Links a type.
pub fn link_type<'a>(
    alloc: Global,
    linker: &mut Linker<'a>,
    n: usize,
    def_type: &'a DefType,
) -> Result<(), ItemError>
    requires { n < length linker.old.scopes.items }
    ensures made { (bases : List Exports) (l : Linking) (s : Spaces) → IsAt bases linker.old n l s → IsTold (λ _ outcome. IsMade linker.new outcome) result (defined_outcome l n s (resource_written (out-DefType def_type.now)) (type_meaning l n s def_type.now)) }
    ensures scopes { OnOk result (length linker.new.scopes.items ≡ length linker.old.scopes.items) }
    ensures live { OnOk result (ended linker.new ≡ ended linker.old) }
{
    match resource_written(def_type) {
        Some(destructor) => link_resource(linker, n, destructor),
        None => link_closed(alloc, linker, n, def_type),
    }
}
