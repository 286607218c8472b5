//! Exports.

ghost use Rattle.std.specs.Prelude.{◌≡◌, ◌<◌, List, length, Some, None, OnOk};
ghost use Rattle.comp_tree.specs.declared.externs.ExternDesc.{ExternDesc};
ghost use Rattle.link_spec.specs.Definitions.{Exports};
ghost use Rattle.link_spec.specs.Spaces.{Spaces, Linking};
ghost use Rattle.link_spec.specs.Computed.{export_outcome};
ghost use Rattle.link_types.specs.Table.{Grows};
ghost use Rattle.link_parts.specs.Told.{IsTold};
ghost use Rattle.link_state.specs.State.{IsAt, IsMade, ended};
ghost use Rattle.comp_link.specs.Ready.{IsReady, exported};

use crate::seen::seen;
use comp_tree::{Export, ExternDesc};
use faults::MemoryOr;
use link_instances::DefinitionRef;
use link_items::wanted_of;
use link_parts::ItemError;
use link_spec::LinkWhy;
use link_state::Linker;
use std::alloc::Global;

/// The definition of an export that does not say what it is.
fn plain_export(linker: &Linker<'_>, n: usize, export: &Export) -> Result<DefinitionRef, ItemError>
    requires { n < length linker.now.scopes.items }
    ensures { (bases : List Exports) (l : Linking) (s : Spaces) → IsAt bases linker.now n l s → export.now.desc ≡ None → IsTold (IsReady linker.now l (exported l n s export.now.name)) result (export_outcome l n s export.now) }
{
    let scope = linker.scope(n);
    if (export.index as usize) >= scope.size(export.sort) {
        return Err(MemoryOr::Fault(LinkWhy::Index));
    }
    let Some(definition) = scope.definition(export.sort, export.index) else {
        return Err(MemoryOr::Fault(LinkWhy::Typing));
    };
    if scope.export_names.has(export.name.as_str()) {
        return Err(MemoryOr::Fault(LinkWhy::Typing));
    }
    Ok(definition)
}

/// The definition of an export that says what it is, seen as that.
fn said_export(
    alloc: Global,
    linker: &mut Linker<'_>,
    n: usize,
    export: &Export,
    desc: ExternDesc,
) -> Result<DefinitionRef, ItemError>
    requires { n < length linker.old.scopes.items }
    ensures made { (bases : List Exports) (l : Linking) (s : Spaces) → IsAt bases linker.old n l s → export.now.desc ≡ Some desc → IsTold (IsReady linker.new l (exported l n s export.now.name)) result (export_outcome l n s export.now) }
    ensures rest { linker.new ≡ record linker.old { types = linker.new.types; instances = linker.new.instances } }
    ensures grows { Grows linker.old.types linker.new.types }
{
    let scope = linker.scope(n);
    if (export.index as usize) >= scope.size(export.sort) {
        return Err(MemoryOr::Fault(LinkWhy::Index));
    }
    let definition = scope.definition(export.sort, export.index);
    let meant = wanted_of(&scope.types, definition, desc);
    if !meant.is_there {
        return Err(MemoryOr::Fault(LinkWhy::Index));
    }
    let Some(given) = definition else {
        return Err(MemoryOr::Fault(LinkWhy::Typing));
    };
    let exported = seen(alloc, linker, given, meant.means)?;
    if linker.scope(n).export_names.has(export.name.as_str()) {
        return Err(MemoryOr::Fault(LinkWhy::Typing));
    }
    match exported {
        Some(definition) => Ok(definition),
        None => Err(MemoryOr::Fault(LinkWhy::Typing)),
    }
}

/// The definition of an export.
fn export_definition(
    alloc: Global,
    linker: &mut Linker<'_>,
    n: usize,
    export: &Export,
) -> Result<DefinitionRef, ItemError>
    requires { n < length linker.old.scopes.items }
    ensures made { (bases : List Exports) (l : Linking) (s : Spaces) → IsAt bases linker.old n l s → IsTold (IsReady linker.new l (exported l n s export.now.name)) result (export_outcome l n s export.now) }
    ensures rest { linker.new ≡ record linker.old { types = linker.new.types; instances = linker.new.instances } }
    ensures grows { Grows linker.old.types linker.new.types }
{
    match export.desc {
        None => plain_export(linker, n, export),
        Some(desc) => said_export(alloc, linker, n, export, desc),
    }
}

/// Links an export.
pub fn link_export<'a>(
    alloc: Global,
    linker: &mut Linker<'a>,
    n: usize,
    export: &'a Export,
) -> Result<(), ItemError>
    requires { n < length linker.old.scopes.items }
    ensures made { (bases : List Exports) (l : Linking) (s : Spaces) → IsAt bases linker.old n l s → IsTold (λ _ outcome. IsMade linker.new outcome) result (export_outcome l n s export.now) }
    ensures scopes { OnOk result (length linker.new.scopes.items ≡ length linker.old.scopes.items) }
    ensures live { OnOk result (ended linker.new ≡ ended linker.old) }
{
    let number = linker.name(&export.name)?;
    let definition = export_definition(alloc, linker, n, export)?;
    linker.add_export(n, &export.name, number, definition)?;
    Ok(())
}
