//! Linking of core instances.

ghost use Rattle.std.specs.Prelude.{◌≡◌, ◌<◌, List, OnOk, IfOk, nat_lt, length, map};
ghost use Rattle.std.specs.List.{list_all};
ghost use Rattle.comp_tree.specs.declared.core_instances.CoreInlineExport.{CoreInlineExport};
ghost use Rattle.comp_tree.specs.declared.core_instances.CoreInstance.TheVariants as made_core;
ghost use Rattle.link_spec.specs.Definitions.{Exports};
ghost use Rattle.link_spec.specs.Spaces.{Spaces, Linking, core_size};
ghost use Rattle.link_spec.specs.Computed as computed;
ghost use Rattle.link_spec.specs.Computed.{inline_outcome, core_instance_outcome};
ghost use Rattle.link_types.specs.Table.{Table};
ghost use Rattle.link_instances.specs.References.{World};
ghost use Rattle.link_parts.specs.Told.{IsTold};
ghost use Rattle.link_state.specs.State.{IsScope, IsAt, IsMade, ended};
ghost use Rattle.link_state.specs.Reached.{IsReached};

use crate::linker::{INSTANCE_LIMIT, Linker};
use crate::scope::Scope;
use comp_tree::{CoreArgument, CoreInlineExport, CoreInstance};
use faults::MemoryOr;
use link_core_exports::{InlineExport, InlineExports, are_distinct, externs_of};
use link_parts::ItemError;
use link_spec::LinkWhy;
use std::alloc::Global;

/// Links the instantiation of a core module.
fn link_instantiation(
    alloc: Global,
    linker: &mut Linker<'_>,
    n: usize,
    index: u32,
    arguments: &[CoreArgument],
) -> Result<(), ItemError>
    requires { n < length linker.old.scopes.items }
    ensures made { (bases : List Exports) (l : Linking) (s : Spaces) → IsAt bases linker.old n l s → IsReached l → IsTold (λ _ outcome. IsMade linker.new outcome) result (core_instance_outcome l n s (made_core.Instantiate index arguments.now)) }
    ensures scopes { OnOk result (length linker.new.scopes.items ≡ length linker.old.scopes.items) }
    ensures live { OnOk result (ended linker.new ≡ ended linker.old) }
{
    let Some(module) = linker.module(n, index) else {
        return Err(MemoryOr::Fault(LinkWhy::Index));
    };
    let items = linker.passed(alloc, n, module, arguments)?;
    if linker.core_count() >= INSTANCE_LIMIT {
        return Err(MemoryOr::Fault(LinkWhy::Limit));
    }
    let externs = externs_of(alloc, &items)?;
    linker.add_core_instance(n, module, externs)?;
    Ok(())
}

/// Whether what each inline export names is there.
fn exports_are_there(scope: &Scope<'_>, read: &[CoreInlineExport]) -> bool
    ensures { (t : Table) (w : World) (s : Spaces) → IsScope t w scope.now s → result ≡ list_all (λ (e : CoreInlineExport). nat_lt e.index (core_size s e.sort)) read.now }
{
    for export in read {
        if (export.index as usize) >= scope.core_size(export.sort) {
            return false;
        }
    }
    true
}

/// The inline exports, where each of them is a core item.
fn inline_exports<'a>(
    alloc: Global,
    scope: &Scope<'a>,
    read: &'a [CoreInlineExport],
) -> Result<Vec<InlineExport<'a>>, ItemError>
    ensures told { (t : Table) (w : World) (s : Spaces) → IsScope t w scope.now s → IsTold (λ v exports. v.items ≡ exports) result (computed.inline_exports s read.now) }
    ensures names { IfOk result (λ v. map (λ e. e.name) v.items ≡ map (λ e. e.name) read.now) }
{
    let mut exports = Vec::new(alloc);
    for export in read {
        match scope.core_item(export.sort, export.index) {
            Some(item) => exports.push(InlineExport::new(&export.name, item))?,
            None => return Err(MemoryOr::Fault(LinkWhy::Typing)),
        }
    }
    Ok(exports)
}

/// The core instance of some inline exports.
fn inline<'a>(
    alloc: Global,
    scope: &Scope<'a>,
    read: &'a [CoreInlineExport],
) -> Result<InlineExports<'a>, ItemError>
    ensures { (t : Table) (w : World) (s : Spaces) → IsScope t w scope.now s → IsTold (λ i exports. i ≡ exports) result (inline_outcome s read.now) }
{
    if !exports_are_there(scope, read) {
        return Err(MemoryOr::Fault(LinkWhy::Index));
    }
    if !are_distinct(alloc, read)? {
        return Err(MemoryOr::Fault(LinkWhy::Typing));
    }
    let exports = inline_exports(alloc, scope, read)?;
    let exports = InlineExports::new(alloc, read, exports)?;
    Ok(exports)
}

/// Links a core instance of inline exports.
fn link_inline<'a>(
    alloc: Global,
    linker: &mut Linker<'a>,
    n: usize,
    read: &'a [CoreInlineExport],
) -> Result<(), ItemError>
    requires { n < length linker.old.scopes.items }
    ensures made { (bases : List Exports) (l : Linking) (s : Spaces) → IsAt bases linker.old n l s → IsTold (λ _ outcome. IsMade linker.new outcome) result (core_instance_outcome l n s (made_core.Inline read.now)) }
    ensures scopes { OnOk result (length linker.new.scopes.items ≡ length linker.old.scopes.items) }
    ensures live { OnOk result (ended linker.new ≡ ended linker.old) }
{
    let exports = inline(alloc, linker.scope(n), read)?;
    linker.add_inline(n, exports)?;
    Ok(())
}

/// Links a core instance.
pub fn link_core_instance<'a>(
    alloc: Global,
    linker: &mut Linker<'a>,
    n: usize,
    made: &'a CoreInstance,
) -> Result<(), ItemError>
    requires { n < length linker.old.scopes.items }
    ensures made { (bases : List Exports) (l : Linking) (s : Spaces) → IsAt bases linker.old n l s → IsReached l → IsTold (λ _ outcome. IsMade linker.new outcome) result (core_instance_outcome l n s made.now) }
    ensures scopes { OnOk result (length linker.new.scopes.items ≡ length linker.old.scopes.items) }
    ensures live { OnOk result (ended linker.new ≡ ended linker.old) }
{
    match made {
        CoreInstance::Instantiate { module, arguments } => {
            link_instantiation(alloc, linker, n, *module, arguments.as_slice())
        }
        CoreInstance::Inline(read) => link_inline(alloc, linker, n, read.as_slice()),
    }
}
