//! Linking of built-ins.

ghost use Rattle.std.specs.Prelude.{◌≡◌, ◌<◌, ◌&&◌, ℕ, nat_lt, List, map, Option, Some, IfOk, OnOk, length};
ghost use Rattle.std.specs.List.{slice_get};
ghost use Rattle.std.specs.Option.{option_and_then};
ghost use Rattle.syntax_trees.specs.declared.types.ValType.{ValType};
ghost use Rattle.comp_tree.specs.declared.builtins.CanonBuiltin.TheVariants as read_builtin;
ghost use Rattle.comp_graph.specs.CoreItems.{core_memory_of};
ghost use Rattle.comp_graph.specs.Passed.{MayBeAt};
ghost use Rattle.link_spec.specs.Definitions.{Exports};
ghost use Rattle.link_spec.specs.Spaces.{Spaces, Linking};
ghost use Rattle.link_spec.specs.ValueTypes.{close_passed};
ghost use Rattle.link_spec.specs.ValueTypes as value_types;
ghost use Rattle.link_spec.specs.Builtins.{are_options_there, builtin_meaning};
ghost use Rattle.link_spec.specs.Items.{builtin_made};
ghost use Rattle.link_spec.specs.Computed.{Makes, builtin_outcome};
ghost use Rattle.link_types.specs.Table.{Table};
ghost use Rattle.link_instances.specs.References.{World};
ghost use Rattle.link_meanings.specs.Meant.{IsFoundAs};
ghost use Rattle.canon_types.specs.declared.builtins.Built.{Built};
ghost use Rattle.canon_types.specs.Built.{IsBuilt, IsBuiltinMeaning};
ghost use Rattle.link_parts.specs.Told.{IsTold};
ghost use Rattle.link_state.specs.State.{IsScope, IsAt, IsMade, ended};

use crate::ends::end_at;
use crate::resources::resource_at;
use builtin_kinds::WaitOp;
use canon_types::{Built, BuiltinMeant, context_builtin, plain_builtin, wait_builtin};
use comp_graph::CoreRef;
use comp_tree::{CanonBuiltin, CanonOption, CoreSort, Sort, ValTypeRef};
use faults::MemoryOr;
use link_items::returning;
use link_meanings::held_value;
use link_parts::ItemError;
use link_spec::{LinkWhy, held_within};
use link_state::{Linker, Scope};
use std::alloc::{AllocError, Global};

/// Whether a type is there.
pub(crate) fn type_is_there(scope: &Scope<'_>, index: u32) -> bool
    ensures { (t : Table) (w : World) (s : Spaces) → IsScope t w scope.now s → result ≡ nat_lt index (length s.types) }
{
    (index as usize) < scope.size(Sort::Type)
}

/// The memory of an index.
fn memory_at(scope: &Scope<'_>, memory: u32) -> Option<CoreRef>
    ensures { (t : Table) (w : World) (s : Spaces) → IsScope t w scope.now s → result ≡ option_and_then core_memory_of (slice_get s.core_memories memory) }
{
    match scope.core_item(CoreSort::Memory, memory) {
        Some(item) => item.core_memory(),
        None => None,
    }
}

/// What a built-in comes to that asks for an event, which goes into the memory of an index.
fn wait_at(scope: &Scope<'_>, op: WaitOp, cancellable: bool, memory: u32) -> BuiltinMeant
    ensures { (values : List ValType) (t : Table) (w : World) (l : Linking) (n : ℕ) (s : Spaces) → IsScope t w scope.now s → IsBuiltinMeaning values result (builtin_meaning l n s (read_builtin.Wait op cancellable memory)) }
{
    let is_there = (memory as usize) < scope.core_size(CoreSort::Memory);
    let found = memory_at(scope, memory);
    wait_builtin(op, cancellable, is_there, found)
}

/// The number of what a built-in of a component instance passes, where its index is that of a value type.
fn passed_at(
    alloc: Global,
    linker: &mut Linker<'_>,
    n: usize,
    val_type: Option<ValTypeRef>,
) -> Result<Option<Option<usize>>, AllocError>
    requires { n < length linker.old.scopes.items }
    ensures found { IfOk result (λ o. (bases : List Exports) (l : Linking) (s : Spaces) → IsAt bases linker.old n l s → IsFoundAs (MayBeAt linker.new.types.values) o (close_passed (map Some s.types) val_type)) }
    ensures at { (bases : List Exports) (l : Linking) (s : Spaces) → IsAt bases linker.old n l s → IsAt bases linker.new n l s }
    ensures scopes { linker.new.scopes ≡ linker.old.scopes }
{
    let own = linker.scopes[n].types.as_slice();
    held_value(alloc, &mut linker.types, own, val_type)
}

/// Whether the type is there that a built-in returns, and what its options name.
fn return_is_there(scope: &Scope<'_>, returned: Option<ValTypeRef>, options: &[CanonOption]) -> bool
    ensures { (t : Table) (w : World) (s : Spaces) → IsScope t w scope.now s → result ≡ (value_types.held_within (length s.types) returned && are_options_there s options.now) }
{
    held_within(scope.size(Sort::Type), returned) && scope.are_there(options)
}

/// What a built-in of a component instance comes to that returns a result of a type, with options.
fn return_at(
    alloc: Global,
    linker: &mut Linker<'_>,
    n: usize,
    returned: Option<ValTypeRef>,
    options: &[CanonOption],
) -> Result<BuiltinMeant, AllocError>
    requires { n < length linker.old.scopes.items }
    ensures means { IfOk result (λ m. (bases : List Exports) (l : Linking) (s : Spaces) → IsAt bases linker.old n l s → IsBuiltinMeaning linker.new.types.values m (builtin_meaning l n s (read_builtin.TaskReturn returned options.now))) }
    ensures at { (bases : List Exports) (l : Linking) (s : Spaces) → IsAt bases linker.old n l s → IsAt bases linker.new n l s }
    ensures scopes { linker.new.scopes ≡ linker.old.scopes }
{
    let passed = passed_at(alloc, linker, n, returned)?;
    let scope = linker.scope(n);
    let is_there = return_is_there(scope, returned, options);
    let given = scope.given(options);
    returning(alloc, &linker.types, is_there, passed, options, &given)
}

/// What a built-in of a component instance comes to. It fails for want of memory alone.
fn meaning_at(
    alloc: Global,
    linker: &mut Linker<'_>,
    n: usize,
    builtin: &CanonBuiltin,
) -> Result<BuiltinMeant, AllocError>
    requires { n < length linker.old.scopes.items }
    ensures means { IfOk result (λ m. (bases : List Exports) (l : Linking) (s : Spaces) → IsAt bases linker.old n l s → IsBuiltinMeaning linker.new.types.values m (builtin_meaning l n s builtin.now)) }
    ensures at { (bases : List Exports) (l : Linking) (s : Spaces) → IsAt bases linker.old n l s → IsAt bases linker.new n l s }
    ensures scopes { linker.new.scopes ≡ linker.old.scopes }
{
    match builtin {
        CanonBuiltin::Plain(named) => Ok(plain_builtin(*named)),
        CanonBuiltin::Context { op, slot } => Ok(context_builtin(*op, *slot)),
        CanonBuiltin::Wait {
            op,
            cancellable,
            memory,
        } => Ok(wait_at(linker.scope(n), *op, *cancellable, *memory)),
        CanonBuiltin::TaskReturn {
            result: returned,
            options,
        } => return_at(alloc, linker, n, *returned, options.as_slice()),
        CanonBuiltin::Resource { op, resource } => resource_at(&*linker, n, *op, *resource),
        CanonBuiltin::End { kind, end_type, op } => end_at(
            alloc, &*linker, n, *kind, *end_type, op,
        ),
    }
}

/// What a built-in of a component instance is.
fn built(
    alloc: Global,
    linker: &mut Linker<'_>,
    n: usize,
    builtin: &CanonBuiltin,
) -> Result<Built, ItemError>
    requires { n < length linker.old.scopes.items }
    ensures told { (bases : List Exports) (l : Linking) (s : Spaces) → IsAt bases linker.old n l s → IsTold (λ (b : Built) outcome. IsBuilt linker.new.types.values b × (outcome ≡ Makes (builtin_made l n s b.kind))) result (builtin_outcome l n s (builtin_meaning l n s builtin.now)) }
    ensures at { (bases : List Exports) (l : Linking) (s : Spaces) → IsAt bases linker.old n l s → IsAt bases linker.new n l s }
    ensures scopes { linker.new.scopes ≡ linker.old.scopes }
{
    let meant = meaning_at(alloc, linker, n, builtin)?;
    let BuiltinMeant {
        is_there,
        means,
        serves,
    } = meant;
    if !is_there {
        return Err(MemoryOr::Fault(LinkWhy::Index));
    }
    let Some(made) = means else {
        return Err(MemoryOr::Fault(LinkWhy::Typing));
    };
    if !serves {
        return Err(MemoryOr::Fault(LinkWhy::Canon));
    }
    Ok(made)
}

/// Links a built-in.
pub fn link_builtin(
    alloc: Global,
    linker: &mut Linker<'_>,
    n: usize,
    builtin: &CanonBuiltin,
) -> Result<(), ItemError>
    requires { n < length linker.old.scopes.items }
    ensures made { (bases : List Exports) (l : Linking) (s : Spaces) → IsAt bases linker.old n l s → IsTold (λ _ outcome. IsMade linker.new outcome) result (builtin_outcome l n s (builtin_meaning l n s builtin.now)) }
    ensures scopes { OnOk result (length linker.new.scopes.items ≡ length linker.old.scopes.items) }
    ensures live { OnOk result (ended linker.new ≡ ended linker.old) }
{
    let made = built(alloc, linker, n, builtin)?;
    linker.add_builtin(n, made)?;
    Ok(())
}
