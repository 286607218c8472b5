//! Resources: types of resources that are defined, and what built-ins of them come to.

ghost use Rattle.std.specs.Prelude.{◌≡◌, ◌<◌, List, Some, IfOk, OnOk, length};
ghost use Rattle.comp_tree.specs.declared.builtins.CanonBuiltin.TheVariants as read_builtin;
ghost use Rattle.link_spec.specs.Definitions.{Exports};
ghost use Rattle.link_spec.specs.Spaces.{Spaces, Linking};
ghost use Rattle.link_spec.specs.Builtins.{builtin_meaning};
ghost use Rattle.link_spec.specs.Computed as computed;
ghost use Rattle.link_spec.specs.Computed.{resource_outcome};
ghost use Rattle.canon_types.specs.Built.{IsBuiltinMeaning};
ghost use Rattle.link_parts.specs.Told.{IsTold};
ghost use Rattle.link_state.specs.State.{IsAt, IsMade, ended};

use crate::builtins::type_is_there;
use builtin_kinds::ResourceOp;
use canon_types::{BuiltinMeant, resource_builtin};
use comp_graph::FuncRef;
use comp_tree::CoreSort;
use faults::MemoryOr;
use link_items::{destructor_of, resource_number};
use link_parts::ItemError;
use link_spec::LinkWhy;
use link_state::Linker;
use std::alloc::AllocError;

/// The core function of an index of a component instance, where it can be a destructor.
fn core_destructor(linker: &Linker<'_>, n: usize, index: u32) -> Result<Option<FuncRef>, ItemError>
    requires { n < length linker.now.scopes.items }
    ensures { (bases : List Exports) (l : Linking) (s : Spaces) → IsAt bases linker.now n l s → IsTold (λ core of_index. core ≡ of_index) result (computed.destructor_at s (Some index)) }
{
    let Some(item) = linker.scope(n).core_item(CoreSort::Func, index) else {
        return Err(MemoryOr::Fault(LinkWhy::Index));
    };
    destructor_of(&item)
}

/// The same, if there is an index.
fn destructor_at(
    linker: &Linker<'_>,
    n: usize,
    destructor: Option<u32>,
) -> Result<Option<FuncRef>, ItemError>
    requires { n < length linker.now.scopes.items }
    ensures { (bases : List Exports) (l : Linking) (s : Spaces) → IsAt bases linker.now n l s → IsTold (λ core of_index. core ≡ of_index) result (computed.destructor_at s destructor) }
{
    match destructor {
        None => Ok(None),
        Some(index) => core_destructor(linker, n, index),
    }
}

/// Links a type of resources, with the index of its destructor, if it has one (Component Model, Explainer.md, "Type Definitions").
pub fn link_resource(
    linker: &mut Linker<'_>,
    n: usize,
    destructor: Option<u32>,
) -> Result<(), ItemError>
    requires { n < length linker.old.scopes.items }
    ensures made { (bases : List Exports) (l : Linking) (s : Spaces) → IsAt bases linker.old n l s → IsTold (λ _ outcome. IsMade linker.new outcome) result (resource_outcome l n s destructor) }
    ensures scopes { OnOk result (length linker.new.scopes.items ≡ length linker.old.scopes.items) }
    ensures live { OnOk result (ended linker.new ≡ ended linker.old) }
{
    let core = destructor_at(&*linker, n, destructor)?;
    linker.add_resource(n, core)?;
    Ok(())
}

/// What a built-in of a component instance comes to, of the resource of the type of an index. It fails for want of memory alone.
pub fn resource_at(
    linker: &Linker<'_>,
    n: usize,
    op: ResourceOp,
    resource: u32,
) -> Result<BuiltinMeant, AllocError>
    requires { n < length linker.now.scopes.items }
    ensures { IfOk result (λ m. (bases : List Exports) (l : Linking) (s : Spaces) → IsAt bases linker.now n l s → IsBuiltinMeaning linker.now.types.values m (builtin_meaning l n s (read_builtin.Resource op resource))) }
{
    let scope = linker.scope(n);
    let is_there = type_is_there(scope, resource);
    let number = resource_number(scope.type_at(resource));
    resource_builtin(linker.resources.as_slice(), n, is_there, op, number)
}
