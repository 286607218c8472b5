//! Instances: of components, whose items come next, and of exports that are named.

ghost use Rattle.std.specs.Prelude.{◌≡◌, ◌<◌, List, length, OnOk};
ghost use Rattle.comp_tree.specs.declared.instances.Instance.TheVariants as made;
ghost use Rattle.link_spec.specs.Definitions.{Exports};
ghost use Rattle.link_spec.specs.Spaces.{Spaces, Linking};
ghost use Rattle.link_spec.specs.Computed.{instance_outcome};
ghost use Rattle.link_parts.specs.Told.{IsTold};
ghost use Rattle.link_state.specs.State.{IsAt, ended};
ghost use Rattle.link_state.specs.Next.{IsNext};

use crate::linker::{INSTANCE_LIMIT, Linker};
use crate::named::named_exports;
use comp_tree::{Component, Instance, NamedDefinition};
use faults::MemoryOr;
use link_instances::{DefinitionRef, InstanceRef};
use link_parts::ItemError;
use link_spec::LinkWhy;
use std::alloc::Global;
use syntax_trees::{Seq, Shared};

/// What an instance comes to.
#[derive(Drop)]
pub enum Next<'a> {
    /// It is made.
    Made,
    /// The items of a component come next.
    Begins {
        /// The component.
        component: &'a Component,
        /// The component instances around it, from the inside out.
        around: Shared<Seq<usize>>,
        /// Its arguments.
        arguments: InstanceRef,
    },
}

/// What an instance of a component comes to.
fn instantiated<'a>(
    alloc: Global,
    linker: &mut Linker<'a>,
    n: usize,
    component: u32,
    arguments: &'a [NamedDefinition],
) -> Result<Next<'a>, ItemError>
    requires { n < length linker.old.scopes.items }
    ensures made { (bases : List Exports) (l : Linking) (s : Spaces) → IsAt bases linker.old n l s → IsTold (IsNext linker.new l) result (instance_outcome l n s (made.Instantiate component arguments.now)) }
    ensures scopes { OnOk result (length linker.new.scopes.items ≡ length linker.old.scopes.items) }
    ensures live { OnOk result (ended linker.new ≡ ended linker.old) }
{
    let Some(standing) = linker.standing(n, component) else {
        return Err(MemoryOr::Fault(LinkWhy::Index));
    };
    let component = standing.component();
    let around = standing.around().share()?;
    let given = named_exports(alloc, linker, n, arguments)?;
    if linker.instance_count() >= INSTANCE_LIMIT {
        return Err(MemoryOr::Fault(LinkWhy::Limit));
    }
    let arguments = linker.instance(given)?;
    Ok(Next::Begins {
        component,
        around,
        arguments,
    })
}

/// Links an instance of exports that are named.
fn link_inline<'a>(
    alloc: Global,
    linker: &mut Linker<'a>,
    n: usize,
    read: &'a [NamedDefinition],
) -> Result<Next<'a>, ItemError>
    requires { n < length linker.old.scopes.items }
    ensures made { (bases : List Exports) (l : Linking) (s : Spaces) → IsAt bases linker.old n l s → IsTold (IsNext linker.new l) result (instance_outcome l n s (made.Inline read.now)) }
    ensures scopes { OnOk result (length linker.new.scopes.items ≡ length linker.old.scopes.items) }
    ensures live { OnOk result (ended linker.new ≡ ended linker.old) }
{
    let exports = named_exports(alloc, linker, n, read)?;
    let instance = linker.instance(exports)?;
    linker.add(n, DefinitionRef::Instance(instance))?;
    Ok(Next::Made)
}

/// Links an instance, or tells which component begins.
pub fn link_instance<'a>(
    alloc: Global,
    linker: &mut Linker<'a>,
    n: usize,
    instance: &'a Instance,
) -> Result<Next<'a>, ItemError>
    requires { n < length linker.old.scopes.items }
    ensures made { (bases : List Exports) (l : Linking) (s : Spaces) → IsAt bases linker.old n l s → IsTold (IsNext linker.new l) result (instance_outcome l n s instance.now) }
    ensures scopes { OnOk result (length linker.new.scopes.items ≡ length linker.old.scopes.items) }
    ensures live { OnOk result (ended linker.new ≡ ended linker.old) }
{
    match instance {
        Instance::Instantiate {
            component,
            arguments,
        } => instantiated(alloc, linker, n, *component, arguments.as_slice()),
        Instance::Inline(read) => link_inline(alloc, linker, n, read.as_slice()),
    }
}
