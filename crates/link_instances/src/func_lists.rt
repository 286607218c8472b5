//! The functions among the exports of instances. Those of an instance are listed once.

ghost use Rattle.std.specs.Prelude.{◌≡◌, IfOk, OnOk, IsSome};
ghost use Rattle.std.specs.Option.{option_copied};
ghost use Rattle.link_spec.specs.Definitions.{Exports};
ghost use Rattle.link_types.specs.Table.{Table};
ghost use Rattle.link_instances.specs.References.{World, IsInstance};
ghost use Rattle.link_instances.specs.Instances.{AreInstances};
ghost use Rattle.link_instances.specs.Called.{func_entry, func_entries, AreFuncs, listed_at, AreLists};

use crate::instances::Instances;
use crate::references::{DefinitionRef, InstanceRef, LiftedRef};
use link_types::Types;
use std::alloc::{AllocError, Global};
use std::collections::BTreeMap;
use syntax_trees::Seq;

/// The functions of instances, each under the number of its name.
#[derive(Drop)]
pub(crate) struct FuncLists {
    lists: BTreeMap<InstanceRef, Seq<(usize, LiftedRef)>>,
}

/// An export that is a function.
fn func_entry(entry: (usize, DefinitionRef)) -> Option<(usize, LiftedRef)>
    ensures { result ≡ func_entry entry }
{
    let (number, definition) = entry;
    match definition.func() {
        Some(lifted) => Some((number, lifted)),
        None => None,
    }
}

/// The exports that are functions, in order. It fails for want of memory alone, as do all functions here that fail.
fn func_entries(
    alloc: Global,
    entries: &[(usize, DefinitionRef)],
) -> Result<Seq<(usize, LiftedRef)>, AllocError>
    ensures { IfOk result (λ funcs. funcs ≡ func_entries entries.now) }
{
    let mut funcs = Seq::new(alloc);
    for entry in entries {
        if let Some(func) = func_entry(*entry) {
            funcs.push(func)?;
        }
    }
    Ok(funcs)
}

/// The functions among the exports of an instance, in order.
fn funcs_of(
    alloc: Global,
    types: &Types<'_>,
    instances: &Instances,
    instance: InstanceRef,
) -> Result<Seq<(usize, LiftedRef)>, AllocError>
    ensures { IfOk result (λ funcs. (w : World) (given : Exports) → AreInstances types.now w instances.now → IsInstance types.now w instance given → AreFuncs types.now funcs given) }
{
    let entries = instances.exports(alloc, types, instance)?;
    let funcs = func_entries(alloc, &entries)?;
    Ok(funcs)
}

impl FuncLists {
    /// Nothing is listed. It takes no memory.
    pub fn new(alloc: Global) -> FuncLists
        ensures { (t : Table) (instances : Instances) → AreLists t instances result }
    {
        FuncLists {
            lists: BTreeMap::new(alloc),
        }
    }

    /// The functions of an instance, in order, if they are listed.
    pub fn get(&self, instance: InstanceRef) -> Option<&Seq<(usize, LiftedRef)>>
        ensures { option_copied result ≡ listed_at self.now instance }
    {
        self.lists.get(&instance)
    }

    /// Lists the functions of an instance, unless they are listed.
    pub fn list(
        &mut self,
        alloc: Global,
        types: &Types<'_>,
        instances: &Instances,
        instance: InstanceRef,
    ) -> Result<(), AllocError>
        requires { AreLists types.now instances.now self.old }
        ensures lists { OnOk result (AreLists types.now instances.now self.new) }
        ensures there { OnOk result (IsSome (listed_at self.new instance)) }
    {
        if self.lists.contains_key(&instance) {
            return Ok(());
        }
        let funcs = funcs_of(alloc, types, instances, instance)?;
        self.lists.insert(instance, funcs)?;
        Ok(())
    }
}
