//! The functions that can be called, and what they lift: those of an instance, and those of the instances among its exports.

ghost use Rattle.std.specs.Prelude.{◌≡◌, ◌∷◌, ◌++◌, [], ℕ, List, Some, codes, map, length, IfOk, IfSome, OnOk};
ghost use Rattle.std.specs.List.{slice_get};
ghost use Rattle.std.specs.Option.{option_to_list};
ghost use Rattle.syntax_trees.specs.declared.types.FuncType.{FuncType};
ghost use Rattle.comp_graph.specs.Passed.{AreExportTypes};
ghost use Rattle.link_spec.specs.Definitions.{Lifted, Definition, Exports};
ghost use Rattle.link_spec.specs.Linked as linked;
ghost use Rattle.link_spec.specs.Linked.{funcs_behind, called, export_of, lift_of};
ghost use Rattle.link_instances.specs.References.{World, IsInstance, IsEntry, IsListing};
ghost use Rattle.link_instances.specs.Instances.{AreInstances};
ghost use Rattle.link_instances.specs.Called.{named_behind, IsFuncEntry, AreFuncs, AreLists};
ghost use Rattle.link_instances.specs.Typed.{AreTyped};

use crate::func_lists::FuncLists;
use crate::instances::Instances;
use crate::references::{DefinitionRef, InstanceRef, LiftedRef};
use comp_graph::{Lift, graph_number};
use link_types::Types;
use std::alloc::{AllocError, Global};
use std::marker::Model;
use syntax_trees::{Export, Name};

/// A function that can be called, and what it lifts. Contracts see its name and the function.
#[derive(Drop)]
pub(crate) struct Callable {
    export: Export,
    lift: Lift,
}

impl Model for Callable {
    ghost use Rattle.std.specs.Coded.{codes};
    ghost use Rattle.syntax_trees.specs.contracts.types.FuncType as type_row;
    ghost use Rattle.comp_graph.specs.contracts.graph.FuncRef as core_row;
    ghost use Rattle.comp_graph.specs.contracts.graph.Options as options_row;
    ghost use Rattle.link_spec.specs.Linked as linked;

    ghost Value = { linked.Callable };

    ghost coded = { Prim.hlevel (codes, type_row.the_row.coded, core_row.the_row.coded, options_row.the_row.coded) };

    ghost view = { λ c. record { name = c.export.name; func = record { instance = c.lift.instance; core = c.lift.core; options = c.lift.options; func_type = c.export.func_type } } };
}

impl Callable {
    /// What it lifts.
    fn lift(&self) -> Lift
        ensures { result ≡ lift_of self.now }
    {
        self.lift
    }

    /// Its name and its type.
    fn export(self) -> Export
        ensures { result ≡ export_of self }
    {
        self.export
    }
}

/// Functions that can be called, and of each the number of its type.
#[derive(Drop)]
struct TypedCallables {
    funcs: Vec<Callable>,
    types: Vec<u32>,
}

impl TypedCallables {
    /// No functions. They take no memory.
    fn new(alloc: Global) -> TypedCallables
        ensures funcs { result.funcs.items ≡ [] }
        ensures typed { (types : List FuncType) → AreTyped types result }
    {
        TypedCallables {
            funcs: Vec::new(alloc),
            types: Vec::new(alloc),
        }
    }

    /// Puts a function behind the others.
    fn push(&mut self, func: Callable, number: u32) -> Result<(), AllocError>
        ensures funcs { OnOk result (self.new.funcs.items ≡ self.old.funcs.items ++ func ∷ []) }
        ensures typed { OnOk result ((types : List FuncType) → slice_get types number ≡ Some func.func.func_type → AreTyped types self.old → AreTyped types self.new) }
    {
        self.funcs.push(func)?;
        self.types.push(number)?;
        Ok(())
    }
}

/// The name that is a text behind another one.
fn joined(alloc: Global, front: &str, text: &str) -> Result<Name, AllocError>
    ensures { IfOk result (λ name. name ≡ front.now ++ text.now) }
{
    let mut both = String::from_str(alloc, front)?;
    both.push_str(text)?;
    Ok(Name::new(alloc, both.as_str())?)
}

/// A function behind a front, as it can be called. It fails for want of memory alone, as do all functions here.
fn func_named(
    alloc: Global,
    types: &Types<'_>,
    front: &str,
    entry: (usize, LiftedRef),
) -> Result<Option<Callable>, AllocError>
    ensures named { IfOk result (λ o. (e : List ℕ × Lifted) → IsFuncEntry types.now entry e → option_to_list o ≡ named_behind front.now e) }
    ensures typed { IfOk result (λ o. IfSome o (λ f. slice_get types.now.funcs entry.1.func_type.number ≡ Some f.func.func_type)) }
{
    let (number, lifted) = entry;
    let Some(text) = types.text(number) else {
        return Ok(None);
    };
    let Some(func_type) = types.func_at(lifted.func_type) else {
        return Ok(None);
    };
    let export = Export {
        name: joined(alloc, front, text)?,
        func_type: func_type.share()?,
    };
    let lift = lifted.lift();
    Ok(Some(Callable { export, lift }))
}

/// Puts a function behind others, behind a front.
fn push_func(
    alloc: Global,
    types: &Types<'_>,
    front: &str,
    entry: (usize, LiftedRef),
    funcs: &mut TypedCallables,
) -> Result<(), AllocError>
    ensures funcs { OnOk result ((e : List ℕ × Lifted) → IsFuncEntry types.now entry e → funcs.new.funcs.items ≡ funcs.old.funcs.items ++ named_behind front.now e) }
    ensures typed { OnOk result (AreTyped types.now.funcs funcs.old → AreTyped types.now.funcs funcs.new) }
{
    if let Some(func) = func_named(alloc, types, front, entry)? {
        funcs.push(func, graph_number(entry.1.func_type.number())?)?;
    }
    Ok(())
}

/// Puts functions behind others, each behind a front.
fn push_funcs(
    alloc: Global,
    types: &Types<'_>,
    front: &str,
    entries: &[(usize, LiftedRef)],
    funcs: &mut TypedCallables,
) -> Result<(), AllocError>
    ensures funcs { OnOk result ((given : Exports) → AreFuncs types.now entries.now given → funcs.new.funcs.items ≡ funcs.old.funcs.items ++ funcs_behind front.now given) }
    ensures typed { OnOk result (AreTyped types.now.funcs funcs.old → AreTyped types.now.funcs funcs.new) }
{
    for entry in entries {
        push_func(alloc, types, front, *entry, funcs)?;
    }
    Ok(())
}

/// Puts the functions of an instance behind others, under its name and a `#`.
fn push_instance(
    alloc: Global,
    types: &Types<'_>,
    instances: &Instances,
    name: &str,
    instance: InstanceRef,
    lists: &mut FuncLists,
    funcs: &mut TypedCallables,
) -> Result<(), AllocError>
    requires { AreLists types.now instances.now lists.old }
    ensures funcs { OnOk result ((w : World) (given : Exports) → AreInstances types.now w instances.now → IsInstance types.now w instance given → funcs.new.funcs.items ≡ funcs.old.funcs.items ++ funcs_behind (name.now ++ codes "#") given) }
    ensures typed { OnOk result (AreTyped types.now.funcs funcs.old → AreTyped types.now.funcs funcs.new) }
    ensures lists { OnOk result (AreLists types.now instances.now lists.new) }
{
    lists.list(alloc, types, instances, instance)?;
    let Some(listed) = lists.get(instance) else {
        return Ok(());
    };
    let front = joined(alloc, name, "#")?;
    push_funcs(alloc, types, front.as_str(), listed.as_slice(), funcs)?;
    Ok(())
}

/// Puts the functions of an export behind others: itself, or those of an instance.
fn push_called(
    alloc: Global,
    types: &Types<'_>,
    instances: &Instances,
    entry: (usize, DefinitionRef),
    lists: &mut FuncLists,
    funcs: &mut TypedCallables,
) -> Result<(), AllocError>
    requires { AreLists types.now instances.now lists.old }
    ensures funcs { OnOk result ((w : World) (e : List ℕ × Definition) → AreInstances types.now w instances.now → IsEntry types.now w entry e → funcs.new.funcs.items ≡ funcs.old.funcs.items ++ called e) }
    ensures typed { OnOk result (AreTyped types.now.funcs funcs.old → AreTyped types.now.funcs funcs.new) }
    ensures lists { OnOk result (AreLists types.now instances.now lists.new) }
{
    let (number, definition) = entry;
    if let Some(instance) = definition.instance() {
        let Some(name) = types.text(number) else {
            return Ok(());
        };
        push_instance(alloc, types, instances, name, instance, lists, funcs)?;
        return Ok(());
    }
    let Some(lifted) = definition.func() else {
        return Ok(());
    };
    push_func(alloc, types, "", (number, lifted), funcs)?;
    Ok(())
}

/// The functions of an instance that can be called, in order.
fn all_called(
    alloc: Global,
    types: &Types<'_>,
    instances: &Instances,
    entries: &[(usize, DefinitionRef)],
) -> Result<TypedCallables, AllocError>
    ensures funcs { IfOk result (λ v. (w : World) (given : Exports) → AreInstances types.now w instances.now → IsListing types.now w entries.now given → v.funcs.items ≡ linked.callables given) }
    ensures typed { IfOk result (λ v. AreTyped types.now.funcs v) }
{
    let mut lists = FuncLists::new(alloc);
    let mut funcs = TypedCallables::new(alloc);
    for entry in entries {
        push_called(alloc, types, instances, *entry, &mut lists, &mut funcs)?;
    }
    Ok(funcs)
}

/// What functions lift, in order.
fn lifts_of(alloc: Global, funcs: &[Callable]) -> Result<Vec<Lift>, AllocError>
    ensures { IfOk result (λ v. v.items ≡ map lift_of funcs.now) }
{
    let mut lifts = Vec::new(alloc);
    for func in funcs {
        lifts.push(func.lift())?;
    }
    Ok(lifts)
}

/// Their names and types, in order.
fn exports_of(alloc: Global, funcs: Vec<Callable>) -> Result<Vec<Export>, AllocError>
    ensures { IfOk result (λ v. v.items ≡ map export_of funcs.items) }
{
    let mut exports = Vec::new(alloc);
    for func in funcs {
        exports.push(func.export())?;
    }
    Ok(exports)
}

/// The functions that can be called, in order, with what each lifts and the number of its type.
#[derive(Drop)]
pub struct CallableFuncs {
    /// Their names and types.
    pub exports: Vec<Export>,
    /// What each of them lifts.
    pub lifts: Vec<Lift>,
    /// The number of the type of each of them.
    pub types: Vec<u32>,
}

/// The functions that can be called, of an instance of these exports: its own under their names, and those of the instances among its
/// exports under the name of the instance, a `#` and their own (Component Model, Explainer.md, "Import and Export Definitions").
pub fn callables(
    alloc: Global,
    types: &Types<'_>,
    instances: &Instances,
    entries: &[(usize, DefinitionRef)],
) -> Result<CallableFuncs, AllocError>
    ensures exports { IfOk result (λ f. (w : World) (given : Exports) → AreInstances types.now w instances.now → IsListing types.now w entries.now given → f.exports.items ≡ map export_of (linked.callables given)) }
    ensures lifts { IfOk result (λ f. (w : World) (given : Exports) → AreInstances types.now w instances.now → IsListing types.now w entries.now given → f.lifts.items ≡ map lift_of (linked.callables given)) }
    ensures many { IfOk result (λ f. length f.lifts.items ≡ length f.exports.items) }
    ensures typed { IfOk result (λ f. AreExportTypes types.now.funcs f.types.items f.exports.items) }
{
    let listed = all_called(alloc, types, instances, entries)?;
    let lifts = lifts_of(alloc, &listed.funcs)?;
    let exports = exports_of(alloc, listed.funcs)?;
    Ok(CallableFuncs {
        exports,
        lifts,
        types: listed.types,
    })
}
