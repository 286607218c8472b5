//! What a core module that is instantiated is passed for its imports.

ghost use Rattle.std.specs.Prelude.{◌≡◌, ◌<◌, List, Some, None, Ok, Err, MatchResult, IfOk, nat_lt, length, map};
ghost use Rattle.std.specs.List.{list_all, slice_get, AllByRecursion};
ghost use Rattle.faults.specs.Faults.{IfFault};
ghost use Rattle.syntax_trees.specs.declared.module.ModuleTree.{ModuleTree};
ghost use Rattle.comp_tree.specs.declared.core_instances.CoreArgument.{CoreArgument};
ghost use Rattle.comp_graph.specs.declared.graph.CanonFunc.{CanonFunc};
ghost use Rattle.comp_graph.specs.CoreItems.{extern_of};
ghost use Rattle.comp_graph.specs.Graph.{CoreMake, IsItem};
ghost use Rattle.link_spec.specs.declared.fault.LinkWhy.TheVariants as why;
ghost use Rattle.link_spec.specs.Tests as tests;
ghost use Rattle.link_spec.specs.Computed.{imports_outcome};
ghost use Rattle.link_core_exports.specs.Modules.{AreModulesOf, AreAllThere};

use crate::arguments::{Arguments, all_found};
use crate::core_item::CoreItem;
use crate::exports::CoreExports;
use crate::modules::CoreModules;
use crate::names::are_distinct;
use comp_graph::CoreExtern;
use comp_tree::CoreArgument;
use faults::MemoryOr;
use link_spec::LinkWhy;
use std::alloc::{AllocError, Global};
use syntax_trees::{ModuleTree, Seq};

/// Whether the core instance of each argument is there, where there are so many.
fn are_there(count: usize, arguments: &[CoreArgument]) -> bool
    ensures { result ≡ list_all (λ (a : CoreArgument). nat_lt a.instance count) arguments.now }
{
    arguments
        .iter()
        .all(|argument| (argument.instance as usize) < count)
}

/// Whether each item is what its import of the module of a number asks for. It fails for want of memory alone.
fn all_fit<'a>(
    alloc: Global,
    made: &mut CoreModules<'a>,
    number: usize,
    tree: &ModuleTree,
    items: &[CoreItem<'a>],
) -> Result<bool, AllocError>
    ensures fit { (cores : List CoreMake) (canons : List CanonFunc) → AreModulesOf made.old cores → slice_get made.old.modules.items number ≡ Some tree.now → AllByRecursion (IsItem cores canons) items.now → IfOk result (λ fit. fit ≡ tests.all_fit tree.now tree.now.imports items.now) }
    ensures same { made.new ≡ made.old }
{
    let imports = tree.imports.as_slice();
    for at in 0..imports.len() {
        let Some(item) = items.get(at) else {
            return Ok(false);
        };
        if !made.fits(alloc, number, tree, item, imports[at].desc)? {
            return Ok(false);
        }
    }
    Ok(true)
}

/// The items without their types.
pub fn externs_of(alloc: Global, items: &[CoreItem]) -> Result<Seq<CoreExtern>, AllocError>
    ensures { IfOk result (λ s. s ≡ map extern_of items.now) }
{
    let mut externs = Seq::new(alloc);
    for item in items {
        externs.push(item.core_extern())?;
    }
    Ok(externs)
}

/// What the imports of the core module of a number are passed, of these core instances and arguments, or the first reason against it:
/// where `made` says rightly which module each core instance is made of, and all that the core instances export is there.
pub(crate) fn imports_passed<'a>(
    alloc: Global,
    made: &mut CoreModules<'a>,
    number: usize,
    instances: &[CoreExports<'a>],
    arguments: &[CoreArgument],
) -> Result<Vec<CoreItem<'a>>, MemoryOr<LinkWhy>>
    ensures passed { (cores : List CoreMake) (canons : List CanonFunc) (m : ModuleTree) → AreModulesOf made.old cores → AreAllThere cores canons instances.now → slice_get made.old.modules.items number ≡ Some m → MatchResult result (λ v. imports_outcome instances.now m arguments.now ≡ Ok v.items) (λ e. IfFault e (λ w. imports_outcome instances.now m arguments.now ≡ Err w)) }
    ensures none { slice_get made.old.modules.items number ≡ None → MatchResult result (λ v. ⊥) (λ e. IfFault e (λ w. w ≡ why.Index)) }
    ensures same { made.new ≡ made.old }
{
    let Some(tree) = made.tree(number) else {
        return Err(MemoryOr::Fault(LinkWhy::Index));
    };
    if !are_there(instances.len(), arguments) {
        return Err(MemoryOr::Fault(LinkWhy::Index));
    }
    let named = Arguments::new(alloc, arguments)?;
    let items = all_found(alloc, instances, &named, tree.imports.as_slice())?;
    if !are_distinct(alloc, arguments)? {
        return Err(MemoryOr::Fault(LinkWhy::Typing));
    }
    if !all_fit(alloc, made, number, tree, &items)? {
        return Err(MemoryOr::Fault(LinkWhy::Typing));
    }
    Ok(items)
}
