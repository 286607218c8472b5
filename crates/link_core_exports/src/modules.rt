//! Core modules by their numbers, and where types of functions stand, each of which is compared once for all imports.

ghost use Rattle.std.specs.Prelude.{◌≡◌, List, Some, None, MatchOption, IfOk};
ghost use Rattle.std.specs.List.{slice_get};
ghost use Rattle.comp_graph.specs.declared.graph.CanonFunc.{CanonFunc};
ghost use Rattle.comp_graph.specs.Graph.{CoreMake, IsItem};
ghost use Rattle.link_spec.specs.Tests.{core_fits};
ghost use Rattle.link_core_exports.specs.Modules.{AreModulesOf};
ghost use Rattle.link_core_exports.specs.Places.{place_asked, place_of_type};

use crate::core_item::CoreItem;
use crate::core_module::CoreModule;
use comp_graph::FuncRef;
use link_core_types::{ModuleType, ModuleTypes};
use std::alloc::{AllocError, Global};
use syntax_trees::{ImportDesc, ModuleTree, Shared};

/// Core modules, which of them each core instance is made of, and their types. `AreModulesOf` says when the three agree; what is
/// answered of imports is told where they do.
#[derive(Drop)]
pub(crate) struct CoreModules<'a> {
    /// The core modules, by their numbers.
    pub modules: Vec<Shared<CoreModule<'a>>>,
    /// The number of the module of each core instance, in order of making.
    pub made_of: Vec<usize>,
    /// The types of the modules, by their numbers.
    pub types: ModuleTypes<'a>,
}

impl<'a> CoreModules<'a> {
    /// The module of a number.
    pub(crate) fn tree(&self, number: usize) -> Option<&'a ModuleTree>
        ensures { MatchOption result (slice_get self.now.modules.items number ≡ None) (λ m. slice_get self.now.modules.items number ≡ Some m.now) }
    {
        Some(self.modules.get(number)?.get().valid().tree())
    }

    /// Where the type of an item stands, where it is a function of a core instance.
    fn place_of_type(&self, item: &CoreItem<'a>) -> Option<ModuleType>
        ensures { result ≡ place_of_type self.now.modules.items self.now.made_of.items item.now }
    {
        let Some(FuncRef::Instance(core)) = item.core_func() else {
            return None;
        };
        let module = self.made_of.get(core.instance as usize).copied()?;
        let index = self.modules.get(module)?.get().type_index(core.index)?;
        Some(ModuleType { module, index })
    }

    /// Whether an item is what an import of the module of a number asks for. It fails for want of memory alone.
    pub(crate) fn fits(
        &mut self,
        alloc: Global,
        number: usize,
        tree: &ModuleTree,
        item: &CoreItem<'a>,
        desc: ImportDesc,
    ) -> Result<bool, AllocError>
        ensures fits { (cores : List CoreMake) (canons : List CanonFunc) → AreModulesOf self.old cores → slice_get self.old.modules.items number ≡ Some tree.now → IsItem cores canons item.now → IfOk result (λ fits. fits ≡ core_fits tree.now item.now desc) }
        ensures same { self.new ≡ self.old }
    {
        match (self.place_of_type(item), place_asked(number, &desc)) {
            (Some(place), Some(asked)) => self.types.are_same(alloc, asked, place),
            (_, _) => Ok(item.fits(tree, desc)),
        }
    }
}

/// Where the type stands that an import of the module of a number asks for, where it asks for a function.
fn place_asked(number: usize, desc: &ImportDesc) -> Option<ModuleType>
    ensures { result ≡ place_asked number desc.now }
{
    match desc {
        ImportDesc::Func(index) => Some(ModuleType {
            module: number,
            index: *index,
        }),
        ImportDesc::Table(_) | ImportDesc::Memory(_) | ImportDesc::Global(_) => None,
    }
}
