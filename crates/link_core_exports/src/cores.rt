//! Core modules, and the core instances that are made of them.

ghost use Rattle.std.specs.Prelude.{◌≡◌, ◌<◌, ◌++◌, ◌∷◌, [], List, Some, Ok, Err, MatchResult, IfOk, OnOk, OnErr, length};
ghost use Rattle.std.specs.List.{slice_get};
ghost use Rattle.faults.specs.Faults.{IfFault};
ghost use Rattle.syntax_trees.specs.declared.module.ModuleTree.{ModuleTree};
ghost use Rattle.comp_graph.specs.declared.graph.CanonFunc.{CanonFunc};
ghost use Rattle.link_spec.specs.Computed.{imports_outcome};
ghost use Rattle.link_spec.specs.Definitions.{exports_of};
ghost use Rattle.link_core_exports.specs.Modules.{AreAllThere};

use crate::core_item::CoreItem;
use crate::core_module::CoreModule;
use crate::exports::CoreExports;
use crate::imports::imports_passed;
use crate::modules::CoreModules;
use comp_graph::{CoreExtern, CoreMake, graph_number};
use comp_tree::CoreArgument;
use faults::MemoryOr;
use link_core_types::ModuleTypes;
use link_spec::LinkWhy;
use std::alloc::{AllocError, Global};
use std::marker::Model;
use syntax_trees::{Seq, Shared};

/// The core modules, by their numbers, and the core instances that are made of them, in order of making. Contracts see both lists.
#[derive(Drop)]
pub struct Cores<'a> {
    made: CoreModules<'a>,
    makes: Vec<CoreMake<'a>>,
}

impl<'a> Model for Cores<'a> {
    ghost use Rattle.std.specs.Coded.{codes};
    ghost use Rattle.syntax_trees.specs.contracts.module.ModuleTree as tree;
    ghost use Rattle.comp_graph.specs.contracts.graph.CoreExtern as core_extern;
    ghost use Rattle.link_core_exports.specs.Modules.{AreModulesOf};
    ghost use Rattle.link_core_exports.specs.Cores.{CoreLists};

    ghost Value = { CoreLists };

    ghost coded = { Prim.hlevel (codes, tree.the_row.coded, core_extern.the_row.coded) };

    ghost view = { λ c. record { modules = c.made.modules.items; makes = c.makes.items } };

    ghost invariant = { λ c. AreModulesOf c.made c.makes.items };
}

impl<'a> Cores<'a> {
    /// No core modules, and no core instances. They take no memory.
    pub fn new(alloc: Global) -> Cores<'a>
        ensures { result ≡ record { modules = []; makes = [] } }
    {
        Cores {
            made: CoreModules {
                modules: Vec::new(alloc),
                made_of: Vec::new(alloc),
                types: ModuleTypes::new(alloc),
            },
            makes: Vec::new(alloc),
        }
    }

    /// How many core modules there are.
    pub fn module_count(&self) -> usize
        ensures { result ≡ length self.now.modules }
    {
        self.made.modules.len()
    }

    /// How many core instances are made.
    pub fn count(&self) -> usize
        ensures { result ≡ length self.now.makes }
    {
        self.makes.len()
    }

    /// Adds a core module behind the others, and answers its number. It fails for want of memory alone, and then adds none.
    pub fn add_module(&mut self, made: Shared<CoreModule<'a>>) -> Result<usize, AllocError>
        ensures number { IfOk result (λ number. number ≡ length self.old.modules) }
        ensures ok { OnOk result (self.new ≡ record self.old { modules = self.old.modules ++ made.entry ∷ [] }) }
        ensures err { OnErr result (self.new ≡ self.old) }
    {
        let number = self.made.modules.len();
        let tree = made.get().valid().tree();
        self.made.modules.reserve(1)?;
        self.made.types.add(tree.types.as_slice())?;
        self.made.modules.push_reserved(made);
        Ok(number)
    }

    /// The core module of a number.
    fn module(&self, number: usize) -> &Shared<CoreModule<'a>>
        requires { number < length self.now.modules }
        ensures { slice_get self.now.modules number ≡ Some result.now }
    {
        &self.made.modules[number]
    }

    /// What the imports of the module of this number are passed, of these core instances and arguments, or the first reason against
    /// it (Component Model, Explainer.md, "Instance Definitions"; Core 2.0, section 3.2.8).
    ///
    /// # Errors
    ///
    /// `Index` where no module has the number, or an argument's core instance is not there; `Missing` with the first name that an
    /// import does not find; `Typing` where an argument stands twice, or an import finds another item than it asks for. `Memory` is
    /// want of memory.
    pub fn passed(
        &mut self,
        alloc: Global,
        number: usize,
        instances: &[CoreExports<'a>],
        arguments: &[CoreArgument],
    ) -> Result<Vec<CoreItem<'a>>, MemoryOr<LinkWhy>>
        ensures passed { (canons : List CanonFunc) (m : ModuleTree) → AreAllThere self.old.makes canons instances.now → slice_get self.old.modules number ≡ Some m → MatchResult result (λ v. imports_outcome instances.now m arguments.now ≡ Ok v.items) (λ e. IfFault e (λ w. imports_outcome instances.now m arguments.now ≡ Err w)) }
        ensures same { self.new ≡ self.old }
    {
        imports_passed(alloc, &mut self.made, number, instances, arguments)
    }

    /// Adds a core instance of the module of this number, whose imports are these, and which the component instance of the number
    /// of its owner makes. It answers what the core instance exports. It fails for want of memory alone.
    pub fn add_instance(
        &mut self,
        number: usize,
        imports: Seq<CoreExtern>,
        owner: u32,
    ) -> Result<CoreExports<'a>, AllocError>
        requires { number < length self.old.modules }
        ensures exports { IfOk result (λ exports. (m : ModuleTree) → slice_get self.old.modules number ≡ Some m → (exports ≡ exports_of m (length self.old.makes))) }
        ensures ok { OnOk result ((m : ModuleTree) → slice_get self.old.modules number ≡ Some m → (self.new ≡ record self.old { makes = self.old.makes ++ record { of_module = m; imports = imports; owner = owner } ∷ [] })) }
        ensures err { OnErr result (self.new ≡ self.old) }
    {
        let instance = graph_number(self.makes.len())?;
        let made = self.module(number).share()?;
        let valid = made.get().valid();
        self.made.made_of.reserve(1)?;
        self.makes.push(CoreMake::new(valid, imports, owner))?;
        self.made.made_of.push_reserved(number);
        Ok(CoreExports::of_module(instance, made))
    }

    /// The core instances, in order of making.
    pub fn into_makes(self) -> Vec<CoreMake<'a>>
        ensures { result.items ≡ self.entry.makes }
    {
        let Cores { made: _, makes } = self;
        makes
    }
}
