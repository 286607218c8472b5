//! The index spaces of a component instance, as references into tables.

ghost use Rattle.std.specs.Prelude.{◌≡◌, true, false, OnOk, Option};
ghost use Rattle.std.specs.List.{slice_get, list_all};
ghost use Rattle.std.specs.Option.{option_map};
ghost use Rattle.link_spec.specs.Definitions.{Definition, Exports};
ghost use Rattle.link_spec.specs.Canons.{given_by, is_option_there};
ghost use Rattle.link_spec.specs.Spaces as spaces;
ghost use Rattle.link_spec.specs.Spaces.{Spaces, core_size, size_of, core_item_at, definition_at, new_spaces, with_core_item, with_core_instance, with_definition};
ghost use Rattle.link_spec.specs.Items.{with_import, with_export};
ghost use Rattle.link_types.specs.Table.{Table, IsName, IsType};
ghost use Rattle.link_instances.specs.declared.references.DefinitionRef.TheVariants as definition_ref;
ghost use Rattle.link_instances.specs.References.{World, IsInstance, IsLifted, Stands};
ghost use Rattle.link_meanings.specs.Meant.{IsFoundAs};
ghost use Rattle.link_meanings.specs.Levels.{IsClosure};
ghost use Rattle.link_state.specs.State.{IsModule, IsScope, IsKept, AreGiven};

use canon_types::{are_there, has_async, indices_of};
use comp_tree::{CanonOption, CoreSort, Sort};
use link_core_exports::{CoreExports, CoreItem, Given, item_at, item_named};
use link_instances::{DefinitionRef, InstanceRef, LiftedRef};
use link_parts::NameList;
use link_types::{Listing, TypeRef};
use std::alloc::{AllocError, Global};
use std::mem;
use syntax_trees::{Name, Seq, Shared};

/// The index spaces of a component instance (Component Model, Explainer.md, "Index Spaces").
#[derive(Drop)]
pub struct Scope<'a> {
    /// The core modules, by their numbers.
    pub core_modules: Vec<usize>,
    /// What each core instance exports.
    pub core_instances: Vec<CoreExports<'a>>,
    /// The core functions.
    pub core_funcs: Vec<CoreItem<'a>>,
    /// The core tables.
    pub core_tables: Vec<CoreItem<'a>>,
    /// The core memories.
    pub core_memories: Vec<CoreItem<'a>>,
    /// The core globals.
    pub core_globals: Vec<CoreItem<'a>>,
    /// The components, by their numbers.
    pub components: Vec<usize>,
    /// The instances.
    pub instances: Vec<InstanceRef>,
    /// The functions.
    pub funcs: Vec<LiftedRef>,
    /// The types.
    pub types: Vec<TypeRef>,
    /// The names of its imports so far.
    pub imports: NameList<'a>,
    /// Its exports so far, under the numbers of their names.
    pub exports: Listing<DefinitionRef>,
    /// The names of its exports so far.
    pub export_names: NameList<'a>,
    /// Its arguments: none of the root.
    pub arguments: Option<InstanceRef>,
    /// The component instances around it, from the inside out.
    pub around: Shared<Seq<usize>>,
    /// Whether it has ended: then its types and its components are kept, which outer aliases see, and nothing else.
    pub ended: bool,
}

impl<'a> Scope<'a> {
    /// Before the first item. It takes no memory.
    pub fn new(
        alloc: Global,
        arguments: Option<InstanceRef>,
        around: Shared<Seq<usize>>,
    ) -> Scope<'a>
        ensures begun { (t : Table) (w : World) (given : Option Exports) → AreGiven t w arguments given → IsScope t w result (new_spaces given around) }
        ensures ended { result.ended ≡ false }
    {
        Scope {
            core_modules: Vec::new(alloc),
            core_instances: Vec::new(alloc),
            core_funcs: Vec::new(alloc),
            core_tables: Vec::new(alloc),
            core_memories: Vec::new(alloc),
            core_globals: Vec::new(alloc),
            components: Vec::new(alloc),
            instances: Vec::new(alloc),
            funcs: Vec::new(alloc),
            types: Vec::new(alloc),
            imports: NameList::new(alloc),
            exports: Listing::new(alloc),
            export_names: NameList::new(alloc),
            arguments,
            around,
            ended: false,
        }
    }

    /// Ends: what outer aliases see is kept, and its exports are handed out.
    pub(crate) fn end(&mut self, alloc: Global) -> Listing<DefinitionRef>
        ensures exports { result ≡ self.old.exports }
        ensures types { self.new.types ≡ self.old.types }
        ensures components { self.new.components ≡ self.old.components }
        ensures ended { self.new.ended ≡ true }
    {
        self.ended = true;
        self.core_modules = Vec::new(alloc);
        self.core_instances = Vec::new(alloc);
        self.core_funcs = Vec::new(alloc);
        self.core_tables = Vec::new(alloc);
        self.core_memories = Vec::new(alloc);
        self.core_globals = Vec::new(alloc);
        self.instances = Vec::new(alloc);
        self.funcs = Vec::new(alloc);
        drop(mem::replace(&mut self.imports, NameList::new(alloc)));
        drop(mem::replace(&mut self.export_names, NameList::new(alloc)));
        mem::replace(&mut self.exports, Listing::new(alloc))
    }

    /// How many definitions of a core sort there are.
    #[tactic(auto, using(crate::proofs::Zips::as_long))]
    pub fn core_size(&self, sort: CoreSort) -> usize
        ensures { (t : Table) (w : World) (s : Spaces) → IsScope t w self.now s → result ≡ core_size s sort }
    {
        match sort {
            CoreSort::Func => self.core_funcs.len(),
            CoreSort::Table => self.core_tables.len(),
            CoreSort::Memory => self.core_memories.len(),
            CoreSort::Global => self.core_globals.len(),
            CoreSort::Module => self.core_modules.len(),
            CoreSort::Instance => self.core_instances.len(),
        }
    }

    /// How many definitions of a sort there are.
    #[tactic(auto, using(crate::proofs::Zips::as_long))]
    pub fn size(&self, sort: Sort) -> usize
        ensures { (t : Table) (w : World) (s : Spaces) → IsScope t w self.now s → result ≡ size_of s sort }
    {
        match sort {
            Sort::Core(sort) => self.core_size(sort),
            Sort::Func => self.funcs.len(),
            Sort::Type => self.types.len(),
            Sort::Component => self.components.len(),
            Sort::Instance => self.instances.len(),
        }
    }

    /// What the core instance of an index exports.
    pub fn core_instance(&self, index: u32) -> Option<&CoreExports<'a>>
        ensures { (t : Table) (w : World) (s : Spaces) → IsScope t w self.now s → IsFoundAs (λ e x. e.now ≡ x) result (slice_get s.core_instances index) }
    {
        self.core_instances.get(index as usize)
    }

    /// The core item of a sort and an index. Modules and instances are none.
    pub fn core_item(&self, sort: CoreSort, index: u32) -> Option<CoreItem<'a>>
        ensures { (t : Table) (w : World) (s : Spaces) → IsScope t w self.now s → result ≡ core_item_at s sort index }
    {
        match sort {
            CoreSort::Func => item_at(&self.core_funcs, index),
            CoreSort::Table => item_at(&self.core_tables, index),
            CoreSort::Memory => item_at(&self.core_memories, index),
            CoreSort::Global => item_at(&self.core_globals, index),
            CoreSort::Module | CoreSort::Instance => None,
        }
    }

    /// Whether what options name is there (Component Model, Explainer.md, "Canonical Definitions").
    pub fn are_there(&self, options: &[CanonOption]) -> bool
        ensures { (t : Table) (w : World) (s : Spaces) → IsScope t w self.now s → result ≡ list_all (is_option_there s) options.now }
    {
        are_there(options, self.core_memories.len(), self.core_funcs.len())
    }

    /// What options give (Component Model, CanonicalABI.md, "Canonical ABI Options").
    pub fn given(&self, options: &[CanonOption]) -> Given<'a>
        ensures { (t : Table) (w : World) (s : Spaces) → IsScope t w self.now s → result ≡ given_by s options.now }
    {
        let indices = indices_of(options);
        Given::new(
            item_named(&self.core_memories, indices.memory),
            item_named(&self.core_funcs, indices.realloc),
            item_named(&self.core_funcs, indices.post_return),
            item_named(&self.core_funcs, indices.callback),
            has_async(options),
        )
    }

    /// The number of the core module of an index.
    pub fn module(&self, index: u32) -> Option<usize>
        ensures { (t : Table) (w : World) (s : Spaces) → IsScope t w self.now s → IsFoundAs (IsModule w) result (slice_get s.core_modules index) }
    {
        copied_at(&self.core_modules, index)
    }

    /// The number of the component of an index, also once the component instance has ended.
    pub fn component(&self, index: u32) -> Option<usize>
        ensures { (t : Table) (w : World) (s : Spaces) → IsKept t w self.now s → IsFoundAs (IsClosure w.components) result (slice_get s.components index) }
    {
        copied_at(&self.components, index)
    }

    /// The instance of an index.
    pub fn instance(&self, index: u32) -> Option<InstanceRef>
        ensures { (t : Table) (w : World) (s : Spaces) → IsScope t w self.now s → IsFoundAs (IsInstance t w) result (slice_get s.instances index) }
    {
        copied_at(&self.instances, index)
    }

    /// The function of an index.
    pub fn func(&self, index: u32) -> Option<LiftedRef>
        ensures { (t : Table) (w : World) (s : Spaces) → IsScope t w self.now s → IsFoundAs (IsLifted t) result (slice_get s.funcs index) }
    {
        copied_at(&self.funcs, index)
    }

    /// The type of an index, also once the component instance has ended.
    pub fn type_at(&self, index: u32) -> Option<TypeRef>
        ensures { (t : Table) (w : World) (s : Spaces) → IsKept t w self.now s → IsFoundAs (IsType t) result (slice_get s.types index) }
    {
        copied_at(&self.types, index)
    }

    /// The definition of a sort and an index.
    #[tactic(auto, using(crate::proofs::Growth::kept_whole))]
    pub fn definition(&self, sort: Sort, index: u32) -> Option<DefinitionRef>
        ensures { (t : Table) (w : World) (s : Spaces) → IsScope t w self.now s → IsFoundAs (Stands t w) result (definition_at s sort index) }
    {
        match sort {
            Sort::Core(CoreSort::Module) => module_definition(self.module(index)),
            Sort::Core(_) => None,
            Sort::Func => func_definition(self.func(index)),
            Sort::Type => type_definition(self.type_at(index)),
            Sort::Component => component_definition(self.component(index)),
            Sort::Instance => instance_definition(self.instance(index)),
        }
    }

    /// The definition that an outer alias names, also once the component instance has ended: a type or a component.
    pub fn outer_definition(&self, sort: Sort, index: u32) -> Option<DefinitionRef>
        ensures { (t : Table) (w : World) (s : Spaces) → IsKept t w self.now s → IsFoundAs (Stands t w) result (spaces.outer_definition sort index s) }
    {
        match sort {
            Sort::Type => type_definition(self.type_at(index)),
            Sort::Component => component_definition(self.component(index)),
            Sort::Core(_) | Sort::Func | Sort::Instance => None,
        }
    }

    /// Adds a definition to the space of its sort. It fails for want of memory alone, as do all calls here that fail.
    pub(crate) fn add(&mut self, definition: DefinitionRef) -> Result<(), AllocError>
        ensures adds { OnOk result ((t : Table) (w : World) (s : Spaces) (d : Definition) → IsScope t w self.old s → Stands t w definition d → IsScope t w self.new (with_definition s d)) }
        ensures ended { self.new.ended ≡ self.old.ended }
    {
        match definition {
            DefinitionRef::Func(func) => self.funcs.push(func)?,
            DefinitionRef::Type(closed) => self.types.push(closed)?,
            DefinitionRef::Component(number) => self.components.push(number)?,
            DefinitionRef::Instance(instance) => self.instances.push(instance)?,
            DefinitionRef::Module(number) => self.core_modules.push(number)?,
        }
        Ok(())
    }

    /// Adds a core item to the space of its sort.
    pub(crate) fn add_core_item(&mut self, item: CoreItem<'a>) -> Result<(), AllocError>
        ensures adds { OnOk result ((t : Table) (w : World) (s : Spaces) → IsScope t w self.old s → IsScope t w self.new (with_core_item s item.entry)) }
        ensures ended { self.new.ended ≡ self.old.ended }
    {
        match item.sort() {
            CoreSort::Func => self.core_funcs.push(item)?,
            CoreSort::Table => self.core_tables.push(item)?,
            CoreSort::Memory => self.core_memories.push(item)?,
            CoreSort::Global => self.core_globals.push(item)?,
            CoreSort::Module | CoreSort::Instance => unreachable!(),
        }
        Ok(())
    }

    /// Adds what a core instance exports.
    pub(crate) fn add_core_instance(&mut self, exports: CoreExports<'a>) -> Result<(), AllocError>
        ensures adds { OnOk result ((t : Table) (w : World) (s : Spaces) → IsScope t w self.old s → IsScope t w self.new (with_core_instance s exports.entry)) }
        ensures ended { self.new.ended ≡ self.old.ended }
    {
        self.core_instances.push(exports)?;
        Ok(())
    }

    /// Adds an import of a name, which is this definition.
    pub(crate) fn add_import(
        &mut self,
        name: &'a Name,
        definition: DefinitionRef,
    ) -> Result<(), AllocError>
        ensures adds { OnOk result ((t : Table) (w : World) (s : Spaces) (d : Definition) → IsScope t w self.old s → Stands t w definition d → IsScope t w self.new (with_import s name.now d)) }
        ensures ended { self.new.ended ≡ self.old.ended }
    {
        self.imports.add(name)?;
        self.add(definition)?;
        Ok(())
    }

    /// Adds an export under the number of its name, which is also one more definition.
    pub(crate) fn add_export(
        &mut self,
        name: &'a Name,
        number: usize,
        definition: DefinitionRef,
    ) -> Result<(), AllocError>
        ensures adds { OnOk result ((t : Table) (w : World) (s : Spaces) (d : Definition) → IsScope t w self.old s → IsName t number name.now → Stands t w definition d → IsScope t w self.new (with_export s name.now d)) }
        ensures ended { self.new.ended ≡ self.old.ended }
    {
        self.export_names.add(name)?;
        self.exports.push(number, definition)?;
        self.add(definition)?;
        Ok(())
    }
}

/// The item of an index, which is copied.
fn copied_at<T: Copy + Drop>(items: &[T], index: u32) -> Option<T>
    ensures { result ≡ slice_get items.now index }
{
    items.get(index as usize).copied()
}

/// A function that is found, as a definition.
fn func_definition(found: Option<LiftedRef>) -> Option<DefinitionRef>
    ensures { result ≡ option_map definition_ref.Func found }
{
    Some(DefinitionRef::Func(found?))
}

/// A type that is found, as a definition.
fn type_definition(found: Option<TypeRef>) -> Option<DefinitionRef>
    ensures { result ≡ option_map definition_ref.Type found }
{
    Some(DefinitionRef::Type(found?))
}

/// A component that is found, as a definition.
fn component_definition(found: Option<usize>) -> Option<DefinitionRef>
    ensures { result ≡ option_map definition_ref.Component found }
{
    Some(DefinitionRef::Component(found?))
}

/// An instance that is found, as a definition.
fn instance_definition(found: Option<InstanceRef>) -> Option<DefinitionRef>
    ensures { result ≡ option_map definition_ref.Instance found }
{
    Some(DefinitionRef::Instance(found?))
}

/// A core module that is found, as a definition.
fn module_definition(found: Option<usize>) -> Option<DefinitionRef>
    ensures { result ≡ option_map definition_ref.Module found }
{
    Some(DefinitionRef::Module(found?))
}
