//! Core modules: what they import and export.

ghost use Rattle.std.specs.Prelude.{◌≡◌, IfOk};
ghost use Rattle.std.specs.List.{slice_get};
ghost use Rattle.std.specs.Option.{option_and_then};
ghost use Rattle.wasm_typing.specs.Spaces.{func_space, imported_tables, imported_memories};
ghost use Rattle.comp_graph.specs.CoreItems.{item_of, table_space, memory_space};
ghost use Rattle.link_spec.specs.Definitions.{core_named, exports_of};

use crate::core_item::CoreItem;
use ca_base::{by_name, find};
use comp_graph::CoreRef;
use std::alloc::{AllocError, Global};
use std::collections::BTreeMap;
use std::marker::Model;
use syntax_trees::{ExportDesc, Import, ImportDesc, Limits, ModuleTree};
use wasm_typing::{Space, Valid};

/// A core module, with its index spaces, and the numbers of its exports by their names. Contracts see the module.
#[derive(Drop)]
pub struct CoreModule<'a> {
    valid: &'a Valid,
    space: Space<'a>,
    tables: Vec<Limits>,
    memories: Vec<Limits>,
    numbers: BTreeMap<&'a str, usize>,
}

impl<'a> Model for CoreModule<'a> {
    ghost use Rattle.syntax_trees.specs.declared.module.ModuleTree.{ModuleTree};
    ghost use Rattle.syntax_trees.specs.contracts.module.ModuleTree as tree;
    ghost use Rattle.link_core_exports.specs.Module.{IsIndexed};

    ghost Value = { ModuleTree };

    ghost coded = { tree.the_row.coded };

    ghost view = { λ m. m.valid.now };

    ghost invariant = { λ m. IsIndexed m.valid.now m.space m.tables.items m.memories.items m.numbers };
}

impl<'a> CoreModule<'a> {
    /// A core module, with its definitions at hand. It fails for want of memory alone.
    pub fn new(alloc: Global, valid: &'a Valid) -> Result<CoreModule<'a>, AllocError>
        ensures { IfOk result (λ m. m ≡ valid.now) }
    {
        let tree = valid.tree();
        let space = Space::of(alloc, tree)?;
        let tables = all_tables(alloc, tree)?;
        let memories = all_memories(alloc, tree)?;
        let numbers = by_name(alloc, tree.exports.as_slice())?;
        Ok(CoreModule {
            valid,
            space,
            tables,
            memories,
            numbers,
        })
    }

    /// The module.
    pub fn valid(&self) -> &'a Valid
        ensures { result.now ≡ self.now }
    {
        self.valid
    }

    /// The index of the type of the function of an index.
    pub fn type_index(&self, func: u32) -> Option<u32>
        ensures { result ≡ slice_get (func_space self.now) func }
    {
        self.space.funcs().get(func as usize).copied()
    }

    /// What an export offers in the core instance of this number.
    fn offered(&self, instance: u32, desc: ExportDesc) -> Option<CoreItem<'a>>
        ensures { result ≡ item_of self.now instance desc }
    {
        match desc {
            ExportDesc::Func(index) => {
                let func_type = self.space.type_of_func(index)?;
                Some(CoreItem::func(CoreRef { instance, index }, func_type))
            }
            ExportDesc::Table(index) => {
                let limits = self.tables.get(index as usize).copied()?;
                Some(CoreItem::table(CoreRef { instance, index }, limits))
            }
            ExportDesc::Memory(index) => {
                let limits = self.memories.get(index as usize).copied()?;
                Some(CoreItem::memory(CoreRef { instance, index }, limits))
            }
            ExportDesc::Global(index) => {
                let global_type = self.space.globals().get(index as usize).copied()?;
                Some(CoreItem::global(CoreRef { instance, index }, global_type))
            }
        }
    }

    /// What the export of a number offers in the core instance of this number, if there is such an export.
    fn offered_at(&self, number: u32, at: Option<usize>) -> Option<CoreItem<'a>>
        ensures { result ≡ option_and_then (λ e. item_of self.now number e.desc) (option_and_then (λ k. slice_get self.now.exports k) at) }
    {
        let export = self.valid.tree().exports.as_slice().get(at?)?;
        self.offered(number, export.desc)
    }

    /// What the core instance of this number exports under a name.
    pub fn exported(&self, number: u32, name: &str) -> Option<CoreItem<'a>>
        ensures { result ≡ core_named name.now (exports_of self.now number) }
    {
        let _tree = self.valid.tree();
        let at = find(&self.numbers, name);
        self.offered_at(number, at)
    }
}

/// The limits of the tables that imports bring.
fn tables_of(alloc: Global, imports: &[Import]) -> Result<Vec<Limits>, AllocError>
    ensures { IfOk result (λ v. v.items ≡ imported_tables imports.now) }
{
    let mut tables = Vec::new(alloc);
    for import in imports {
        if let ImportDesc::Table(table_type) = import.desc {
            tables.push(table_type.limits())?;
        }
    }
    Ok(tables)
}

/// The limits of the tables of a module.
fn all_tables(alloc: Global, tree: &ModuleTree) -> Result<Vec<Limits>, AllocError>
    ensures { IfOk result (λ v. v.items ≡ table_space tree.now) }
{
    let mut tables = tables_of(alloc, tree.imports.as_slice())?;
    for table in tree.tables.as_slice() {
        tables.push(table.limits())?;
    }
    Ok(tables)
}

/// The limits of the memories that imports bring.
fn memories_of(alloc: Global, imports: &[Import]) -> Result<Vec<Limits>, AllocError>
    ensures { IfOk result (λ v. v.items ≡ imported_memories imports.now) }
{
    let mut memories = Vec::new(alloc);
    for import in imports {
        if let ImportDesc::Memory(memory_type) = import.desc {
            memories.push(memory_type.limits())?;
        }
    }
    Ok(memories)
}

/// The limits of the memories of a module.
fn all_memories(alloc: Global, tree: &ModuleTree) -> Result<Vec<Limits>, AllocError>
    ensures { IfOk result (λ v. v.items ≡ memory_space tree.now) }
{
    let mut memories = memories_of(alloc, tree.imports.as_slice())?;
    for memory in tree.memories.as_slice() {
        memories.push(memory.limits())?;
    }
    Ok(memories)
}
