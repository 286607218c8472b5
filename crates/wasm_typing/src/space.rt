//! The index spaces of a module (Core 2.0, section 2.5.1): imported items first, then those of the module.

ghost use Rattle.std.specs.Prelude.{◌≡◌, ◌≤◌, IfOk, length};
ghost use Rattle.std.specs.Option.{option_map};
ghost use Rattle.wasm_typing.specs.Spaces.{imported_globals, imported_tables, imported_memories, func_space, global_space, table_count, memory_count, is_there, type_of_func};

use std::alloc::{AllocError, Global};
use std::marker::Model;
use syntax_trees::module_types::FuncType;
use syntax_trees::{ExportDesc, GlobalType, Import, ImportDesc, ModuleTree};

/// A module with its index spaces. Contracts see its tree.
#[derive(Drop)]
pub struct Space<'a> {
    tree: &'a ModuleTree,
    funcs: Vec<u32>,
    globals: Vec<GlobalType>,
    imported_globals: Vec<GlobalType>,
    tables: usize,
    memories: usize,
}

impl<'a> Model for Space<'a> {
    ghost use Rattle.syntax_trees.specs.declared.module.ModuleTree.{ModuleTree};
    ghost use Rattle.syntax_trees.specs.contracts.module.ModuleTree as contract;
    ghost use Rattle.wasm_typing.specs.Spaces.{AreSpaces};

    ghost Value = { ModuleTree };

    ghost coded = { contract.the_row.coded };

    ghost view = { λ s. s.tree.now };

    ghost invariant = { λ s. AreSpaces s.tree.now s.funcs.items s.globals.items s.imported_globals.items s.tables s.memories };
}

impl<'a> Space<'a> {
    /// The index spaces of a module. It fails for want of memory alone.
    pub fn of(alloc: Global, tree: &'a ModuleTree) -> Result<Space<'a>, AllocError>
        ensures { IfOk result (λ s. s ≡ tree.now) }
    {
        let imports = tree.imports.as_slice();
        let funcs = all_funcs(alloc, tree)?;
        let imported_globals = imported_globals(alloc, imports)?;
        let globals = all_globals(alloc, tree)?;
        let tables = imported_tables(imports) + tree.tables.as_slice().len();
        let memories = imported_memories(imports) + tree.memories.as_slice().len();
        Ok(Space {
            tree,
            funcs,
            globals,
            imported_globals,
            tables,
            memories,
        })
    }

    /// The tree.
    pub fn tree(&self) -> &'a ModuleTree
        ensures { result.now ≡ self.now }
    {
        self.tree
    }

    /// The type index of each function.
    pub fn funcs(&self) -> &[u32]
        ensures { result.now ≡ func_space self.now }
    {
        &self.funcs
    }

    /// The type of each global.
    pub fn globals(&self) -> &[GlobalType]
        ensures { result.now ≡ global_space self.now }
    {
        &self.globals
    }

    /// The type of each imported global.
    pub fn imported_globals(&self) -> &[GlobalType]
        ensures { result.now ≡ imported_globals self.now.imports }
    {
        &self.imported_globals
    }

    /// How many tables there are.
    pub fn table_count(&self) -> usize
        ensures { result ≡ table_count self.now }
    {
        self.tables
    }

    /// How many memories there are.
    pub fn memory_count(&self) -> usize
        ensures { result ≡ memory_count self.now }
    {
        self.memories
    }

    /// Whether what an export offers is there.
    pub fn has(&self, desc: ExportDesc) -> bool
        ensures { result ≡ is_there self.now desc }
    {
        match desc {
            ExportDesc::Func(index) => (index as usize) < self.funcs().len(),
            ExportDesc::Table(index) => (index as usize) < self.table_count(),
            ExportDesc::Memory(index) => (index as usize) < self.memory_count(),
            ExportDesc::Global(index) => (index as usize) < self.globals().len(),
        }
    }

    /// The type of the function of an index, where it is there.
    pub fn type_of_func(&self, index: u32) -> Option<&'a FuncType>
        ensures { option_map (λ type. type.now) result ≡ type_of_func self.now index }
    {
        let type_index = self.funcs.get(index as usize)?;
        self.tree.types.as_slice().get(*type_index as usize)
    }
}

/// The type index of each function of a module.
fn all_funcs(alloc: Global, tree: &ModuleTree) -> Result<Vec<u32>, AllocError>
    ensures { IfOk result (λ v. v.items ≡ func_space tree.now) }
{
    let mut indices = Vec::new(alloc);
    for import in tree.imports.as_slice() {
        if let ImportDesc::Func(index) = import.desc {
            indices.push(index)?;
        }
    }
    for func in tree.funcs.as_slice() {
        indices.push(func.type_index)?;
    }
    Ok(indices)
}

/// The type of each imported global.
fn imported_globals(alloc: Global, imports: &[Import]) -> Result<Vec<GlobalType>, AllocError>
    ensures { IfOk result (λ v. v.items ≡ imported_globals imports.now) }
{
    let mut types = Vec::new(alloc);
    for import in imports {
        if let ImportDesc::Global(global_type) = import.desc {
            types.push(global_type)?;
        }
    }
    Ok(types)
}

/// The type of each global of a module.
fn all_globals(alloc: Global, tree: &ModuleTree) -> Result<Vec<GlobalType>, AllocError>
    ensures { IfOk result (λ v. v.items ≡ global_space tree.now) }
{
    let mut types = imported_globals(alloc, tree.imports.as_slice())?;
    for global in tree.globals.as_slice() {
        types.push(global.global_type)?;
    }
    Ok(types)
}

/// How many tables imports bring.
pub fn imported_tables(imports: &[Import]) -> usize
    ensures count { result ≡ length (imported_tables imports.now) }
    ensures few { result ≤ length imports.now }
{
    let mut count: usize = 0;
    for import in imports {
        if let ImportDesc::Table(_) = import.desc {
            count += 1;
        }
    }
    count
}

/// How many memories imports bring.
pub fn imported_memories(imports: &[Import]) -> usize
    ensures count { result ≡ length (imported_memories imports.now) }
    ensures few { result ≤ length imports.now }
{
    let mut count: usize = 0;
    for import in imports {
        if let ImportDesc::Memory(_) = import.desc {
            count += 1;
        }
    }
    count
}
