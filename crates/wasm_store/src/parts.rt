//! What a module brings to a store.

ghost use Rattle.std.specs.Prelude.{◌≡◌, ◌≤◌, ◌++◌, map, IfOk, None};
ghost use Rattle.std.specs.List.{flat_map, range_with_len, AllByRecursion};
ghost use Rattle.wasm_typing.specs.Modules.{Typed, MemoryTyped};
ghost use Rattle.wasm_store.specs.Instantiation.{InRange, imported_globals, new_table, new_memory, new_global};
ghost use Rattle.wasm_memory.specs.Memories.{most_pages};
ghost use Rattle.wasm_store.specs.Instantiation.{instance_of as new_instance};
ghost use Rattle.wasm_store.specs.Views.{address_of, addresses_in, function_of, own_function, table_of, global_of, instance_of};
ghost use Rattle.wasm_store.specs.Parts.{ArePartsOf};

use crate::function::{FunctionInstance, OwnFunction};
use crate::store::Store;
use std::alloc::{AllocError, Global};
use std::rc::Rc;
use syntax_trees::module_types::FuncType;
use syntax_trees::{Func, MemoryType, ModuleTree, Seq, TableType};
use wasm_code::{Code, External, GlobalInstance, ModuleInstance, Sort, TableInstance, copy_types};
use wasm_memory::LinearMemory;

/// What a module brings to a store, in order.
#[derive(Drop)]
pub(crate) struct Parts {
    pub(crate) functions: Vec<FunctionInstance>,
    pub(crate) tables: Vec<TableInstance>,
    pub(crate) memories: Vec<LinearMemory>,
    pub(crate) globals: Vec<GlobalInstance>,
    /// The one instance.
    pub(crate) instances: Vec<ModuleInstance>,
}

impl Parts {
    /// The parts of a module with these imports.
    pub(crate) fn of(
        alloc: Global,
        store: &Store,
        tree: &ModuleTree,
        imports: &[External],
    ) -> Result<Parts, AllocError>
        requires { Typed tree.now }
        ensures range { IfOk result (λ _. InRange tree.now) }
        ensures parts { IfOk result (λ p. ArePartsOf tree.now (map address_of imports.now) store.now p) }
    {
        let types = Rc::new(alloc, copy_types(alloc, tree.types.as_slice())?)?;
        let functions = functions_of(alloc, &types, store.instances.len(), tree.funcs.as_slice())?;
        let tables = tables_of(alloc, tree.tables.as_slice())?;
        let memories = memories_of(alloc, tree.memories.as_slice())?;
        let globals = globals_of(alloc, store, tree.globals.as_slice(), imports)?;
        let instance = instance_with(alloc, store, tree, imports, types)?;
        let mut instances = Vec::new(alloc);
        instances.push(instance)?;
        Ok(Parts {
            functions,
            tables,
            memories,
            globals,
            instances,
        })
    }
}

/// The functions of a module, of an instance at this address.
fn functions_of(
    alloc: Global,
    types: &Rc<Seq<FuncType>>,
    instance: usize,
    funcs: &[Func],
) -> Result<Vec<FunctionInstance>, AllocError>
    ensures { IfOk result (λ v. map function_of v.items ≡ map (own_function types.now.value instance) funcs.now) }
{
    let mut functions = Vec::new(alloc);
    for func in funcs {
        functions.push(function_with(alloc, Rc::clone(types)?, instance, func)?)?;
    }
    Ok(functions)
}

/// A function of a module.
fn function_with(
    alloc: Global,
    types: Rc<Seq<FuncType>>,
    instance: usize,
    func: &Func,
) -> Result<FunctionInstance, AllocError>
    ensures { IfOk result (λ f. function_of f ≡ own_function types.value instance func.now) }
{
    Ok(FunctionInstance::Own(OwnFunction {
        types,
        type_index: func.type_index as usize,
        instance,
        locals: func.locals.copied(alloc)?,
        code: Rc::new(alloc, Code::of(alloc, &func.body)?)?,
    }))
}

/// The tables of a module, all of whose entries are empty.
fn tables_of(alloc: Global, types: &[TableType]) -> Result<Vec<TableInstance>, AllocError>
    ensures { IfOk result (λ v. map table_of v.items ≡ map new_table types.now) }
{
    let mut tables = Vec::new(alloc);
    for table_type in types {
        tables.push(table_with(alloc, table_type)?)?;
    }
    Ok(tables)
}

/// A table whose entries are empty.
fn table_with(alloc: Global, table_type: &TableType) -> Result<TableInstance, AllocError>
    ensures { IfOk result (λ t. table_of t ≡ new_table table_type.now) }
{
    Ok(TableInstance {
        entries: Vec::from_elem(alloc, None, table_type.limits().min as usize)?,
        max: table_type.limits().max,
    })
}

/// The memories of a module, all of whose bytes are 0.
fn memories_of(alloc: Global, types: &[MemoryType]) -> Result<Vec<LinearMemory>, AllocError>
    requires { AllByRecursion MemoryTyped types.now }
    ensures made { IfOk result (λ v. v.items ≡ map new_memory types.now) }
    ensures range { IfOk result (λ _. AllByRecursion (λ t. t.min ≤ most_pages None) types.now) }
{
    let mut memories = Vec::new(alloc);
    for memory_type in types {
        memories.push(memory_with(alloc, *memory_type)?)?;
    }
    Ok(memories)
}

/// A memory of these limits, all of whose bytes are 0.
fn memory_with(alloc: Global, memory_type: MemoryType) -> Result<LinearMemory, AllocError>
    requires { MemoryTyped memory_type }
    ensures made { IfOk result (λ memory. memory ≡ new_memory memory_type) }
    ensures range { memory_type.min ≤ most_pages None }
{
    let limits = memory_type.limits();
    match LinearMemory::new(alloc, limits.min, limits.max) {
        Ok(memory) => Ok(memory),
        Err(_) => Err(AllocError),
    }
}

/// The globals of a module with these imports.
fn globals_of(
    alloc: Global,
    store: &Store,
    globals: &[syntax_trees::Global],
    imports: &[External],
) -> Result<Vec<GlobalInstance>, AllocError>
    ensures { IfOk result (λ v. map global_of v.items ≡ map (new_global store.now (imported_globals (map address_of imports.now))) globals.now) }
{
    let imported = addresses(alloc, imports, Sort::Global, 0, 0)?;
    let mut instances = Vec::new(alloc);
    for global in globals {
        instances.push(GlobalInstance {
            global_type: global.global_type,
            value: store.value_of(&imported, global.init.as_slice()),
        })?;
    }
    Ok(instances)
}

/// The addresses that imports of a sort bring, and behind them so many from the first one on.
#[tactic(auto, using(crate::proofs::Entries::own_next, crate::proofs::Entries::brought))]
fn addresses(
    alloc: Global,
    imports: &[External],
    sort: Sort,
    first: usize,
    count: usize,
) -> Result<Vec<usize>, AllocError>
    ensures { IfOk result (λ v. v.items ≡ flat_map (addresses_in sort) (map address_of imports.now) ++ range_with_len first count) }
{
    let mut addresses = Vec::new(alloc);
    for import in imports {
        if let Some(address) = import.address_in(sort) {
            addresses.push(address)?;
        }
    }
    for own in 0..count {
        addresses.push(first.checked_add(own).ok_or(AllocError)?)?;
    }
    Ok(addresses)
}

/// The instance of a module with these imports.
fn instance_with(
    alloc: Global,
    store: &Store,
    tree: &ModuleTree,
    imports: &[External],
    types: Rc<Seq<FuncType>>,
) -> Result<ModuleInstance, AllocError>
    requires { types.value ≡ tree.now.types }
    ensures { IfOk result (λ i. instance_of i ≡ new_instance tree.now (map address_of imports.now) store.now) }
{
    Ok(ModuleInstance {
        types,
        funcs: Seq::from_vec(addresses(
            alloc,
            imports,
            Sort::Func,
            store.functions.len(),
            tree.funcs.as_slice().len(),
        )?),
        tables: Seq::from_vec(addresses(
            alloc,
            imports,
            Sort::Table,
            store.tables.len(),
            tree.tables.as_slice().len(),
        )?),
        memories: Seq::from_vec(addresses(
            alloc,
            imports,
            Sort::Memory,
            store.memories.len(),
            tree.memories.as_slice().len(),
        )?),
        globals: Seq::from_vec(addresses(
            alloc,
            imports,
            Sort::Global,
            store.globals.len(),
            tree.globals.as_slice().len(),
        )?),
    })
}
