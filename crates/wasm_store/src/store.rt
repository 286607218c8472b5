//! The store.

ghost use Rattle.std.specs.Prelude.{◌≡◌, ◌<◌, length, Some};
ghost use Rattle.std.specs.Borrow.{sem};
ghost use Rattle.std.specs.List.{slice_get};
ghost use Rattle.wasm_memory.specs.Memories.{MemoryState};
ghost use Rattle.wasm_store.specs.Instantiation.{empty};
ghost use Rattle.wasm_store.specs.Typed.{StoreTyped};
ghost use Rattle.wasm_store.specs.Views.{function_of, table_of, instance_of};

use crate::function::FunctionInstance;
use std::alloc::Global;
use std::marker::Model;
use wasm_code::{GlobalInstance, ModuleInstance, TableInstance};
use wasm_memory::LinearMemory;

/// A store (Core 2.0, section 4.2.3), which is typed. Contracts see it as the functions, tables, memories, globals and
/// instances that it has, each at its address.
#[derive(Drop)]
pub struct Store {
    pub(crate) functions: Vec<FunctionInstance>,
    pub(crate) tables: Vec<TableInstance>,
    pub(crate) memories: Vec<LinearMemory>,
    pub(crate) globals: Vec<GlobalInstance>,
    pub(crate) instances: Vec<ModuleInstance>,
}

impl Model for Store {
    ghost use Rattle.std.specs.Prelude.{map};
    ghost use Rattle.wasm_store.specs.Codes.{store_code};
    ghost use Rattle.wasm_store.specs.Store.{Store};
    ghost use Rattle.wasm_store.specs.Typed.{StoreTyped};
    ghost use Rattle.wasm_store.specs.Views.{function_of, table_of, global_of, instance_of};

    ghost Value = { Store };

    ghost coded = { store_code };

    ghost view = { λ s. record { funcs = map function_of s.functions.items; tables = map table_of s.tables.items; memories = s.memories.items; globals = map global_of s.globals.items; instances = map instance_of s.instances.items } };

    ghost invariant = { λ s. StoreTyped (record { funcs = map function_of s.functions.items; tables = map table_of s.tables.items; memories = s.memories.items; globals = map global_of s.globals.items; instances = map instance_of s.instances.items }) };
}

impl Store {
    ghost use Rattle.wasm_store.specs.Lends.{lends_memory};

    /// The store with nothing. It takes no memory.
    pub fn new(alloc: Global) -> Store
        ensures { result ≡ empty }
    {
        Store {
            functions: Vec::new(alloc),
            tables: Vec::new(alloc),
            memories: Vec::new(alloc),
            globals: Vec::new(alloc),
            instances: Vec::new(alloc),
        }
    }

    /// How many functions there are.
    pub fn function_count(&self) -> usize
        ensures count { result ≡ length self.now.funcs }
        ensures typed { StoreTyped self.now }
    {
        self.functions.len()
    }

    /// The function at an address.
    pub fn function(&self, address: usize) -> &FunctionInstance
        requires { address < length self.now.funcs }
        ensures { slice_get self.now.funcs address ≡ Some (function_of result.now) }
    {
        &self.functions[address]
    }

    /// The table at an address.
    pub fn table(&self, address: usize) -> &TableInstance
        requires { address < length self.now.tables }
        ensures { slice_get self.now.tables address ≡ Some (table_of result.now) }
    {
        &self.tables[address]
    }

    /// How many instances there are.
    pub fn instance_count(&self) -> usize
        ensures { result ≡ length self.now.instances }
    {
        self.instances.len()
    }

    /// The instance at an address.
    pub fn instance(&self, address: usize) -> &ModuleInstance
        requires { address < length self.now.instances }
        ensures { slice_get self.now.instances address ≡ Some (instance_of result.now) }
    {
        &self.instances[address]
    }

    /// How many memories there are.
    pub fn memory_count(&self) -> usize
        ensures { result ≡ length self.now.memories }
    {
        self.memories.len()
    }

    /// The bytes of the memory at an address.
    pub fn memory(&self, address: usize) -> &[u8]
        requires { address < length self.now.memories }
        ensures { (m : MemoryState) → slice_get self.now.memories address ≡ Some m → result.now ≡ m.bytes }
    {
        self.memories[address].bytes()
    }

    /// The bytes of the memory at an address, for writing. Once the loan ends, that memory has what was written, as many bytes
    /// as before, and all else of the store is as it was.
    pub fn memory_mut(&mut self, address: usize) -> &mut [u8]
        requires { address < length self.old.memories }
        ensures* writes_back { sem 𝓛 (lends_memory self.entry address result) }
        ensures value { (m : MemoryState) → slice_get self.old.memories address ≡ Some m → result.now ≡ m.bytes }
    {
        let memory = &mut self.memories[address];
        memory.bytes_mut()
    }
}
