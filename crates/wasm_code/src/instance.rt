//! Tables, globals and instances of a store, and what imports bring.

ghost use Rattle.std.specs.Prelude.{◌≡◌};
ghost use Rattle.wasm_code.specs.Sorts.{address_in};

use std::rc::Rc;
use syntax_trees::module_types::FuncType;
use syntax_trees::{GlobalType, Seq};

/// A table (Core 2.0, section 4.2.7).
#[derive(Drop)]
pub struct TableInstance {
    /// In each place nothing, or a function's address.
    pub entries: Vec<Option<usize>>,
    /// How many entries it may have at most.
    pub max: Option<u32>,
}

/// A global (Core 2.0, section 4.2.9).
#[derive(Clone, Copy)]
pub struct GlobalInstance {
    /// Its type.
    pub global_type: GlobalType,
    /// Its value: an i32 is below 2^32.
    pub value: u64,
}

/// An instance of a module (Core 2.0, section 4.2.5): its types, and the addresses of what is in its index spaces.
#[derive(Drop)]
pub struct ModuleInstance {
    /// The module's types.
    pub types: Rc<Seq<FuncType>>,
    /// The addresses of its functions, imported ones first, and so for the others.
    pub funcs: Seq<usize>,
    /// Those of its tables.
    pub tables: Seq<usize>,
    /// Those of its memories.
    pub memories: Seq<usize>,
    /// Those of its globals.
    pub globals: Seq<usize>,
}

/// What an import brings: the address of something in the store (Core 2.0, section 4.2.13).
#[derive(Clone, Copy)]
pub enum External {
    /// A function.
    Func(usize),
    /// A table.
    Table(usize),
    /// A memory.
    Memory(usize),
    /// A global.
    Global(usize),
}

/// What may be imported (Core 2.0, section 2.5.11).
#[derive(Clone, Copy)]
pub enum Sort {
    /// Functions.
    Func,
    /// Tables.
    Table,
    /// Memories.
    Memory,
    /// Globals.
    Global,
}

impl External {
    /// The address, where it is one of this sort.
    pub fn address_in(self, sort: Sort) -> Option<usize>
        ensures { result ≡ address_in sort self }
    {
        match (sort, self) {
            (Sort::Func, External::Func(address))
            | (Sort::Table, External::Table(address))
            | (Sort::Memory, External::Memory(address))
            | (Sort::Global, External::Global(address)) => Some(address),
            _ => None,
        }
    }
}
