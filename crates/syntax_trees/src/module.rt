//! Modules (Core 2.0, section 2.5).

use crate::body::Body;
use crate::instr::ConstInstr;
use crate::limited::{MemoryType, TableType};
use crate::locals::DeclaredLocals;
use crate::module_types::{FuncType, GlobalType};
use crate::name::Name;
use crate::named::Named;
use crate::seq::{Bytes, Seq};

/// What an import asks for (Core 2.0, section 2.5.11).
#[derive(Clone, Copy)]
pub enum ImportDesc {
    /// A function of the type of this index.
    Func(u32),
    /// A table of references to functions.
    Table(TableType),
    /// A memory.
    Memory(MemoryType),
    /// A global.
    Global(GlobalType),
}

/// An import (Core 2.0, section 2.5.11).
#[derive(Drop)]
pub struct Import {
    /// The name of the module that it comes from.
    pub module: Name,
    /// Its name there.
    pub name: Name,
    /// What it asks for.
    pub desc: ImportDesc,
}

/// A function of a module (Core 2.0, section 2.5.3).
#[derive(Drop)]
pub struct Func {
    /// The index of its type among the module's types.
    pub type_index: u32,
    /// Its locals behind the parameters.
    pub locals: DeclaredLocals,
    /// What it does.
    pub body: Body,
}

/// A global of a module (Core 2.0, section 2.5.6).
#[derive(Drop)]
pub struct Global {
    /// Its type.
    pub global_type: GlobalType,
    /// The constant expression of its first value, without its end.
    pub init: Seq<ConstInstr>,
}

/// What an export offers, by its index (Core 2.0, section 2.5.10).
#[derive(Clone, Copy, Debug)]
pub enum ExportDesc {
    /// A function.
    Func(u32),
    /// A table.
    Table(u32),
    /// A memory.
    Memory(u32),
    /// A global.
    Global(u32),
}

/// What a module offers under a name (Core 2.0, section 2.5.10).
#[derive(Drop)]
pub struct Export {
    /// The name.
    pub name: Name,
    /// What it offers.
    pub desc: ExportDesc,
}

impl Named for Export {
    ghost name = { λ e. e.name };

    fn name(&self) -> &str {
        self.name.as_str()
    }
}

/// An active segment of functions that are written into a table (Core 2.0, section 2.5.7).
#[derive(Drop)]
pub struct ElementSegment {
    /// The index of the table.
    pub table: u32,
    /// The constant expression of the first entry that is written, without its end.
    pub offset: Seq<ConstInstr>,
    /// The indices of the functions.
    pub funcs: Seq<u32>,
}

/// An active segment of bytes that are written into a memory (Core 2.0, section 2.5.8).
#[derive(Drop)]
pub struct DataSegment {
    /// The index of the memory.
    pub memory: u32,
    /// The constant expression of the first place that is written, without its end.
    pub offset: Seq<ConstInstr>,
    /// The bytes.
    pub bytes: Bytes,
}

/// The tree of a module (Core 2.0, section 2.5). Its lists are in file order. An index of a function, a table, a memory or
/// a global counts the imported ones first, and behind them those of these lists.
#[derive(Drop)]
pub struct ModuleTree {
    /// The types.
    pub types: Seq<FuncType>,
    /// The imports.
    pub imports: Seq<Import>,
    /// The functions.
    pub funcs: Seq<Func>,
    /// The tables, of references to functions.
    pub tables: Seq<TableType>,
    /// The memories.
    pub memories: Seq<MemoryType>,
    /// The globals.
    pub globals: Seq<Global>,
    /// The exports.
    pub exports: Seq<Export>,
    /// The index of the function that runs first, where there is one.
    pub start: Option<u32>,
    /// The segments of functions.
    pub element_segments: Seq<ElementSegment>,
    /// The segments of bytes.
    pub data_segments: Seq<DataSegment>,
}
