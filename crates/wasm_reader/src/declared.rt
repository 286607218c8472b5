//! What is read of a module before its tree is made.

use crate::parted::Parted;
use ca_base::Placed;
use syntax_trees::module::Export;
use syntax_trees::module_types::FuncType;
use syntax_trees::{DataSegment, ElementSegment, Func, Global, Import, MemoryType, Seq, TableType};
use wasm_typing::{DataPlaces, ElementPlaces, FuncPlaces, GlobalPlaces};

/// A function as the function section declares it.
#[derive(Clone, Copy)]
pub(crate) struct DeclaredFunc {
    /// The index of its type.
    pub type_index: u32,
    /// The place of that index.
    pub place: usize,
}

/// What the sections of types, imports and functions declare.
#[derive(Drop)]
pub(crate) struct Declarations {
    pub types: Seq<FuncType>,
    pub imports: Seq<Placed<Import>>,
    pub funcs: Seq<DeclaredFunc>,
}

/// What the sections of tables, memories and globals define.
#[derive(Drop)]
pub(crate) struct Definitions {
    pub tables: Seq<Placed<TableType>>,
    pub memories: Seq<Placed<MemoryType>>,
    pub globals: Seq<Parted<Global, GlobalPlaces>>,
}

/// What the sections of exports, of the start and of elements tell.
#[derive(Drop)]
pub(crate) struct Uses {
    pub exports: Seq<Placed<Export>>,
    pub start: Option<Placed<u32>>,
    pub element_segments: Seq<Parted<ElementSegment, ElementPlaces>>,
}

/// What the sections of code and of data hold.
#[derive(Drop)]
pub(crate) struct Contents {
    pub funcs: Seq<Parted<Func, FuncPlaces>>,
    pub data_segments: Seq<Parted<DataSegment, DataPlaces>>,
}
