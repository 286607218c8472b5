//! The trees of core modules and the types and values of components, with the lists and names that they are made of (Core 2.0,
//! section 2; Component Model, Explainer.md, "Type Definitions").
//!
//! They stand below all crates, with what is defined of them: so what reads, types, runs, lifts and prints them needs only
//! this crate, and what these have in common. Where components and modules have the same names, those of components stand at the
//! root: the `FuncType` and `ValType` of modules are in `module_types`, their `Export` in `module`.
//!
//! - `seq`: the lists of public types; `name`: a name; `named`: what has one
//! - `module_types`: types of core values, functions and globals, and limits; `limited`: types of memories and tables;
//!   `same_types`: whether types of functions are the same
//! - `instr`: instructions, and what stands in flat code; `accesses`: what they are on; `block_types`: what blocks take and give
//! - `body`: the body of a function; `locals`: what it declares; `module`: modules
//! - `types`, `value` and `exports`: types of components, values, and the functions that a component exports
//! - `shared` and `boxed`: parts of types and payloads of values, which contracts see as what they hold
//! - `core_type`: core types and core functions that stand for values and functions
//! - `items`: a case or a label by its number
#![tactic(auto)]

mod accesses;
mod block_types;
mod body;
mod boxed;
mod core_type;
mod exports;
mod instr;
mod items;
mod limited;
mod locals;
pub mod module;
pub mod module_types;
mod name;
mod named;
mod same_types;
mod seq;
mod shared;
mod types;
mod value;

pub use body::Body;
pub use boxed::Boxed;
pub use core_type::{CoreFunc, CoreType, CoreTypes, FlatKind};
pub use exports::{Export, Exports};
pub use instr::{
    BinaryOp, BlockType, ConstInstr, Instr, LoadOp, MemArg, NumericOp, Op, RelationOp, StoreOp,
    UnaryOp, Width,
};
pub use items::item_at;
pub use limited::{MemoryType, TableType};
pub use locals::DeclaredLocals;
pub use module::{
    DataSegment, ElementSegment, ExportDesc, Func, Global, Import, ImportDesc, ModuleTree,
};
pub use module_types::{GlobalType, Limits, Locals, Mutability};
pub use name::Name;
pub use named::{Named, adds};
pub use same_types::are_same;
pub use seq::{Bytes, Seq};
pub use shared::Shared;
pub use types::{Case, Field, FuncType, Param, ValType};
pub use value::{Handle, Value, Values};
