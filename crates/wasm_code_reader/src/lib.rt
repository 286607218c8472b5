//! The reader of the code of core modules: types, instructions, constant expressions and bodies in bytes (Core 2.0, sections
//! 5.3 and 5.4).
//!
//! Each reader answers exactly what its grammar stands for, or the first place at which the bytes leave it, with the reason.
//! Only want of memory keeps it from either.
//!
//! - `type_kinds`: types, a kind for each
//! - `opcodes`: groups of instructions by their opcodes; `instrs`: instructions that hold no others, and types of blocks
//! - `consts`: constant expressions
//! - `bodies`: the locals and the body of a function; `parts`: the parts of a body that are open while it is read
//! - `fault`: why the bytes of a module are refused
#![tactic(auto)]

mod bodies;
mod consts;
mod fault;
mod instrs;
mod opcodes;
mod parts;
mod type_kinds;

pub use bodies::{PlacedBody, read_all_locals, read_body};
pub use consts::{PlacedConst, read_const_expr};
pub use fault::{ModuleWhy, refused_byte};
pub use instrs::Indices;
pub use opcodes::{load, numeric, store};
pub use type_kinds::{FuncTypes, GlobalTypes, Memories, Tables, ValTypes};
