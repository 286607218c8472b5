//! The maker of binaries: the bytes of modules and components that are given as trees.
//!
//! `module_bytes` answers exactly the bytes of a module's tree, as `specs/Module` defines them, and `Build` those of a
//! component, made of core modules and sections; `pipeline` makes that of a pipe. Numbers have as few bytes as they need, and a
//! module's section that would be empty is left out. Only want of memory keeps them from it.
//!
//! - `build`: a component that is made item by item; `pipe`: one in which numbers go through a stream, with `pipe_parts`
//! - `whole`: the bytes of a module; `sections`: of its sections; `items`: of what stands in them
//! - `code`: the bytes of functions' code; `instrs`: of instructions; `opcodes`: their opcodes
//! - `types`: the bytes of types
//! - `lists`: vectors, what stands behind its size, and sections of any items
//! - `numbers`: numbers in LEB128
//! - `laws`: what is written of a number or an opcode is read back
#![tactic(auto)]

mod build;
mod code;
mod instrs;
mod items;
pub mod laws;
mod lists;
mod numbers;
mod opcodes;
mod pipe;
mod pipe_parts;
mod sections;
mod types;
mod whole;

pub use build::{Build, BuildItem};
pub use pipe::pipeline;
pub use whole::module_bytes;
