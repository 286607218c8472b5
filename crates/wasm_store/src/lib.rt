//! The core machine (Core 2.0, section 4): what core modules do, as definitions and laws, and the store (section 4.2):
//! functions, tables, memories, globals and instances, and what instructions other than those of blocks and calls make of it.
//!
//! Contracts see a store as that of the definitions. It is typed.
//!
//! - `laws`: what holds of every typed stack; `trap`: why a run ends with a trap
//! - `function`: functions of a store; `store`: the store, and the bytes of its memories
//! - `adding`: instances of modules; `matching`: imports, compared with what a module asks for; `parts`: what a module brings;
//!   `constants`, `segments`: the values of constant expressions, and segments that are written
//! - `effects`: instructions; `numbers`, `parametric`: those over operands alone; `variables`: those of locals and globals;
//!   `accesses`: those of memories; `addresses`: what an instance's indices mean
#![tactic(auto)]

mod accesses;
mod adding;
mod addresses;
mod constants;
mod effects;
mod function;
pub mod laws;
mod matching;
mod numbers;
mod parametric;
mod parts;
mod segments;
mod store;
mod trap;
mod variables;

pub use adding::AddFault;
pub use function::{FunctionInstance, OwnFunction};
pub use store::Store;
pub use trap::Trap;
