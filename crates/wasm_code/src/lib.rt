//! What of modules is kept to run them: the code of functions (Core 2.0, section 4.4.8), flat, with the places at which the
//! code of each block goes on, so that no branch looks for an end; and tables, globals and instances (section 4.2).
//!
//! Contracts see code as the expression that it is the flat form of.
//!
//! - `code`: the code; `jumps`: the places, by one pass from the end; `copying`: operations and types once more
//! - `instance`: tables, globals and instances of a store, and what imports bring
//! - `operands`: operands that are taken and put
#![tactic(auto)]

mod code;
mod copying;
mod instance;
mod jumps;
pub mod operands;

pub use code::Code;
pub use copying::copy_types;
pub use instance::{External, GlobalInstance, ModuleInstance, Sort, TableInstance};
