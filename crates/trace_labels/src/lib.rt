//! The lines of a run, as data: a label for each of its steps, and the dump of what it leaves.
//!
//! - `label`: the lines of a trace; `builtin` and `trap`: the names of built-ins and traps; `typed`: values with types
//! - `dump`: what a run leaves in tables and memories
#![tactic(auto)]

mod builtin;
mod dump;
mod label;
mod trap;
mod typed;

pub use builtin::Builtin;
pub use dump::{Dump, EndState, Entry, LiveEntry, Side};
pub use label::{BlockReason, Channel, Copied, Label};
pub use trap::TrapName;
pub use typed::{TypedValue, TypedValues};
