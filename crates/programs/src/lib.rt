//! What a run runs: a graph and a script, with what is looked up of them by numbers (Component Model, CanonicalABI.md, "Lifting and Lowering Values").
//!
//! - `program`: a graph and a script, with the numbers of the types that are passed, of calls and of resources
//! - `copying`: values that are the same, and with their types
#![tactic(auto)]

mod copying;
mod program;

pub use copying::{same_value, same_values, typed_values};
pub use program::{CallNumbers, FuncNumbers, Program};
