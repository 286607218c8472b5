//! Types and values of texts, and their texts, for the crates of tests.
//!
//! Types and values are written with their parts before them: `u8 u16 tuple/2`, `u8=1 u16=2 record=2`. In labels `%20` stands
//! for a space and `%0a` for a line feed. The public functions have no clauses: the proof of a test that calls them has nothing to read of what a type or a value is.
//!
//! - `stack`: what words stand for, of which later words take their parts
//! - `labels`: what labels make; `types`: types and functions of texts
//! - `values`: values of texts
//! - `telling`: the texts of types and values
#![tactic(auto)]

mod labels;
mod stack;
mod telling;
mod types;
mod values;

pub use telling::{text_of, type_told, value_told};
pub use types::{func_of, params_of, type_of, types_of};
pub use values::{value_of, values_of};
