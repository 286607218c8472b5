//! The texts of the types of values, and of values.
//!
//! The definitions stand with those of types and values (`syntax_trees/specs/TypeText`, `ValueText`, `CharText`, `NameText`), since what reads
//! values cites them too. A type or a value of another kind is one more case of `push_type` and `push_value`.
//!
//! - `text`: texts of lists of items; `pieces`: pieces of texts
//! - `characters`: characters between quotes; `names`: names, of labels too
//! - `plain`: values that their types tell nothing more about
//! - `types` and `values`: the texts of types and values
#![tactic(auto)]

mod characters;
mod names;
mod pieces;
mod plain;
mod text;
mod types;
mod values;

pub use names::{name_text, push_name};
pub use text::{Text, push_all, push_separated};
pub use types::type_text;
pub use values::value_text;
