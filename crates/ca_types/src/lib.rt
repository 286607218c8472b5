//! What is computed of the types of values: their core types, whether they hold ends, and which values are of a type. The types, the
//! values and what a component exports stand in `syntax_trees`, sizes in `layouts` and `laid_types`; they are handed on.
//!
//! The layers above read them from components and scripts and print them (`value_texts`). A type or a value of another kind is one more
//! case of `ValType` and `Value`.
//!
//! - `flattening`: the core types of types and functions
//! - `ends`: which types hold the end of a stream or a future
//! - `fit`: which values are of a type
#![tactic(auto)]

mod ends;
mod fit;
mod flattening;

pub use ends::has_end;
pub use fit::fits;
pub use flattening::{flat_func, flatten};
pub use laid_types::{align, alone, joined_lists, size};
pub use layouts::{Laying, aligned, bits_size, tag_size};
pub use syntax_trees::{
    Boxed, Case, CoreFunc, CoreType, CoreTypes, Export, Exports, Field, FlatKind, FuncType, Handle,
    Param, Shared, ValType, Value, Values, item_at,
};
