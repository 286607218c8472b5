//! What a written type of values or functions means (Component Model, Explainer.md, "Type Definitions"): the reference into a table of
//! types, or what keeps the type from a meaning.
//!
//! The layers above link components, and read the declarations of instance types. They ask for the meaning of each type of values or
//! functions, for what an import or an export is to be, for a type in which the numbers of resources are changed, and for the type of
//! what a built-in passes. What `link_spec` defines is what contracts speak of. What fails here fails for want of memory alone.
//!
//! - `levels`: what outer aliases see
//! - `values`: the numbers of parts of types; `numbered`: of fields, cases and places
//! - `value_layers`: written types of values over the numbers of their parts; `value_meanings`: their meanings
//! - `funcs`: types of functions; `descriptions`: what imports and exports are to be
//! - `moving`: closed types in which the numbers of resources are changed
#![tactic(auto)]

mod descriptions;
mod funcs;
mod levels;
mod moving;
mod numbered;
mod value_layers;
mod value_meanings;
mod values;

pub use descriptions::{described, wanted};
pub use funcs::func_meaning;
pub use levels::{Enclosing, Level};
pub use moving::{moved_extern, moved_type};
pub use value_meanings::value_meaning;
pub use values::held_value;
