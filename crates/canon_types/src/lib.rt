//! What canonical functions ask of core definitions (Component Model, Explainer.md, "Canonical Definitions"), by types and numbers.
//!
//! The layer above links components: it looks up what options name, and compares what it finds with what is asked for here. What
//! `link_spec` and `comp_graph` define is what contracts speak of. Nothing here takes longer for a function of many parameters.
//!
//! - `options`: the options of canonical functions, by their kinds
//! - `func_types`: the types of the core functions that lifts and lowers ask for and make
//! - `builtins`, on `builtin_types`: built-ins, with the types of their core functions, and what one comes to as it is written
//! - `elements`: what passes in streams and futures; `end_types`: their types by numbers, each once
//! - `needs`: whether lifts, lowers and built-ins ask for a memory, and for a function that gives places in it
#![tactic(auto)]

mod builtin_types;
mod builtins;
mod elements;
mod end_types;
mod func_types;
mod needs;
mod options;

pub use builtin_types::{callback_type, destructor_type};
pub use builtins::{
    Built, BuiltinMeant, context_builtin, end_builtin, no_builtin, plain_builtin, resource_builtin,
    return_builtin, wait_builtin,
};
pub use elements::{elements_of, lowers_list};
pub use end_types::{EndNumbers, canon_number, note, type_number};
pub use func_types::{lift_type, lower_type, post_return_type, realloc_type};
pub use needs::{
    held_type, lift_needs_memory, lift_needs_realloc, lower_needs_memory, lower_needs_realloc,
    return_needs_memory,
};
pub use options::{OptionIndices, are_there, has_async, indices_of, stand_once};
