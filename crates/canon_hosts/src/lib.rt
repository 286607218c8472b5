//! The core functions that the Canonical ABI makes, as functions of the host in a store (Component Model, CanonicalABI.md, "Canonical
//! Definitions", "Flattening").
//!
//! - `canon_types`: their types: those of functions that are lowered; `builtin_types`: those of built-ins
//! - `hosting`: the store that has them, before anything is instantiated
#![tactic(auto)]

mod builtin_types;
mod canon_types;
mod hosting;

pub use canon_types::canon_func_types;
pub use hosting::first_store;
