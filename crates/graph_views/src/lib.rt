//! What is looked up in a graph while it runs (Component Model, CanonicalABI.md, "Canonical ABI Options", `canon lift`, `canon lower` and the
//! built-ins).
//!
//! Each look-up by a number answers whether something is there, so that no call has a condition.
//!
//! - `canons`: canonical functions by their numbers, and what each uses
//! - `names`: the names of built-ins
//! - `callees`: the functions that tasks run, and resources
#![tactic(auto)]

mod callees;
mod canons;
mod names;

pub use callees::{kind_of, lift_of, lifted_at, resource_at};
pub use canons::{
    canon_at, flag_at, flag_of, instance_of, is_async, is_made_in, options_at, options_of,
};
pub use names::builtin_of;
