//! Linking: what a component means once its indices are looked up (Component Model, Explainer.md).
//!
//! The layer above takes a component's graph: its core instances, in order of making, the core functions that the Canonical ABI
//! makes, and the functions that it exports, each with its core function and its type. `link` answers the one graph of a component,
//! as `link_spec` defines it, or its first item that is refused, with the place and the reason. Only want of memory keeps it from
//! either.
//!
//! - `linking`: from a component to its graph, item by item
//! - `lifts`, `lowers`, `builtins`, `ends`, `resources`, `aliases`, `types`, `imports` and `exports`: what each kind of item makes, over
//!   a linker of `link_state`, which links core instances and instances
//! - `seen`: definitions as they are asked for
#![tactic(auto)]

mod aliases;
mod builtins;
mod ends;
mod exports;
mod imports;
mod lifts;
mod linking;
mod lowers;
mod resources;
mod seen;
mod types;

pub use link_parts::LinkError;
pub use link_spec::{LinkFault, LinkWhy};
pub use linking::link;
