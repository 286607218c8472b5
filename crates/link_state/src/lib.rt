//! Linking as it stands (Component Model, Explainer.md, "Index Spaces"), and what changes it without regard to types: core instances,
//! and instances of components and of named exports.
//!
//! The layer above links the other items over a `Linker`, and goes through those of a component. Each call says which linking of
//! `link_spec` the linker stands for behind it, as `specs/State` tells.
//!
//! - `linker`, of `scope` and `canons`: linking as it stands, the index spaces of a component instance, and the core functions that
//!   functions are lowered to
//! - `levels`: what outer aliases see of component instances
//! - `core_instances` and `core_aliases`: core instances, and aliases of what they export
//! - `named` and `instances`: definitions under names, and what an instance comes to
//! - `graphs`: the graph of what is linked
#![tactic(auto)]

mod canons;
mod core_aliases;
mod core_instances;
mod graphs;
mod instances;
mod levels;
mod linker;
mod named;
mod scope;

pub use core_aliases::link_core_alias;
pub use core_instances::link_core_instance;
pub use graphs::graph_of;
pub use instances::{Next, link_instance};
pub use levels::levels_at;
pub use linker::{INSTANCE_LIMIT, Linker, ROOT};
pub use scope::Scope;
