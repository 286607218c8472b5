//! What core instances export (Component Model, Explainer.md, "Instance Definitions"), at hand by names.
//!
//! The layer above links components. It makes each core module a `CoreModule` once, and each core instance a `CoreExports`,
//! which takes no room for what its module exports. A look-up by name takes as long as a map's. What `link_spec` defines
//! is what contracts speak of.
//!
//! - `core_item`: core definitions with their types, and what imports ask for
//! - `core_module`: core modules, with their index spaces and their exports by name
//! - `inline_exports` and `exports`: what core instances export
//! - `modules`: core modules by their numbers, and where types of functions stand
//! - `cores`: core modules, and the core instances that are made of them
//! - `arguments` and `imports`: what a core module that is instantiated is passed for its imports
//! - `aliases`: what an alias of an export of a core instance stands for
//! - `given`: what the options of canonical functions give
//! - `names`: names that stand twice, and names that are not there
#![tactic(auto)]

mod aliases;
mod arguments;
mod core_item;
mod core_module;
mod cores;
mod exports;
mod given;
mod imports;
mod inline_exports;
mod modules;
mod names;

pub use aliases::aliased;
pub use core_item::{CoreItem, item_at, item_named};
pub use core_module::CoreModule;
pub use cores::Cores;
pub use exports::CoreExports;
pub use given::Given;
pub use imports::externs_of;
pub use inline_exports::{InlineExport, InlineExports};
pub use names::{are_distinct, missing};
