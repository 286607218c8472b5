//! Components as trees (Component Model, Explainer.md).
//!
//! A component is its items, in file order, each with its place. The reader of the binary format makes the tree, and linking
//! gives it its meaning. Both stand on this crate, and neither on the other.
//!
//! - `items`: components, their items, and canonical functions with their options
//! - `builtins`: canonical built-ins
//! - `core_instances`: core instances
//! - `instances`: instances and aliases
//! - `types`: types as they are written
//! - `externs`: imports and exports
#![tactic(auto)]

mod builtins;
mod core_instances;
mod externs;
mod instances;
mod items;
mod types;

pub use builtins::{CanonBuiltin, CanonEndOp};
pub use core_instances::{CoreArgument, CoreInlineExport, CoreInstance, CoreSort};
pub use externs::{Export, ExternDesc, Import};
pub use instances::{Alias, AliasTarget, Instance, NamedDefinition, Sort};
pub use items::{Canon, CanonOption, Component, Item};
pub use types::{
    Case, DefType, DefValType, Field, FuncType, InstanceDecl, Param, PrimValType, ValTypeRef,
};
