//! Instances as numbers: a base, whose exports stand in a table, and the type that it is seen as. The trees are the exports and
//! definitions of `link_spec`, and the types those of `link_types`.
//!
//! - `references`: references to definitions
//! - `instances`: instances, by number
//! - `ordered`: the exports of an instance, in order
//! - `of_types`: instances whose exports are the types that a type of instances asks for
//! - `comparing`, `pairs`, `fitting`: whether a definition is what is asked for
//! - `found`: what is given for the resources that a type of instances brings
//! - `called`, of `func_lists`: the functions that can be called, and what they lift
//! - `laws`: what holds of instances that are seen as a type
#![tactic(auto)]

mod called;
mod comparing;
mod fitting;
mod found;
mod func_lists;
mod instances;
pub mod laws;
mod of_types;
mod ordered;
mod pairs;
mod references;

pub use called::{CallableFuncs, callables};
pub use fitting::Fit;
pub use instances::Instances;
pub use references::{DefinitionRef, InstanceRef, LiftedRef, seen_as};
