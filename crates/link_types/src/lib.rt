//! Numbers in place of trees: types of functions and of instances, in tables, over types of values, where a type is told by
//! numbers, and two types are the same exactly where their numbers are. The trees are the closed types of `comp_graph`.
//!
//! - `labels` and `laid_func`: labels with the numbers of value types, which function types are made of; what lifts and lowers ask of these
//! - `kept_func`: function types, each with what lifts and lowers ask of it
//! - `types`: the table of types
//! - `naming` and `renumbering`: whether types name a resource; types in which the numbers of resources are changed
//! - `maker`: types of instances, made export by export
//! - `asked`: what a type of instances asks for
//! - `laws`: what holds of tables of types
#![tactic(auto)]

mod asked;
mod kept_func;
mod labels;
mod laid_func;
pub mod laws;
mod maker;
mod naming;
mod renumbering;
mod types;

pub use asked::{asked_at, asked_count, asked_named, take_looks};
pub use labels::LabelledType;
pub use laid_func::LaidFunc;
pub use link_values::{
    Change, ExternRef, FuncTypeRef, InstanceTypeRef, Listing, Meant, Names, RESOURCE_ROOM, TypeRef,
    first_brought,
};
pub use maker::InstanceTypeMaker;
pub use naming::names_resource;
pub use renumbering::{changed_func, changed_value};
pub use types::{NESTING_LIMIT, Types};
