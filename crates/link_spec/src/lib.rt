//! Linking (Component Model, Explainer.md, "Index Spaces", "Instance Definitions" and "Canonical Definitions"), as definitions and
//! laws, with the tests of types as they are written: what each item of a component stands for, behind those before it, and which
//! item is refused, and why. Functions are lifted and lowered (CanonicalABI.md, `canon lift` and `canon lower`). `specs/Linked`
//! says it by relations, and `specs/Computed` computes the same.
//!
//! - `fault`: why an item is refused, and where
//! - `well_made`: what a type needs as it is written
//! - `written`: layers, sorts and indices of what is written
//! - `laws`: what holds of every linking
//! - `examples`: the definitions on small components
#![tactic(auto)]

pub mod examples;
mod fault;
pub mod laws;
mod well_made;
mod written;

pub use fault::{LinkFault, LinkWhy};
pub use well_made::{all_within, held_within, is_well_made, labels_are_distinct, parts_within};
pub use written::{desc_index, layer_of, sort_of};
