//! Tables of handles (Component Model, CanonicalABI.md, "Table State").
//!
//! Contracts see a table as its slots, a list of the freed indices, the one removed last first, and how many entries can be
//! added without memory. The history of adds and removals is not kept: a clause `stands` says for every history that a table
//! stands for what a call adds to it.
//!
//! - `table`: the table
//! - `slot`: a slot of it
//! - `refusal`: why an entry is not added
//! - `laws`: what holds of every history
#![tactic(auto)]

pub mod laws;
mod refusal;
mod slot;
mod table;

pub use refusal::{AddError, Full};
pub use table::Table;
