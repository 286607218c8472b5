//! What a run leaves, as text (Component Model, CanonicalABI.md, "Component Instance State"; Core 2.0, section 4.2.8): of the component instances
//! that have begun the live entries of their tables, and the memories with their bytes.
//!
//! - `entries`: an entry of a table, as it is shown
//! - `tables`: the live entries of tables
//! - `dumping`: the text
#![tactic(auto)]

mod dumping;
mod entries;
mod tables;

pub use dumping::dump_text;
