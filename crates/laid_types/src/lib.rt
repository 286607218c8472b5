//! Types of values in a table, each over earlier ones, with what is computed of each once: sizes and alignments, core types, what
//! its values hold, how deep it nests, its parts and where its labels stand.
//!
//! Types share parts, and a type can have far more parts than there is memory. What is computed of a type here is computed from what
//! was computed of its parts. The types are those of `syntax_trees`; their sizes as trees are here too.
//!
//! - `layer`: what a type is made of, by the numbers of earlier types
//! - `flattening`: the first core types of several parts; `joining`: core types that hold what either of two holds
//! - `layout`: sizes and alignments of types as trees
//! - `holding`: what values of a type hold
//! - `labels`: where labels stand
//! - `entry`: a type with what is computed of it
//! - `trees`: types of layers
//! - `gathering`: what is computed of a type from its parts
//! - `making`: entries of layers
//! - `types`: the table
//! - `laid_type`: a type of the table; `numbered_type`: the same with its number
//! - `laws`: what holds of types alone
#![tactic(auto)]

mod entry;
mod flattening;
mod gathering;
mod holding;
mod joining;
mod labels;
mod laid_type;
pub mod laws;
mod layer;
mod layout;
mod making;
mod numbered_type;
mod trees;
mod types;

pub use joining::{alone, joined_lists};
pub use laid_type::LaidType;
pub use layer::{LabelledCase, LabelledPart, ValTypeLayer};
pub use layout::{align, size};
pub use numbered_type::NumberedType;
pub use types::LaidTypes;
