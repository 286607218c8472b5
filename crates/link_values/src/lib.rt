//! Numbers in place of types of values: each type stands once in a table, over earlier ones, and two types are the same exactly where
//! their numbers are. A type is looked up by its outer layer, and never by what stands deeper in it.
//!
//! - `names`: the texts of names, each once, by number
//! - `label_lists`: lists of labels, each once, by number; `texts`: the texts of labels
//! - `keys`: what tells types apart
//! - `keyed_types`: types found by their keys
//! - `value_types`: the table of types of values
//! - `layers`: the layers of types of functions and of instances, each once, by number
//! - `refs`: references into a table of types
//! - `meant`: what a part of a type comes to
//! - `listing`: what stands under names, in order
//! - `changes`: changes of the numbers of resources; `plain`: types that have none, nor parts, nor labels
//! - `laws`: what holds of such tables
#![tactic(auto)]

mod changes;
mod keyed_types;
mod keys;
mod label_lists;
pub mod laws;
mod layers;
mod listing;
mod meant;
mod names;
mod plain;
mod refs;
mod texts;
mod value_types;

pub use changes::{Change, RESOURCE_ROOM, first_brought};
pub use layers::{ExternLayer, Layer, Layers, TypeLayer};
pub use listing::Listing;
pub use meant::Meant;
pub use names::Names;
pub use plain::plain_layer;
pub use refs::{ExternRef, FuncTypeRef, InstanceTypeRef, TypeRef, are_same};
pub use texts::label_texts;
pub use value_types::ValueTypes;
