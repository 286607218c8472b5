//! Parts of linking that know no tables (Component Model, Explainer.md).
//!
//! - `link_fault`: why a linking ends without a graph
//! - `standing`: components, with the component instances around them
//! - `name_list`: names that come one after the other, as the names of imports and of exports do
//!
//! What calls of linking answer beside what is computed is `specs/Told`.
#![tactic(auto)]

mod link_fault;
mod name_list;
mod standing;

pub use link_fault::{ItemError, LinkError};
pub use name_list::NameList;
pub use standing::Standing;
