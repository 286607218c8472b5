//! What items come to by what their indices name, apart from the state of linking (Component Model, Explainer.md and
//! CanonicalABI.md).
//!
//! The layer above looks indices up, and links items. Each function here answers what `link_spec` computes of the same.
//!
//! - `lifts` and `lowers`: lifts of core items, and lowers of functions, with what options give
//! - `returns`: built-ins that return results
//! - `used`: what lowers and built-ins use of what options give
//! - `resources`: types of resources that are defined, their destructors, and their numbers
//! - `asking`: what imports and exports are to be, where something is given for them
#![tactic(auto)]

mod asking;
mod lifts;
mod lowers;
mod resources;
mod returns;
mod used;

pub use asking::wanted_of;
pub use lifts::lifted_to;
pub use lowers::lowered_from;
pub use resources::{destructor_of, resource_number, resource_written};
pub use returns::returning;
pub use used::can_be_used;
