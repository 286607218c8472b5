//! Values that tasks pass, lifted over what is kept of a world (Component Model, CanonicalABI.md, "Loading", "Flat Lifting"): the arguments of
//! calls, results, and the elements of copies.
//!
//! A value is lifted from a memory, or from core values, and from the table of a component instance. Handles that are lent for it are kept
//! with the call and told; ends that leave the table leave their sets. That stays so where lifting stops.
//!
//! - `passing`: arguments and results
//! - `lifting`: values from the memory and the table of an instance; the elements of copies
//! - `loans`: what lifting moved in a table
//! - `memories`: the bytes of memories
//! - `names`: the names of traps
//! - `to_pass`: what is to be passed behind a move, and what passes it
#![tactic(auto, using(world_parts::proofs::Thens::thens))]

mod lifting;
mod loans;
mod memories;
mod names;
mod passing;
mod to_pass;

pub use lifting::{Origin, lift_elements, takes_more};
pub use names::lift_name;
pub use passing::{lift_arguments, lift_ended, lift_returned};
pub use to_pass::{PassesValues, Passing};
