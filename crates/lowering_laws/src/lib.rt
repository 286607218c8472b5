//! Values, memories and stores, apart from any machine of calls (Component Model, CanonicalABI.md, "Loading", "Storing", "Flat Lifting",
//! "Flat Lowering"): definitions and laws, without a body.
//!
//! Between lowering and lifting stands what the reallocs of a component answer: where the places lie apart, `specs/ApartPlaces`, a
//! value that was lowered stands, and lifting gives it back. `specs/Values` says which values are of a type, `specs/Settling` how a
//! plan goes over a memory, `specs/ValueRooms` how it does in a room, and `specs/ValueLaws` what holds then. What is lifted is of its
//! type, `specs/LiftedValues`, so that it can be lowered again. `specs/StoreBytes` says that modules and stores hold bytes, and
//! `proofs/` has what steps of core code, segments and calls leave of that, for the machines above.
//!
//! - `laws`: what holds of values that were lowered, and of those that are lifted
//! - `examples`: texts that are lowered into a small memory
#![tactic(auto)]

pub mod examples;
mod laws;

pub use laws::{
    core_values_are_typed, fitting_values_are, followed_plans_settle, lifted_values_are,
    lowered_values_stand, lowered_words_are_lifted, lowered_words_are_typed, lowered_words_stand,
    memories_are_bytes, other_bytes_stay, placed_values_stand, standing_values_are,
    stored_lists_are_loaded, stored_lists_stand, stored_values_are_loaded, stored_values_stand,
    values_of_types_fit,
};
