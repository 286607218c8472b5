//! Which alternative a run takes where it has several: the picks of the script, in order.
//!
//! Contracts see the picks that are left.
//!
//! - `picks`: the picks, and the one that is used next
//! - `laws`: what holds of every run of choices
#![tactic(auto)]

pub mod laws;
mod picks;

pub use picks::Picks;
