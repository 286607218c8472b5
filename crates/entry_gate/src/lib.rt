//! Who may enter an instance, and what its tasks with callbacks do next (Component Model, CanonicalABI.md, "Task State" and
//! `canon lift`).
//!
//! Contracts see a gate as its backpressure, the holder of exclusive entry and the number of tasks that wait to enter. The
//! tasks themselves are not kept: a clause `stands` says for every list of stays what a call changes in it.
//!
//! - `kind`: the kinds of tasks
//! - `gate`: the gate
//! - `callback`: the word that a callback answers
//! - `laws`: what holds of every run of tasks at an instance
#![tactic(auto)]

mod callback;
mod gate;
mod kind;
pub mod laws;

pub use callback::{BadCode, Next, read_callback};
pub use gate::{Gate, PressureLimit, PressureZero};
pub use kind::Kind;
