//! Worlds as they are kept, for the crates of tests: what cases begin with, and how a world is let go.
//!
//! The public functions have no clauses: the proof of a test that calls them has nothing to read of what a world is. A crate that hands its
//! worlds to `let_go` proves nothing of how their parts are let go.
//!
//! - `worlds`: a world without anything, and one of three component instances
//! - `setting`: handles, loans, backpressure and results that are set up there
#![tactic(auto)]

mod setting;
mod worlds;

pub use setting::{add_borrow, add_own, fill, keep, lend, lift, pass, press};
pub use worlds::{add_all, let_go, nothing};
