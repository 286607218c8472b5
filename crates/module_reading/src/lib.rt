//! Core modules of bytes, for the crates of tests.
//!
//! The public functions have no clauses: the proof of a test that calls them has nothing to read of what a module is. Where a
//! function owns a module, it lends it to another one as its last step, and lets it go in one place.
//!
//! - `reading`: modules that are read, and those that are valid
#![tactic(auto)]

mod reading;

pub use reading::{checked, read_at, valid_of};
