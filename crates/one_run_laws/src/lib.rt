//! At most one run of the machine of asynchronous calls, of what is kept of a world (Component Model, Concurrency.md, "Summary"): laws, without a body.
//!
//! `machine_runs` says what runs over what is kept are, and `value_moves` what passing values may come to in them, where core code runs that gives
//! out places. `specs/Once` says that this is one thing, and so is a run where there is one.
//!
//! - `laws`: what passing values comes to, and runs
#![tactic(auto)]

mod laws;

pub use laws::{passing_is_one, runs_are_one};
