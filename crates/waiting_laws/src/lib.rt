//! What tasks wait for in vain where a run of the machine ends in deadlock, and what callers are told of subtasks in its course
//! (Component Model, CanonicalABI.md; Concurrency.md, "Summary"): definitions and laws, without a body.
//!
//! `specs/Missing` says for each way to wait what is missing, and `specs/Deadlocks` what a deadlock is. `specs/Offers` has what the cases on copies rest on:
//! where nothing is to be told of a copy under way, the other end was not dropped. `specs/Telling` says how the states of subtasks that callers are told
//! follow each other in a run, and `specs/Events` what the events of subtasks tell.
//!
//! - `laws`: the laws
#![tactic(auto)]

mod laws;

pub use laws::{events_tell_news, offers_are_open, states_rise_along_runs, tasks_wait_in_vain};
