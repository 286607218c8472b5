//! Tasks and subtasks (Component Model, CanonicalABI.md, "Task State" and "Subtask State").
//!
//! A task is one call of a component function as its callee sees it, and a subtask the same call as its caller sees it.
//! What happened to them is not kept: a clause `stands` says for every history what a call adds to it.
//!
//! - `task`: a task, and what happens to it
//! - `event`: what may happen to a task, where it blocks, and why something is refused
//! - `phase`: how far a task is
//! - `subtask`: a subtask
//! - `subtask_state`: how far a subtask is
//! - `laws`: what holds of every run
#![tactic(auto)]

mod event;
pub mod laws;
mod phase;
mod subtask;
mod subtask_state;
mod task;

pub use event::{Asked, BlockedAt, TaskEvent, TaskTrap};
pub use phase::{Caller, Cancellation, Phase, Resolution};
pub use subtask::Subtask;
pub use subtask_state::SubtaskState;
use syntax_trees::Seq;
pub use task::Task;

/// A list of table indices.
pub type Nums = Seq<u32>;
