//! What a run keeps of one task (Component Model, CanonicalABI.md, "Task State" and "Subtask State").
//!
//! A slot has no model: its fields are data, and a room can hold one of them beside another. Contracts see it as the record of its
//! fields. What the calls of a task and of a subtask ask for is tested here, so that no call has a condition.
//!
//! - `slot`: a slot
//! - `table`: all tasks of a run, and those that have not exited
//! - `caller`: who called the task, and the caller's side of the call
//! - `errand`: what the task is at
//! - `refusal`: why something does not happen
#![tactic(auto)]

mod caller;
mod errand;
mod refusal;
mod slot;
mod table;

pub use caller::{Called, Caller};
pub use errand::{Callee, Errand};
pub use refusal::{EventError, LendError};
pub use slot::TaskSlot;
use syntax_trees::Seq;
pub use table::Tasks;

/// A list of core values.
pub type Words = Seq<u64>;
