//! Built-ins of handles, tasks, subtasks and sets, and calls, up to where a value is lifted or code runs (Component Model, CanonicalABI.md,
//! "Canonical Definitions").
//!
//! The one clause of each function says that it does what the rule of its name does (`world_parts`, in specs/). What is to be done then is
//! its answer, a `Flow`, and where the run is stands in `Parts::rest`.
//!
//! - `replying`: how canonical functions are answered
//! - `calls`: calls of functions, and control that is back
//! - `handles`: built-ins of resources
//! - `plain`: words of context, backpressure, and how a task resolves and lets others run
//! - `subtasks`: cancellation, and subtasks that leave the table
//! - `sets`: waitable sets that come and go, and their members
//! - `items`: the items of a script
//! - `tables` and `standing`: what these do to tables, instances and tasks
#![tactic(auto, using(world_parts::proofs::Thens::thens))]

mod calls;
mod handles;
mod items;
mod plain;
mod replying;
mod sets;
mod standing;
mod subtasks;
mod tables;

pub use calls::back;
pub use items::{cancel_call, take_call};
pub use plain::return_value;
pub use replying::{begin, may_leave, reply};
