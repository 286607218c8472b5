//! What a component instance has in a run: its table, its waitable sets, and who may enter it (Component Model, CanonicalABI.md,
//! "Component Instance State").
//!
//! Contracts see an instance as the slots of its table, its sets and its gate. Each call is one of a table, of handles, of sets or
//! of a gate; what those ask for is tested here, so that no call has a condition.
//!
//! - `entry`: what stands in a table: a handle, a subtask, a set, or the end of a stream or a future
//! - `instance`: an instance, and what stands at an index
//! - `entries`: entries that come and go
//! - `handles`: handles and readable ends that are lifted and lowered
//! - `sets`: waitable sets
//! - `entering`: who enters, and the backpressure
//! - `refusal`: why a call does nothing
#![tactic(auto)]

mod entering;
mod entries;
mod entry;
mod handles;
mod instance;
mod refusal;
mod sets;

pub use entry::{EndEntry, WorldEntry};
pub use instance::Instance;
pub use refusal::{DropSetError, LendError, SetError};
