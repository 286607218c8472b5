//! Why something does not happen.

use tasks::TaskTrap;
use thiserror::Error;

/// Why an event does not happen to a task, which is as it was.
#[derive(Clone, Copy, Debug, Drop, Error)]
pub enum EventError {
    /// The task is in no state for it.
    #[error("the task is in no state for it")]
    NotNow,
    /// It is a trap.
    #[error("{0}")]
    Trap(TaskTrap),
}

/// Why no handle is lent for a call. The call is as it was.
#[derive(Clone, Copy, Debug, Drop, Error)]
pub enum LendError {
    /// No task called, or the call is resolved.
    #[error("there is no call that isn't resolved")]
    NoCall,
    /// There is no memory for one more.
    #[error("there is no memory for one more loan")]
    Memory,
}
