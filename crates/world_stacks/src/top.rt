//! The acting stack of a task.

use crate::host_call::HostCall;
use wasm_execution::Running;

/// The acting stack of a task.
pub enum Top {
    /// There is none.
    Empty,
    /// It waits at a call of a canonical function.
    Waits(HostCall),
    /// It is to run.
    Goes(Running),
}

impl Top {
    /// Lets it go.
    pub(crate) fn give_up(self) {
        match self {
            Top::Empty => {}
            Top::Waits(call) => call.give_up(),
            Top::Goes(running) => running.give_up(),
        }
    }
}
