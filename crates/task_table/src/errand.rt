//! What a task runs, and what it is at.

/// What a task runs.
#[derive(Clone, Copy)]
pub enum Callee {
    /// It instantiates the component.
    Init,
    /// It runs the exported function of this number.
    Export(usize),
    /// It runs the function that the canonical function of this number lowers.
    Lowered(u32),
    /// It runs the destructor of the resource of this number.
    Destroys(u32),
}

/// What a task is at, beside its phase.
#[derive(Clone, Copy)]
pub enum Errand {
    /// Nothing: it is new, runs, waits to enter or in its loop, or has exited.
    None,
    /// It called a task, and goes on when control is back.
    AfterCall {
        /// The task that it called.
        callee: u32,
        /// The number of the canonical function by which it called.
        canon: u32,
    },
    /// It cancelled a task, and goes on when control is back.
    AfterCancel {
        /// The task that it cancelled.
        callee: u32,
        /// The number of the canonical function by which it cancelled.
        canon: u32,
        /// The index of the subtask in its instance's table.
        index: u32,
    },
    /// A start function runs, and behind it comes the action of this number.
    Begins(usize),
    /// It is blocked in a canonical function.
    InBuiltin {
        /// The number of the canonical function.
        canon: u32,
    },
}
