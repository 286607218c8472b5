//! What holds of every run of the machine, of its tasks (Component Model, CanonicalABI.md, "Task State"; Concurrency.md, "Summary"):
//! definitions and laws, without a body.
//!
//! `abi_machine` says what a world is, what comes next and what a run is. `specs/QuietCode` says what nested code writes and changes, `specs/TaskLines` in
//! which order, and how often, the lines of a run tell of a task, `specs/TasksTold` that tasks and the end of a run are as lines tell, and `specs/Holders`
//! that one task at most holds exclusive entry to a component instance. They read lines, worlds and lists alone, `specs/QuietCode` the steps of core
//! execution too, and no rule of the machine.
//!
//! - `laws`: the laws
#![tactic(auto)]

mod laws;

pub use laws::{
    ends_name_tasks_left, nested_code_is_quiet, one_task_holds_entry, task_lines_are_in_order,
    task_lines_come_once, tasks_are_as_lines_tell, tasks_are_counted,
};
