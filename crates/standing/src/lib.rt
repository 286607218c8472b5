//! What is kept of a world, and the worlds of the machine of asynchronous calls (Component Model, CanonicalABI.md; Concurrency.md,
//! "Summary"): definitions and laws, without a body.
//!
//! `abi_machine` has the machine, whose worlds keep all that ever was; `world_parts` has what code keeps, and what each of its parts does,
//! as plain functions. `specs/Stands` says when what is kept stands for a world, field by field, over `specs/Instances` and `specs/Tasks`.
//! `specs/Edits` says that each change of what is kept is the change of the world of the same name, `specs/Agreeing` what it means that a part
//! does what the machine does: the same lines, the same trap, no rule where there is none, and what follows; and `specs/Replies`,
//! `specs/Rows`, `specs/Moves` and `specs/Callings` that built-ins and tasks do. `specs/Marks` has what is kept beside all that, and follows from it,
//! `specs/KeptMarks` what of it follows from tasks and tables alone, and `specs/MarksKept` that built-ins keep that of gates and sets.
//!
//! `specs/Channels` and `specs/Ends` have streams, futures and their built-ins, `specs/Events` and `specs/Waits` events and waitable sets.
//!
//! - `laws`: what stands, and what agrees
//! - `moves`: moves of the acting task, and calls
//! - `ends`: the same of streams, futures, sets and events
//! - `runs`: what runs of core code are in a run of components
#![tactic(auto)]

mod ends;
mod laws;
mod moves;
mod runs;

pub use ends::{channels_stand, ends_agree, ends_marked, events_agree, events_follow};
pub use laws::{
    built_ins_agree, changes_stand, first_stands, found_alike, instances_stand, marks_count,
    marks_stay, states_marked, tasks_agree,
};
pub use moves::{
    arrivals_agree, calls_agree, cancels_agree, drops_agree, resolutions_agree, returns_agree,
    waits_agree,
};
pub use runs::{
    actions_agree, calls_answered, lowerings_lead, nested_runs_lead, parts_join, plans_agree,
    post_returns_lead, stacks_lead, task_runs_lead,
};
