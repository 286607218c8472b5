//! Runs of the machine of asynchronous calls, of what is kept of a world (Component Model, CanonicalABI.md; Concurrency.md, "Summary"):
//! definitions and laws, without a body.
//!
//! `machine_runs` says what steps and runs over what is kept are, `abi_machine` what those of worlds are, and `standing` when what is kept
//! stands for a world. `specs/Points` says where both are between the steps of the former, and what it means that a step does what the machine
//! does; `specs/Dispatch` that calls of canonical functions do, where each function's answer does, `specs/Answering` that each answer does, and
//! `specs/Turns` that turns do. What of the premises of answers laws of reached worlds give is in `specs/Reached`, and what marks give in
//! `specs/KeptMarks`. `specs/Runs` has runs of core code, `specs/Instantiation` instantiation, `specs/Lowered` lowerings, and `specs/Lifted`
//! liftings, over `specs/Taking` for one index of a table; of copies, `specs/Elements` the elements that are lowered, `specs/Copied` those that go
//! over, `specs/Completed` the end of the call that met an offer, and `specs/Transfers` all of it; and `specs/Entered` has tasks that enter, `specs/Results`
//! results, `specs/AsyncEnds` functions lifted with `async` that end, `specs/Destructors` destructors, `specs/Passings` whatever is passed, and
//! `specs/Steps` a step as a whole, and `specs/Whole` a whole run. What is asked where no task runs is given by `specs/TaskLists`, from the lists of tasks that
//! are kept, and `specs/Programs`, from how a program is made.
//!
//! `standing` says what the marks are: who holds and waits for exclusive entry, how many tasks wait on sets, how often handles are lent, how many borrow
//! handles tasks have, who waits directly for a subtask, and the states of subtasks, each as it follows from tasks and tables. `specs/keeping/Kept` says that
//! a part of a step keeps all of them, and names what is asked for it; `specs/keeping/Answers` that answers of canonical functions do, `specs/keeping/Moves`
//! moves of tasks and the script's calls, `specs/keeping/Events` calls that come back, and events, `specs/keeping/Cancels` that subtasks that are cancelled
//! do, `specs/keeping/Instantiating` instantiation and runs of core code, `specs/keeping/Liftings` and `specs/keeping/Lowerings` values that are lifted and
//! lowered, and `specs/keeping/Passings` whatever is passed, with what tables are then in `specs/keeping/Tables`; `specs/keeping/Acting` and
//! `specs/keeping/Stepping` a move of the acting task as a whole, `specs/keeping/Turning` turns, `specs/keeping/Steps` a step as a whole, and `specs/keeping/Ends` what
//! built-ins keep of what is said of ends. `specs/keeping/Well` has what else of tasks and calls every part keeps, and
//! `specs/keeping/WellKept` that it does, and `specs/keeping/Hearing` what stays of subtasks where an event is to come. What of that which they ask follows
//! from that what is kept stands for a world, or from that a run reaches that world, is in `specs/keeping/Supplied` and `specs/keeping/CancelsKept`; and
//! `specs/Supplied` has what is asked of a move where both are so and the marks are right, `specs/SuppliedWorlds` and `specs/SuppliedEarly` what follows of
//! reached worlds, `specs/SuppliedMemories` what of graphs that can run, and `specs/SuppliedPassings` what is asked where values are passed. That each step keeps the lists of tasks is in `specs/keeping/Lists`, and that it
//! keeps memories, and ends where no values are passed, in `specs/keeping/Still`. `specs/Carried` joins all this: what is carried from point to point of a run, so that
//! the run is the machine's; `specs/Left` has what it leaves, `specs/Fronts` what it has told so far, and
//! `specs/Beyond` where it may go beyond what is run.
//!
//! - `beyond`: where a run goes beyond what is run
//! - `carried`: what is carried from point to point of a run, and whole runs
//! - `dispatch`: calls of canonical functions
//! - `fronts`: what is told of a run so far
//! - `knowing`: what is asked of a move, from that a run reaches the world
//! - `lifting`: values that are lifted
//! - `marking`: what keeps all marks
//! - `running`: runs of core code, instantiation, lowerings, copies, tasks that enter, and results
//! - `staying`: what every step keeps beside marks of tasks
//! - `stepping`: ends of core functions that are lifted with `async`, destructors, values that are passed, steps as a whole, and whole runs
//! - `supplying`: what is asked of a move, where a run reaches the world
//! - `turns`: turns, where no task runs
#![tactic(auto)]

mod beyond;
mod carried;
mod dispatch;
mod fronts;
mod knowing;
mod lifting;
mod marking;
mod running;
mod staying;
mod stepping;
mod supplying;
mod turns;

pub use beyond::steps_are_found;
pub use carried::{
    dumps_agree, ends_are_supplied, passings_are_supplied, places_are_supplied, programs_pass,
    runs_are_carried, runs_are_of_machine,
};
pub use dispatch::{all_answer, calls_agree, canons_alike, marks_last, worlds_supply};
pub use fronts::so_far_is_of_machine;
pub use knowing::{early_calls_are_inside, worlds_are_supplied};
pub use lifting::{indices_agree, liftings_agree};
pub use marking::{
    acting_keeps_all_marks, answers_keep_all_marks, cancels_are_kept, end_builtins_keep_ends,
    events_keep_all_marks, hearing_stays_own, instantiation_keeps_all_marks,
    liftings_keep_all_marks, lists_stay, moves_keep_all_marks, moving_steps_keep_all_marks,
    passings_keep_all_marks, reached_marks_may_stay, steps_keep_all_marks, tables_are_sound,
    turns_keep_all_marks, what_is_kept_stays_well,
};
pub use running::{
    copies_are_completed, copies_transfer, elements_go_over, elements_stand, instantiation_agrees,
    lowerings_stand, results_pass, run_steps_agree, tasks_enter,
};
pub use staying::{
    ends_are_kept, handles_alone_are_lent, memories_stay, moves_keep_ends, places_are_kept,
};
pub use stepping::{
    async_functions_end, destructors_pass, passings_lead, steps_are_made, whole_runs_agree,
};
pub use supplying::{
    arguments_are_supplied, events_are_supplied, fitting_moves_are_supplied, instances_are_there,
    memories_are_named, moves_are_supplied, rests_are_supplied, words_are_supplied,
};
pub use turns::{programs_are_named, turns_agree, turns_are_kept};
