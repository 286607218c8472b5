//! The machine of the Canonical ABI (Component Model, CanonicalABI.md; Concurrency.md): definitions, without a body.
//!
//! `specs/World` says what a world is, and `specs/Control` what it may do next; `specs/Next` gives what comes next, a step or the end, by cases
//! on that; `specs/Edits` has every change that a step makes of a world. What is looked up and computed is said by `specs/Canons` of
//! graphs, and by `specs/Reading`, `specs/Counting`, `specs/Gate` and `specs/Finding` of worlds; how built-ins answer by `specs/Reply` and
//! `specs/replies`; which values are passed and how by `specs/Passing`, and what indices in them do by `specs/Lifting` and
//! `specs/Pausing`. `specs/Run` says what a run is, with its lines and its end, and `specs/Dump` what it leaves.
//!
//! Tables, handles, sets, tasks, gates, the ends of streams and futures, and choices are those of their crates. How values with handles
//! and ends are lifted from worlds is said by `specs/LiftingOver`, how they are lowered into them by `specs/LoweringOver`, and which types
//! are the same by `specs/SameTypes`; `value_lift`, `value_lower` and `laid_types` say it of tables, and are to stand in their place.
//!
//! - `run_end`: how a run ends
//! - `examples`: the machine on small examples, which `specs/examples` has
//! - `laws`: what every step keeps
//! - `values`: values, words, places of copies and typed worlds, kept under premises
#![tactic(auto)]

pub mod examples;
mod laws;
mod run_end;
mod values;

pub use laws::{
    answers_are_words, borrows_are_given_back, by_canons_stay, called_stay, callees_stay,
    calls_have_tasks, calls_stay_fit, cancels_stay, copies_stay, copies_stay_awaited,
    copies_stay_held, core_moves_stay_typed, counts_stay, deadlocks_are_real,
    definitions_stay_apart, ends_have_causes, events_come, functions_are_there, handles_stay_lent,
    histories_stay, init_runs_alone, instantiation_goes_on, limits_stay, lines_tell_tasks,
    loans_stay, loops_stay, members_stay, no_borrow_is_passed, nothing_is_held, numbers_stay,
    one_holder_stays, one_run, own_callers_stay, picked_is_there, places_are_given,
    readers_stay_in_one_place, runs_end, scripts_are_there, set_waits_stay, states_rise,
    steps_are_changes, subtasks_stay, tasks_go_on, tasks_resolve_first, tasks_stay_ordered,
    told_states_stay, typed_code_goes_on, waits_are_there, waits_stay, worlds_go_on,
    writers_stay_in_one_place,
};
pub use run_end::RunEnd;
pub use values::{
    copies_stay_inside, lifted_values_are_typed, plans_give_words, typed_worlds_stay,
    words_stay_kept,
};
