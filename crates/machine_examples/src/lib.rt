//! More examples of the machine of the Canonical ABI (Component Model, CanonicalABI.md; Concurrency.md), beside those of `abi_machine`: what
//! two tests, two calls or two tasks come to that meet. Laws over definitions, without a body.
//!
//! - `laws`: the examples, whose worlds `specs` has
#![tactic(auto)]

mod laws;

pub use laws::{
    awaited_calls_give_back, backpressure_has_a_limit, calls_are_not_told_twice,
    cancellations_are_told_first, cancellations_wait_for_entry, cancelled_calls_are_awaited,
    choices_cost_nothing, copies_hide_from_sets, dropped_ends_leave_their_set,
    empty_reads_stay_apart, exited_callers_are_not_called_back, passed_ends_leave_their_set,
    post_returns_stay_inside, reallocs_run_for_readers, refused_liftings_are_not_undone,
    results_are_lifted_first, returned_tasks_are_left_alone, sets_are_counted,
    sets_wait_for_their_waiters, subtasks_are_dropped_late, synchronous_tasks_are_told_next,
    waited_copies_are_kept, waits_test_their_place,
};
