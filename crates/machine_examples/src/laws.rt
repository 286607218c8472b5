//! Examples of the definitions, worked out by hand (Component Model, CanonicalABI.md; Concurrency.md): an item, an instruction and a task
//! that goes on cost a unit each, and nothing else costs one.

ghost use Rattle.std.specs.Prelude.{[], ◌∷◌};
ghost use Rattle.comp_graph.specs.Graph.{no_options};
ghost use Rattle.abi_machine.specs.declared.run_end.RunEnd.TheVariants.{Done, Fuel, Trapped};
ghost use Rattle.trace_labels.specs.declared.trap.TrapName.TheVariants as trap;
ghost use Rattle.abi_machine.specs.examples.Parts.{Leaves, Shows, asynchronous, callback, one_call};
ghost use Rattle.abi_machine.specs.examples.Backpressure.{holding, holding_world};
ghost use Rattle.abi_machine.specs.examples.Cancelling.{waiting, waiting_world};
ghost use Rattle.abi_machine.specs.examples.Handles as handles;
ghost use Rattle.abi_machine.specs.examples.Streams.{texting};
ghost use Rattle.machine_examples.specs.Calling as calling;
ghost use Rattle.machine_examples.specs.Cancelling as cancelling;
ghost use Rattle.machine_examples.specs.Ends as ends;
ghost use Rattle.machine_examples.specs.Lifting as lifting;
ghost use Rattle.machine_examples.specs.Limits as limits;
ghost use Rattle.machine_examples.specs.Passing as passing;
ghost use Rattle.machine_examples.specs.Sets as sets;

/// A wait that a cancellation ends tells that it is asked before any event, in eight bytes as events are told; the next wait tells the event.
pub fn cancellations_are_told_first()
    ensures { Leaves cancelling.waits_twice cancelling.called_and_cancelled cancelling.waits_twice_world cancelling.told_first Done 28 cancelling.told_of_drop cancelling.both_events }
{}

/// A task whose function is lifted without `async` does not go on where its cancellation is asked; the next `yield` that a cancellation ends
/// tells it.
pub fn synchronous_tasks_are_told_next()
    ensures { Shows cancelling.yields_twice cancelling.called_and_cancelled cancelling.yields_twice_world cancelling.told_next Done 7 }
{}

/// A task in its loop is told that its cancellation is asked once no other one holds exclusive entry, also where it waits on a set in which
/// no member is ready: a cancellation that it is asked for while entry is held ends its wait then, and not at once.
pub fn cancellations_wait_for_entry()
    ensures turns { Shows cancelling.held_loop cancelling.held_and_cancelled cancelling.held_loop_world cancelling.told_when_free Done 10 }
    ensures waits { Shows cancelling.held_wait cancelling.held_and_cancelled cancelling.held_wait_world cancelling.wait_ended_when_free Done 12 }
{}

/// A task that has returned is not asked to come to an end.
pub fn returned_tasks_are_left_alone()
    ensures { Shows cancelling.lingers cancelling.called_and_cancelled cancelling.lingers_world cancelling.left_alone Done 6 }
{}

/// A task that cancels a call waits until the call has resolved, or goes on at once, and does not ask twice.
pub fn cancelled_calls_are_awaited()
    ensures waits { Shows calling.calling one_call (calling.calling_world calling.cancels) calling.cancel_awaited Done 12 }
    ensures asks { Shows calling.calling one_call (calling.calling_world calling.cancels_twice) calling.cancel_asked (Trapped 1 trap.Asked) 8 }
{}

/// A subtask leaves its table once its caller was told that the call has resolved.
pub fn subtasks_are_dropped_late()
    ensures { Shows calling.calling one_call (calling.calling_world calling.drops_early) calling.dropped_early (Trapped 1 trap.NotDelivered) 5 }
{}

/// The state that a call answered is no event.
pub fn calls_are_not_told_twice()
    ensures { Leaves calling.calling one_call (calling.calling_world calling.polls) calling.nothing_new Done 15 calling.polled_tables calling.polled_bytes }
{}

/// A call does not come back to the instance of a caller that has exited.
pub fn exited_callers_are_not_called_back()
    ensures { Shows calling.late one_call calling.late_world calling.came_late (Trapped 2 trap.Reentrant) 6 }
{}

/// A post-return may set words of its task, and call nothing else.
pub fn post_returns_stay_inside()
    ensures { Shows calling.after one_call calling.after_world calling.held_after (Trapped 1 trap.CannotLeave) 4 }
{}

/// A copy for which a task waits is told to that task alone, also where its end is a member of a set.
pub fn copies_hide_from_sets()
    ensures { Leaves ends.sharing ends.read_and_other (ends.sharing_world ends.writes) ends.hidden Done 26 ends.shared ends.no_event_bytes }
{}

/// A copy for which a task waits is not cancelled.
pub fn waited_copies_are_kept()
    ensures { Shows ends.sharing ends.read_and_other (ends.sharing_world ends.cancels) ends.not_cancelled (Trapped 2 trap.NotCopying) 15 }
{}

/// An end that is dropped leaves its set, which may be dropped then.
pub fn dropped_ends_leave_their_set()
    ensures { Shows ends.leaving one_call ends.leaving_world ends.left_set Done 11 }
{}

/// A set is not dropped while a task waits on it, in its loop or in a wait.
pub fn sets_wait_for_their_waiters()
    ensures in_loop { Shows (sets.waited (callback 0 4)) sets.wait_and_drop sets.in_loop sets.loop_waits (Trapped 2 trap.Waiters) 7 }
    ensures in_wait { Shows (sets.waited asynchronous) sets.wait_and_drop sets.in_wait sets.wait_waits (Trapped 2 trap.Waiters) 9 }
{}

/// A wait looks for its set first. Then it tests that the place of its event is aligned, and then that it is in the memory: a place that
/// is neither is misaligned.
pub fn waits_test_their_place()
    ensures set { Shows (sets.waited asynchronous) sets.one_wait (sets.in_place 2 6) (sets.wait_refused 2 6) (Trapped 1 trap.Absent) 6 }
    ensures both { Shows (sets.waited asynchronous) sets.one_wait (sets.in_place 1 6) (sets.wait_refused 1 6) (Trapped 1 trap.Misaligned) 6 }
    ensures aligned { Shows (sets.waited asynchronous) sets.one_wait (sets.in_place 1 4) (sets.wait_refused 1 4) (Trapped 1 trap.Bounds) 6 }
{}

/// What a lifting that is refused has lent or taken before stays so.
pub fn refused_liftings_are_not_undone()
    ensures lent { Leaves (handles.passing (handles.borrowed ∷ handles.owned ∷ [])) one_call handles.both_world handles.lent_then_given (Trapped 2 trap.Lent) 6 lifting.still_lent lifting.no_bytes }
    ensures taken { Leaves (handles.passing (handles.owned ∷ handles.borrowed ∷ [])) one_call handles.both_world (handles.passed (1 ∷ 1 ∷ [])) (Trapped 2 trap.Absent) 6 lifting.given_away lifting.no_bytes }
{}

/// The realloc of a copy runs for the task that reads, and a trap names the one that acts.
pub fn reallocs_run_for_readers()
    ensures words { Shows passing.talking one_call (passing.talking_world passing.sets_word) passing.word_kept Done 25 }
    ensures traps { Shows passing.talking one_call (passing.talking_world passing.too_far) passing.begins (Trapped 1 trap.Bounds) 14 }
{}

/// A read of no text meets no write of its own instance either.
pub fn empty_reads_stay_apart()
    ensures { Shows texting one_call passing.texting_world passing.met_inside (Trapped 1 trap.SameInstance) 11 }
{}

/// A result is lifted before it is tested that the task has not returned.
pub fn results_are_lifted_first()
    ensures { Shows passing.twice one_call passing.twice_world passing.bad_char (Trapped 2 trap.BadChar) 6 }
{}

/// An end that is passed leaves its set.
pub fn passed_ends_leave_their_set()
    ensures { Shows passing.giving one_call passing.giving_world passing.given Done 12 }
{}

/// A call that is waited for gives back what was lent for it.
pub fn awaited_calls_give_back()
    ensures { Shows passing.lends one_call passing.lends_world passing.lent Done 14 }
{}

/// Sets that are made one after the other get the indices 1 to 65,535.
pub fn sets_are_counted()
    ensures { sets.SetsAreCounted }
{}

/// Backpressure rises to 65,535.
pub fn backpressure_has_a_limit()
    ensures { Shows limits.pressing one_call limits.pressing_world limits.pressed (Trapped 1 trap.PressureLimit) 2 }
{}

/// Where all units are used an alternative is still chosen, which costs nothing. A cancellation of the script that takes the last unit is still asked
/// for; the task, which a unit lets go on, does not.
pub fn choices_cost_nothing()
    ensures chosen { Shows holding limits.three_units holding_world limits.chosen_last Fuel 3 }
    ensures cancelled { Shows waiting limits.five_units waiting_world limits.cancelled_last Fuel 5 }
{}
