//! Examples of the definitions, worked out by hand (Component Model, CanonicalABI.md; Concurrency.md): an item, an instruction and a task
//! that goes on cost a unit each, and nothing else costs one.

ghost use Rattle.std.specs.Prelude.{[], ◌∷◌};
ghost use Rattle.abi_machine.specs.declared.run_end.RunEnd.TheVariants.{Deadlock, Done, Trapped};
ghost use Rattle.trace_labels.specs.declared.trap.TrapName.TheVariants as trap;
ghost use Rattle.abi_machine.specs.examples.Parts.{Leaves, Shows, one_call};
ghost use Rattle.abi_machine.specs.examples.Backpressure as backpressure;
ghost use Rattle.abi_machine.specs.examples.Cancelling as cancelling;
ghost use Rattle.abi_machine.specs.examples.Futures as futures;
ghost use Rattle.abi_machine.specs.examples.Handles as handles;
ghost use Rattle.abi_machine.specs.examples.Lowering as lowering;
ghost use Rattle.abi_machine.specs.examples.Retold as retold;
ghost use Rattle.abi_machine.specs.examples.Sets as sets;
ghost use Rattle.abi_machine.specs.examples.Streams as streams;
ghost use Rattle.abi_machine.specs.examples.Subtasks as subtasks;
ghost use Rattle.abi_machine.specs.examples.Transfers as transfers;

/// While backpressure is above 0 a task that is called waits to enter. With another pick the first task goes on before the second is called,
/// which then enters at once.
pub fn backpressure_holds_back()
    ensures waits { Shows backpressure.holding (backpressure.both_calls []) backpressure.holding_world backpressure.held_back Done 9 }
    ensures picked { Shows backpressure.holding (backpressure.both_calls (1 ∷ [])) backpressure.holding_world backpressure.let_in Done 8 }
{}

/// A task that is called waits behind one that waits to enter, also where that one may.
pub fn newcomers_wait_behind()
    ensures { Shows backpressure.holding backpressure.three_calls backpressure.holding_world backpressure.waited_behind Done 11 }
{}

/// Backpressure at 0 is not lowered.
pub fn backpressure_has_an_end()
    ensures { Shows backpressure.letting one_call backpressure.letting_world backpressure.let_too_far (Trapped 2 trap.PressureZero) 2 }
{}

/// The cancellation of a task that waits in its loop comes to its callback at once.
pub fn cancellation_ends_a_wait()
    ensures { Shows cancelling.waiting cancelling.cancelling cancelling.waiting_world cancelling.cancelled Done 8 }
{}

/// The cancellation of a call that waits in its loop comes to its callback at once, and the caller is told how it ended, once.
pub fn calls_are_cancelled()
    ensures { Shows cancelling.twice one_call cancelling.twice_world cancelling.cancelled_twice (Trapped 1 trap.Delivered) 15 }
{}

/// While a task cancels a call, a poll in another task of its instance may be told that the call has returned, and then the task that cancels is
/// told so once more: the task that is cancelled has itself cancelled one of that instance, which goes on at once.
pub fn states_may_be_told_twice()
    ensures { Shows retold.retold retold.both_called retold.retold_world retold.told_twice Done 30 }
{}

/// A call that waits to enter is removed by its cancellation. Nothing was lifted: a handle that it was to get stays with its caller.
pub fn waiting_calls_are_removed()
    ensures removed { Shows cancelling.removing one_call cancelling.removing_world cancelling.call_removed Done 7 }
    ensures kept { Leaves handles.offering one_call handles.offering_world handles.offered Done 9 handles.still_owned ([] ∷ [] ∷ []) }
{}

/// A call that returns before its caller goes on makes no entry, and its result stands at the place that was passed.
pub fn calls_return_at_once()
    ensures { Leaves subtasks.at_once one_call subtasks.at_once_world subtasks.returned_at_once Done 6 ([] ∷ [] ∷ []) subtasks.at_once_bytes }
{}

/// A call whose task waits in its loop has started: its caller gets its state and its index.
pub fn calls_stay_in_their_loop()
    ensures { Shows subtasks.stays one_call subtasks.stays_world subtasks.stayed (Deadlock (2 ∷ [])) 8 }
{}

/// A call waits to enter while backpressure is above 0, and its caller is told the state that it has come to by then.
pub fn calls_wait_to_enter()
    ensures { Shows subtasks.held subtasks.hold_then_run subtasks.held_world subtasks.entered_late Done 26 }
{}

/// A task calls another one without waiting for it, and waits for its event in a set: the event's index and payload stand in the memory,
/// and so does the result.
pub fn subtasks_are_awaited()
    ensures { Leaves subtasks.working one_call subtasks.working_world subtasks.awaited Done 20 subtasks.awaited_tables subtasks.awaited_bytes }
{}

/// A task with a callback that gives the word to exit has resolved before.
pub fn tasks_resolve_before_they_exit()
    ensures first { Shows subtasks.ending one_call (subtasks.ending_world 0 0) subtasks.child_called (Trapped 2 trap.Unresolved) 2 }
    ensures later { Shows subtasks.ending one_call (subtasks.ending_world 1 0) subtasks.called_back (Trapped 2 trap.Unresolved) 5 }
{}

/// The word that a task with a callback gives has a code.
pub fn callbacks_give_codes()
    ensures first { Shows subtasks.ending one_call (subtasks.ending_world 4 0) subtasks.child_called (Trapped 2 trap.BadCode) 2 }
    ensures later { Shows subtasks.ending one_call (subtasks.ending_world 1 4) subtasks.called_back (Trapped 2 trap.BadCode) 5 }
{}

/// Of three alternatives a pick takes one, and of two the first where no pick is left.
pub fn alternatives_are_picked()
    ensures { Shows subtasks.choosing subtasks.picking subtasks.choosing_world subtasks.chosen Done 17 }
{}

/// A task that waits for what never comes.
pub fn waits_may_not_end()
    ensures { Shows sets.alone one_call sets.alone_world sets.waited_alone (Deadlock (1 ∷ [])) 6 }
{}

/// A set is not dropped while it has a member: one that leaves it, or joins another, is none.
pub fn sets_are_dropped_empty()
    ensures member { Shows sets.dropping one_call (sets.dropping_world sets.drops_at_once) sets.has_members (Trapped 1 trap.Members) 10 }
    ensures empty { Shows sets.dropping one_call (sets.dropping_world sets.drops_empty) sets.dropped_empty Done 16 }
    ensures moved { Shows sets.dropping one_call (sets.dropping_world sets.drops_left) sets.dropped_left Done 18 }
{}

/// A table holds 65,535 entries: a further one is a trap.
pub fn tables_get_full()
    ensures { Shows sets.filling one_call sets.filling_world sets.no_more (Trapped 1 trap.TableFull) 3 }
{}

/// Handles get the index that was freed last, and the destructor of a resource runs when an own handle is dropped.
pub fn handles_are_dropped()
    ensures { Leaves handles.making one_call handles.making_world handles.handles_made Done 22 handles.handle_left ([] ∷ []) }
{}

/// A handle comes from a child as its result, and is lent to the child for a call.
pub fn handles_are_lent()
    ensures { Leaves handles.lending one_call handles.lending_world handles.lent_once Done 9 handles.handle_kept ([] ∷ [] ∷ []) }
{}

/// In one call the same handle is not lent and given away.
pub fn handles_are_lent_or_given()
    ensures lent_first { Shows (handles.passing (handles.borrowed ∷ handles.owned ∷ [])) one_call handles.both_world handles.lent_then_given (Trapped 2 trap.Lent) 6 }
    ensures given_first { Shows (handles.passing (handles.owned ∷ handles.borrowed ∷ [])) one_call handles.both_world (handles.passed (1 ∷ 1 ∷ [])) (Trapped 2 trap.Absent) 6 }
{}

/// The drop of an own handle does not come back to an instance that waits for the one that drops it.
pub fn drops_do_not_come_back()
    ensures { Shows (handles.passing (handles.owned ∷ [])) one_call handles.sink_world handles.sunk (Trapped 2 trap.Reentrant) 7 }
{}

/// A task does not return while it has a borrow handle.
pub fn borrows_end_before_tasks()
    ensures { Shows handles.keeping one_call handles.keeping_world handles.kept_borrow (Trapped 2 trap.BorrowLives) 6 }
{}

/// A handle is not dropped while it is lent. Once the call is told to have returned it may be, and the destructor runs.
pub fn lent_handles_are_kept()
    ensures lent { Shows handles.holding one_call (handles.holding_world handles.drops_lent) handles.dropped_lent (Trapped 1 trap.Lent) 9 }
    ensures given_back { Shows handles.holding one_call (handles.holding_world handles.drops_given_back) handles.given_back Done 26 }
{}

/// The index that was freed last is given first.
pub fn freed_indices_are_given_again()
    ensures { Shows streams.streaming one_call (streams.streaming_world streams.reuses) streams.reused Done 12 }
{}

/// A write stands until it is read whole, and then is told of all that was read.
pub fn writes_are_read_in_parts()
    ensures { Shows streams.streaming one_call (streams.streaming_world streams.meets) streams.met Done 31 }
{}

/// A write of nothing is displaced by a read, and completed by a read of nothing; a read of nothing leaves a write alone.
pub fn empty_copies_meet()
    ensures displaced { Shows streams.streaming one_call (streams.streaming_world streams.writes_nothing) streams.nothing_written Done 21 }
    ensures completed { Shows streams.streaming one_call (streams.streaming_world streams.both_empty) streams.met_empty Done 21 }
    ensures left_alone { Shows streams.streaming one_call (streams.streaming_world streams.reads_nothing) streams.nothing_read Done 21 }
{}

/// A read is cancelled, or told of what was copied before.
pub fn reads_are_cancelled()
    ensures before { Shows streams.streaming one_call (streams.streaming_world streams.cancels) streams.cancelled_empty Done 10 }
    ensures behind { Shows streams.streaming one_call (streams.streaming_world streams.cancels_behind) streams.cancelled_behind Done 15 }
{}

/// A write of which a part was read is told that the reader has dropped its end, and the writer is done.
pub fn writes_hear_of_drops()
    ensures { Shows streams.streaming one_call (streams.streaming_world streams.drops_behind) streams.dropped_behind (Trapped 1 trap.DoneEnd) 27 }
{}

/// Elements that hold more than an integer do not go over inside an instance.
pub fn texts_stay_apart()
    ensures { Shows streams.texting one_call streams.texting_world streams.met_inside (Trapped 1 trap.SameInstance) 11 }
{}

/// The readable end of a stream goes to a child, which waits for what is written.
pub fn ends_are_passed()
    ensures { Leaves transfers.taking_bytes one_call transfers.bytes_world transfers.bytes_taken Done 22 transfers.after_bytes transfers.bytes_left }
{}

/// Texts go over to where the reader's realloc says.
pub fn texts_are_copied()
    ensures { Leaves transfers.taking_texts one_call transfers.texts_world transfers.texts_taken Done 19 transfers.after_texts transfers.texts_left }
{}

/// Two tasks read what the other one would write.
pub fn streams_may_wait_for_each_other()
    ensures { Shows transfers.crossing transfers.first_then_second transfers.crossing_world transfers.crossed (Deadlock (1 ∷ 2 ∷ [])) 14 }
{}

/// A future is read once, and the drop of the readable end does not change what its writer is told.
pub fn futures_are_read_once()
    ensures kept { Leaves futures.promising one_call (futures.promising_world futures.keeps futures.reads_and_drops) futures.kept Done 26 futures.kept_tables futures.kept_bytes }
    ensures twice { Shows futures.promising one_call (futures.promising_world futures.keeps futures.reads_twice) futures.read_twice (Trapped 2 trap.DoneEnd) 15 }
{}

/// The writable end of a future is dropped once its write is told.
pub fn futures_are_written()
    ensures unwritten { Shows futures.promising one_call (futures.promising_world futures.breaks futures.idle) futures.broken (Trapped 1 trap.UnwrittenFuture) 4 }
    ensures told { Shows futures.promising one_call (futures.promising_world futures.keeps futures.drops_readable) futures.told_of_drop Done 22 }
{}

/// A read of a future that stands is cancelled.
pub fn future_reads_are_cancelled()
    ensures { Shows futures.promising one_call (futures.promising_world futures.cancels futures.idle) futures.cancelled Done 9 }
{}

/// A call that is waited for gives its result.
pub fn calls_are_waited_for()
    ensures { Shows lowering.doubling lowering.doubling_script lowering.doubling_world lowering.doubled Done 7 }
{}

/// A text stands where the realloc of the function says.
pub fn texts_are_lowered()
    ensures { Leaves lowering.measuring lowering.measuring_script lowering.measuring_world lowering.measured Done 3 ([] ∷ []) lowering.measured_bytes }
{}

/// A call does not come back to an instance that waits for it.
pub fn calls_do_not_come_back()
    ensures { Shows lowering.coming_back one_call lowering.coming_back_world lowering.came_back (Trapped 2 trap.Reentrant) 2 }
{}
