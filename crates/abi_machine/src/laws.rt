//! What every step keeps.

ghost use Rattle.abi_machine.specs.sound.Stepping.{StepsAreChanges};
ghost use Rattle.abi_machine.specs.sound.Initial.{FirstRunsAlone, StaysAlone};
ghost use Rattle.abi_machine.specs.sound.Limits.{FirstWithinLimits, StaysWithinLimits};
ghost use Rattle.abi_machine.specs.sound.Tables.{FirstHasHistories, HistoriesStay};
ghost use Rattle.abi_machine.specs.sound.Numbers.{FirstNumbered, StaysNumbered};
ghost use Rattle.abi_machine.specs.sound.Members.{FirstHasMembers, MembersStay};
ghost use Rattle.abi_machine.specs.sound.Acting.{FirstOrdered, OrderStays, TrapsNameTheActingTask};
ghost use Rattle.abi_machine.specs.sound.Called.{FirstHasCalled, CalledStay, OneWaits};
ghost use Rattle.abi_machine.specs.sound.Callers.{FirstByCanons, ByCanonsStay};
ghost use Rattle.abi_machine.specs.sound.Unique.{OneRun, OneRunFrom, FewerAreAFront};
ghost use Rattle.abi_machine.specs.sound.Passed.{FirstHoldsNothing, NothingIsHeld};
ghost use Rattle.abi_machine.specs.sound.Told.{FirstIsTold, ToldStays};
ghost use Rattle.abi_machine.specs.sound.Copies.{FirstIsCopied, CopiesStay};
ghost use Rattle.abi_machine.specs.sound.Counts.{FirstAddsUp, CountsStay};
ghost use Rattle.abi_machine.specs.sound.OpenCopies.{FirstHoldsCopies, CopiesStayHeld};
ghost use Rattle.abi_machine.specs.sound.CopyWaits.{FirstAwaitsCopies, CopiesStayAwaited};
ghost use Rattle.abi_machine.specs.sound.CopiesReached.{ReachedAwait};
ghost use Rattle.abi_machine.specs.sound.Holders.{FirstHasOneHolder, OneHolderStays};
ghost use Rattle.abi_machine.specs.sound.OwnCallers.{FirstByOwn, ByOwnStay};
ghost use Rattle.abi_machine.specs.sound.Loans.{FirstHoldsLoans, LoansStay};
ghost use Rattle.abi_machine.specs.sound.PassedTypes.{FirstHoldsNoBorrow, NoBorrowStays};
ghost use Rattle.abi_machine.specs.sound.Borrows.{BorrowsAreGivenBack};
ghost use Rattle.abi_machine.specs.sound.LentHandles.{HandlesStayLent};
ghost use Rattle.abi_machine.specs.sound.LoansReached.{ReachedHoldLoans, ReachedStayLent, ReachedStayOver};
ghost use Rattle.abi_machine.specs.sound.Rising.{StatesRise, SubtasksStayUntold};
ghost use Rattle.abi_machine.specs.sound.Loops.{FirstHasLoops, LoopsStay};
ghost use Rattle.abi_machine.specs.sound.Owners.{FirstIsOwn, OwnStays};
ghost use Rattle.abi_machine.specs.sound.Picked.{FirstIsPicked, PickedStays};
ghost use Rattle.abi_machine.specs.sound.SetWaits.{FirstHasSets, SetsStay};
ghost use Rattle.abi_machine.specs.sound.Subtasks.{FirstHasSubtasks, SubtasksStay};
ghost use Rattle.abi_machine.specs.sound.Callees.{FirstHasCallees, CalleesStay, FunctionsAreThere, DestructorsAreThere};
ghost use Rattle.abi_machine.specs.sound.TypedGoing.{MovesAreTyped, NestedMovesAreTyped, CallbacksGiveWords, InstancesAreMakeable};
ghost use Rattle.abi_machine.specs.sound.TypedStacks.{
  AnswersAreTyped,
  FirstTyped,
  InstantiationStaysTyped,
  MovesStayTyped,
  NestedMovesStayTyped,
  StayTypedLater,
};
ghost use Rattle.abi_machine.specs.sound.Writers.{FirstHasWriters, WritersStayInOnePlace};
ghost use Rattle.abi_machine.specs.sound.Readers.{FirstHasReaders, ReadersStayInOnePlace};
ghost use Rattle.abi_machine.specs.sound.GoingOn.{WorldsGoOn, ReachedStand, ReachedGoOn};
ghost use Rattle.abi_machine.specs.sound.Starting.{StartsTyped, StartedTyped, StartsGoOn};
ghost use Rattle.abi_machine.specs.sound.Functions.{ReachedFunctions, UsedGoOn};
ghost use Rattle.abi_machine.specs.sound.Guests.{FirstWaitsAs, WaitsAsStay};
ghost use Rattle.abi_machine.specs.sound.Cancels.{FirstHasCancels, CancelsStay};
ghost use Rattle.abi_machine.specs.sound.Taken.{FirstCallsHaveTasks, CallsKeepTasks};
ghost use Rattle.abi_machine.specs.sound.Events.{FirstHasEvents, EventsStay};
ghost use Rattle.abi_machine.specs.sound.Exiting.{FirstResolvesFirst, ResolveFirstStays};
ghost use Rattle.abi_machine.specs.sound.Stages.{TasksGoOn};
ghost use Rattle.abi_machine.specs.sound.Lines.{LinesTellTasks, ReachedLinesTell};
ghost use Rattle.abi_machine.specs.sound.Deadlocks.{DeadlocksAreReal, ReachedDeadlocksAreReal};
ghost use Rattle.abi_machine.specs.sound.Ending.{EndsComeWhere};
ghost use Rattle.abi_machine.specs.sound.Scripts.{ItemsAreThere, ScriptsGoOn};
ghost use Rattle.abi_machine.specs.sound.Answers.{AnswersAreWords};
ghost use Rattle.abi_machine.specs.sound.Waiting.{NoneIsAble, WaitsAreThere};
ghost use Rattle.abi_machine.specs.sound.Places.{PlacesAreGiven, PlacesGoOn};
ghost use Rattle.abi_machine.specs.sound.Fitting.{FirstFits, CallsStayFit, CopiesStayFit};
ghost use Rattle.abi_machine.specs.sound.RunsEnd.{UnitsRise, RunsEndSo};

/// Task 0 instantiates, and runs alone until it has exited; it never runs again, and no other task runs a start function. Control says
/// what is so: where a turn begins no task runs; elsewhere, but where control is back at a task or the run ends in a trap, the acting task
/// acts, is new, or may be inside its instance; what is to be copied has room at the other end; the task for which values are lowered
/// has entered; and one that is to exit has resolved. A task that is new or waits to enter has not resolved, its caller was not told that
/// it has, no live borrow handle names it, it called no other one, and it has no copy under way; a writable end stands in one place, and so
/// does a readable one, or it is passed, where the script's calls pass no end. So it is in the first world, and so it stays in every step.
pub fn init_runs_alone()
    ensures first { FirstRunsAlone }
    ensures stays { StaysAlone }
{}

/// Each step makes changes of certain kinds, each where what is said of it holds, and no other.
pub fn steps_are_changes()
    ensures { StepsAreChanges }
{}

/// No more units, picks and items are used than the script has, and the backpressure of an instance is at most 65,535: so it is in the
/// first world, and so it stays in every step.
pub fn limits_stay()
    ensures first { FirstWithinLimits }
    ensures stays { StaysWithinLimits }
{}

/// In each table an entry was added at the index that was next, while the table was not full, and only what was live was removed: so it
/// is in the first world, and so it stays in every step.
pub fn histories_stay()
    ensures first { FirstHasHistories }
    ensures stays { HistoriesStay }
{}

/// Task 0, which nobody called, instantiates; each other task runs a function, and the script called it or a task that was made before it.
/// Each number on the chain is a task's, each subtask in a table a task that another one called, and each set in a table was made: so it
/// is in the first world, and so it stays in every step.
pub fn numbers_stay()
    ensures first { FirstNumbered }
    ensures stays { StaysNumbered }
{}

/// Each member of a set is a subtask or an end that stands in the table of the instance, none is in two sets or twice in one, and what
/// has members is the set of an entry: so it is in the first world, and so it stays in every step.
pub fn members_stay()
    ensures first { FirstHasMembers }
    ensures stays { MembersStay }
{}

/// The elements that were written to a stream or a future are those that were read, in order: so it is in the first world, and so it
/// stays in every step.
pub fn nothing_is_held()
    ensures first { FirstHoldsNothing }
    ensures stays { NothingIsHeld }
{}

/// What a caller was told last of a subtask is at most the state that it has, so no other state is told after one in which it has
/// resolved. A task that resolved as cancelled was told that this is asked, or was never asked: so it is in the first world, and so it
/// stays in every step.
pub fn told_states_stay()
    ensures first { FirstIsTold }
    ensures stays { ToldStays }
{}

/// Of the tasks of an instance at most one holds exclusive entry: so it is in the first world, and so it stays in every step.
pub fn one_holder_stays()
    ensures first { FirstHasOneHolder }
    ensures stays { OneHolderStays }
{}

/// At each end of a stream or a future the counts of the copy under way are in their ranges, an end that is done has none, and of both ends
/// at most one has an offer that stands: so it is in the first world, and so it stays in every step.
pub fn copies_stay()
    ensures first { FirstIsCopied }
    ensures stays { CopiesStay }
{}

/// The end of each copy under way stands in a table, and the task that reads or writes is there, and so is the canonical function by which
/// it does: so it is in the first world, and so it stays in every step.
pub fn copies_stay_held()
    ensures first { FirstHoldsCopies }
    ensures stays { CopiesStayHeld }
{}

/// At each end of a stream or a future the counts of the copies that were told and of the one under way add up to as many elements as were
/// carried: so it is in the first world, and so it stays in every step.
pub fn counts_stay()
    ensures first { FirstAddsUp }
    ensures stays { CountsStay }
{}

/// On the chain each task but the acting one waits for the one right above it, which it called or cancelled; none stands there twice, and
/// all others are blocked or have exited. The acting task is as what comes next asks, with a stack or without. One that waits in a canonical
/// function runs a function and has a stack, and one that is new, waits to enter, is in its loop or has exited has none: so it is in the first
/// world, and so it stays in every step. A trap that ends a run names the acting task.
pub fn tasks_stay_ordered()
    ensures first { FirstOrdered }
    ensures stays { OrderStays }
    ensures traps { TrapsNameTheActingTask }
{}

/// A graph and a script have at most one run. Of steps from a world fewer are a front of more.
pub fn one_run()
    ensures one { OneRun }
    ensures from { OneRunFrom }
    ensures front { FewerAreAFront }
{}

/// A task that waits for one that it called stands with it as its caller, and so does the canonical function at whose call it waits, so
/// that at most one waits for each: so it is in the first world, and so it stays in every step.
pub fn called_stay()
    ensures first { FirstHasCalled }
    ensures stays { CalledStay }
    ensures one { OneWaits }
{}

/// A task that another one called was called by a canonical function of the graph: so it is in the first world, and so it stays in every
/// step.
pub fn by_canons_stay()
    ensures first { FirstByCanons }
    ensures stays { ByCanonsStay }
{}

/// A task that another one called was called by a canonical function that the component instance made whose function that one runs: so it is
/// in the first world, and so it stays in every step, where definitions stay apart.
pub fn own_callers_stay()
    ensures first { FirstByOwn }
    ensures stays { ByOwnStay }
{}

/// Each handle that is lent for a call stands in the table of the instance that calls, until the caller is told that the task has resolved;
/// from then on none is lent for it. So it is in the first world, and so it stays in every step, where definitions stay apart and the types
/// of results and elements hold no borrow. So it is in each world that a run reaches then.
pub fn loans_stay()
    ensures first { FirstHoldsLoans }
    ensures stays { LoansStay }
    ensures reached { ReachedHoldLoans }
{}

/// Where the types of results and elements of a graph hold no borrow, neither does that of the result of the function that a task runs, nor
/// that of the elements of a stream or a future: so it is in the first world, and so it stays in every step.
pub fn no_borrow_is_passed()
    ensures first { FirstHoldsNoBorrow }
    ensures stays { NoBorrowStays }
{}

/// In each step a task resolves only where no live borrow handle names it: where it returns, is cancelled by itself, or is removed while it
/// waits to enter. A handle leaves its table only where nothing is lent of it.
pub fn borrows_are_given_back()
    ensures { BorrowsAreGivenBack }
{}

/// From where a handle is lent for a call up to where the caller is told that the task has resolved, it stays lent, and what stands at its index
/// in the table of the instance that calls stays there: so it is in every step, where definitions stay apart and the types of results and elements
/// hold no borrow. So it is from each world that a run reaches on through all steps that follow, and once the caller was told that, this stays so.
pub fn handles_stay_lent()
    ensures step { HandlesStayLent }
    ensures reached { ReachedStayLent }
    ensures over { ReachedStayOver }
{}

/// The state of a task that its caller was told last rises from step to step, and stays once it says that the task has resolved. A subtask stays in
/// its table, at its index, until its caller was told that.
pub fn states_rise()
    ensures rises { StatesRise }
    ensures stays { SubtasksStayUntold }
{}

/// The word of a task in its loop says that it yields, waits or polls, and where it waits or polls a set stands at that index in the table
/// of its instance: so it is in the first world, and so it stays in every step.
pub fn loops_stay()
    ensures first { FirstHasLoops }
    ensures stays { LoopsStay }
{}

/// A subtask in a table was called by a canonical function that does not wait, and stands there once. One for which its caller waits in a
/// call stands in no table, and nothing was told of it; and while a task cancels a subtask, no call waits for that one: so it is in the
/// first world, and so it stays in every step.
pub fn subtasks_stay()
    ensures first { FirstHasSubtasks }
    ensures stays { SubtasksStay }
{}

/// Where one of several alternatives was picked, it is there: in the first world, and behind every step.
pub fn picked_is_there()
    ensures first { FirstIsPicked }
    ensures stays { PickedStays }
{}

/// Where what a core instance imports, the core function of a lift, a destructor, and what the options of canonical definitions give, were
/// made by their own component instance, a task runs code of the component instance of its function alone, and calls only canonical
/// functions that this one made, and so does nested code: so it is in the first world, and so it stays in every step.
pub fn definitions_stay_apart()
    ensures first { FirstIsOwn }
    ensures stays { OwnStays }
{}

/// Where a task waits in a canonical function on a set, the set stands in the table of the component instance whose function it runs: so it is
/// in the first world, and so it stays in every step, where definitions stay apart.
pub fn set_waits_stay()
    ensures first { FirstHasSets }
    ensures stays { SetsStay }
{}

/// A writable end of a stream or a future stands in one table at most, at one index, and is of one that was made: so it is in the first
/// world, and so it stays in every step.
pub fn writers_stay_in_one_place()
    ensures first { FirstHasWriters }
    ensures stays { WritersStayInOnePlace }
{}

/// A readable end of a stream or a future stands in one table at most, at one index, and is of one that was made. Those that are passed in
/// values stand in no table meanwhile, and what is left of the plan of a lowering adds each of them once at most: so it is in the first world,
/// and so it stays in every step, where the arguments of the script's calls hold no end.
pub fn readers_stay_in_one_place()
    ensures first { FirstHasReaders }
    ensures stays { ReadersStayInOnePlace }
{}

/// The store is typed, functions of the host are the graph's canonical functions, each task that waits in one goes on typed with words of its
/// results, and the stack of the acting task, or of nested code, is typed where it makes moves, and has given words of the parameters where it
/// has called a canonical function; and the core instances that were made are the graph's, and have what their modules say. So it is in the
/// first world, and so it stays where core instances are made, where the acting task's stack makes moves and goes on to make some, calls a
/// canonical function, or was that of a start function, and where nested code makes moves. An acting task that waits in a canonical function
/// goes on typed with words of its results. What waits typed in a store waits typed in each one that extends it with the same core instances.
pub fn core_moves_stay_typed()
    ensures first { FirstTyped }
    ensures instances { InstantiationStaysTyped }
    ensures moves { MovesStayTyped }
    ensures nested { NestedMovesStayTyped }
    ensures answers { AnswersAreTyped }
    ensures later { StayTypedLater }
{}

/// A task runs the function of an export of the graph, one that is lowered in it, or a destructor of its resources: so it is in the first
/// world, and so it stays in every step. Where all core instances were made, and the graph has what its lifts use, the core function of what a
/// task runs, its post-return and its callback are in the store, of the types that lifting gives them, and so are the destructors of the
/// graph's resources.
pub fn callees_stay()
    ensures first { FirstHasCallees }
    ensures stays { CalleesStay }
    ensures functions { FunctionsAreThere }
    ensures destructors { DestructorsAreThere }
{}

/// In a typed world the next move of the acting task's stack, and of nested code, is typed: a rule applies, what is called is given words of
/// its parameters, and what ends gives words of its results. Those of a function that is lifted with a callback are one i32. The core
/// instance that the plan makes next is one of the graph's, and what it imports has addresses and is what its module asks for.
pub fn typed_code_goes_on()
    ensures moves { MovesAreTyped }
    ensures nested { NestedMovesAreTyped }
    ensures callbacks { CallbacksGiveWords }
    ensures instances { InstancesAreMakeable }
{}

/// A task that cancels another one cancels one that a task called, and a task in its loop runs a function with a callback: so it is in the
/// first world, and so it stays in every step.
pub fn waits_stay()
    ensures first { FirstWaitsAs }
    ensures stays { WaitsAsStay }
{}

/// A subtask that a task cancels stands at its index in the table of the component instance whose function that task runs, until its caller is
/// told that it has resolved, which it is not while the task is blocked until it has. Its cancellation is asked, or it has resolved while the
/// task that cancels it acts; and one task at most cancels it. So it is in the first world, and so it stays in every step, where definitions
/// stay apart.
pub fn cancels_stay()
    ensures first { FirstHasCancels }
    ensures stays { CancelsStay }
{}

/// Where a task waits for a copy the end stands at its index in the table of the component instance whose function the task runs, and the copy under
/// way there is the task's own, by the canonical function in which it waits: so it is in the first world, and so it stays in every step, where
/// definitions stay apart and the arguments of the script's calls hold no end. In each world that a run reaches then the end is there for whose copy
/// a task waits.
pub fn copies_stay_awaited()
    ensures first { FirstAwaitsCopies }
    ensures stays { CopiesStayAwaited }
    ensures reached { ReachedAwait }
{}

/// Each call of the script that was taken made a task, which has it as its caller: so it is in the first world, and so it stays in every step.
pub fn calls_have_tasks()
    ensures first { FirstCallsHaveTasks }
    ensures stays { CallsKeepTasks }
{}

/// A task that goes on from a wait on a set has a ready member there, or is told that its cancellation is asked; one that goes on from a call
/// has called a task that has resolved; and where one goes on from a copy its end stands at its index. Where the event of a member comes to a
/// task, the member that was picked is there, and the function of the task has a callback where this gets the event. So it is in the first
/// world, and so it stays in every step, where definitions stay apart.
pub fn events_come()
    ensures first { FirstHasEvents }
    ensures stays { EventsStay }
{}

/// In a world of which holds what is kept a step comes next, or the end, where what the rule of its control looks up besides is there: the
/// export of a call and the call that a cancel names, what a core instance imports, a canonical function that a start function calls, and once
/// all is instantiated the resource of which a handle is dropped with its destructor, core functions and moves of stacks, and a function
/// that gives places where one is asked for. What is kept holds of each world that a run reaches, where definitions stay apart.
pub fn worlds_go_on()
    ensures each { WorldsGoOn }
    ensures stand { ReachedStand }
    ensures reached { ReachedGoOn }
{}

/// Where the modules of a graph are valid and what they import is there, each world that a run reaches while not all is instantiated stands
/// typed, and so does the one behind it, up to a trap. So instantiation is never stuck, where definitions stay apart.
pub fn instantiation_goes_on()
    ensures typed { StartsTyped }
    ensures behind { StartedTyped }
    ensures goes_on { StartsGoOn }
{}

/// Where besides a graph has all that its lifts, lowers and built-ins use, the core functions of what tasks run are in the store once all is
/// instantiated, and so are destructors, up to a trap. So a step comes next, or the end, in each world that a run reaches, where items of the
/// script, a rule for core code and the word of a realloc, a function that gives places where one is asked for, and the end at the index
/// at which a blocked task waits are there.
pub fn functions_are_there()
    ensures there { ReachedFunctions }
    ensures goes_on { UsedGoOn }
{}

/// A task that runs a function resolves before it exits: where one has exited it has resolved. So it is in the first world, and so it stays in
/// every step.
pub fn tasks_resolve_first()
    ensures first { FirstResolvesFirst }
    ensures stays { ResolveFirstStays }
{}

/// A task stays the task of its number: it runs the same, for the same caller, by the same canonical function with the same words. Once it has entered
/// it stays behind its entry, what it resolved to stays, and once it has exited it stays so. So it is in every step.
pub fn tasks_go_on()
    ensures { TasksGoOn }
{}

/// The lines of a step tell what tasks do, but for task 0: each task is made, enters, returns or is cancelled, and exits, in this order, by one line
/// each, where only one that is cancelled may not have entered. So the lines of a run up to a world tell how far each task is in it.
pub fn lines_tell_tasks()
    ensures each { LinesTellTasks }
    ensures reached { ReachedLinesTell }
{}

/// A run ends by want of fuel only where all units are used, and in a trap only behind the step that came to it. Else it ends only where no task
/// runs and there is no alternative: as done where all tasks have exited, and in deadlock where some have not.
pub fn ends_have_causes()
    ensures { EndsComeWhere }
{}

/// Where a run ends in deadlock no task runs, no item of the script is left, and the tasks that are named are those that have not exited, by
/// rising number, but for task 0. What each waits for is missing: one that waits to enter is held back by backpressure, or a task that is named
/// holds exclusive entry; one in its loop waits on a set without a ready member, and no cancellation is asked of it, or a task that is named
/// holds exclusive entry; one in a built-in waits on such a set, for a task that has not resolved and is named, or for an end with nothing to
/// tell. So it is where a run comes to it.
pub fn deadlocks_are_real()
    ensures each { DeadlocksAreReal }
    ensures reached { ReachedDeadlocksAreReal }
{}

/// Where each call of a script names an export of the graph, with values of its parameters' types, and each cancel one of the calls before it, what
/// the next item names is there in every world. So a step comes next, or the end, in each world that a run of such a script reaches, where a rule for
/// core code and the word of a realloc, and a function that gives places where one is asked for, are there.
pub fn scripts_are_there()
    ensures items { ItemsAreThere }
    ensures goes_on { ScriptsGoOn }
{}

/// Where a script is for the graph, a task that it called runs a function with values of the types of its parameters. One that another task
/// called runs the function that the canonical function lowers by which it was called, or a destructor where that is a built-in, which drops
/// handles. The canonical function of each copy under way reads or writes, as the end does, elements of the same type as those of the stream or
/// the future. So it is in the first world, and so it stays in every step.
pub fn calls_stay_fit()
    ensures first { FirstFits }
    ensures calls { CallsStayFit }
    ensures copies { CopiesStayFit }
{}

/// Where besides a script is for the graph, a lowering asks for a place only where it has a function that gives places, in each world that a run
/// reaches, and so it does behind a realloc. So a step comes next, or the end, where a rule for core code and the word of a realloc are there.
pub fn places_are_given()
    ensures given { PlacesAreGiven }
    ensures goes_on { PlacesGoOn }
{}

/// Where a run ends in deadlock no task is able to go on. In each world that a run reaches the set on which a task waits or which it polls stands at
/// its index, the task that it called and for which it waits is there, and so is the subtask that it cancels, where definitions stay apart.
pub fn waits_are_there()
    ensures able { NoneIsAble }
    ensures there { WaitsAreThere }
{}

/// What a step answers to core code that called a canonical function of the graph is words of the types that this one gives back, where
/// representations, words of context and what is kept of the results of calls that are over are such words. Where a wait, a cancel or a copy is
/// answered that is one i32, and where a destructor has run on a further stack no word; that the canonical function at which the task waits is
/// of such a kind is not told. To other code nothing is answered.
pub fn answers_are_words()
    ensures { AnswersAreWords }
{}

/// No step gives a unit of fuel back, where task 0 runs alone while it instantiates. A script has a run on a graph, with lines, a last world and an end,
/// where in each world that steps from the first one reach a step comes next, or the end, and from each finitely many steps lead to one behind which
/// no step comes that costs nothing.
pub fn runs_end()
    ensures units { UnitsRise }
    ensures ends { RunsEndSo }
{}
