//! What keeps all marks.

ghost use Rattle.run_laws.specs.keeping.Acting.{HeardKeepsMarks, WokenKeepsMarks};
ghost use Rattle.run_laws.specs.keeping.Answers.{AnswersKeepAll};
ghost use Rattle.run_laws.specs.keeping.Cancels.{CancelBackKeepsMarks, ControlBackKeepsMarks};
ghost use Rattle.run_laws.specs.keeping.CancelsKept.{CancelsAreKept};
ghost use Rattle.run_laws.specs.keeping.Ends.{EndBuiltinsKeepEnds};
ghost use Rattle.run_laws.specs.keeping.Events.{BackKeepsMarks, EventsKeepMarks};
ghost use Rattle.run_laws.specs.keeping.Stepping.{FollowingKeepsAll, MovesKeepAll, RunsKeepAll};
ghost use Rattle.run_laws.specs.keeping.Liftings.{ArgumentsKeepMarks, EndedKeepMarks, ReturnedKeepMarks, ElementsKeepMarks};
ghost use Rattle.run_laws.specs.keeping.Passings.{PassingsKeepMarks};
ghost use Rattle.run_laws.specs.keeping.Steps.{StepKeepsAll};
ghost use Rattle.run_laws.specs.keeping.Supplied.{TablesAreSound, NumbersAreThere, NothingIsLentNext, NoTaskWaitsNext, NoSetIsWaitedOnNext, SetsAreApart, ToldHaveGivenBack, AskedWereNotCancelled, OneHoldsEntry, TasksRunFunctions, ActingRunsFunction, WaitingCalled};
ghost use Rattle.run_laws.specs.keeping.Hearing.{HearsOwn};
ghost use Rattle.run_laws.specs.keeping.Instantiating.{InstantiatingKeepsMarks, RunningKeepsMarks};
ghost use Rattle.run_laws.specs.keeping.Turning.{TurnsKeepAll};
ghost use Rattle.run_laws.specs.keeping.WellKept.{FirstIsWell, MovesKeepWell, EventsKeepWell, TasksKeepWell, ScriptKeepsWell, BackIsUnawaited, PassingsKeepWell};
ghost use Rattle.run_laws.specs.keeping.Moves.{ArrivingKeepsMarks, EnteringKeepsMarks, LeavingKeepsMarks, LoopingKeepsMarks, ResumingKeepsMarks, EndingKeepsMarks, ReturningKeepsMarks, GoingOnKeepsMarks, NextCallKeepsMarks, CancelKeepsMarks};
ghost use Rattle.run_laws.specs.keeping.Lists.{AnswersKeepLists, CancelKeepsLists, EndingKeepsLists, EnteringKeepsLists, EventsKeepLists, FirstHasLists, MovesKeepLists, NextCallKeepsLists, RunsHaveLists, StepsKeepLists, TurnsKeepLists};

/// What is answered to a call of a canonical function keeps all marks as they follow from tasks and tables: of gates, sets, handles that are lent, borrows, who
/// waits for subtasks, and states of subtasks. It asks that numbers name tasks, that the table of the instance that made the function is sound and free at its
/// next index, that its subtasks are calls of its own tasks, that calls that were told to have resolved lend nothing, and that whose cancellation is asked
/// was not cancelled.
pub fn answers_keep_all_marks()
    ensures { AnswersKeepAll }
{}

/// A task that arrives, enters, exits, blocks in its loop, is to exit, resolves, is put on the chain to go on, or is resumed, the script's next call, and one
/// that it cancels, keep all marks. It asks that the task runs a function; where it enters, that none holds the entry that it needs; where it exits or blocks
/// in its loop, that one task at most holds entry, and that each set stands at one index; where it goes on behind a cancelled subtask, that it alone waits at
/// the index, at which alone the subtask stands; and where a task is made, that numbers name tasks.
pub fn moves_keep_all_marks()
    ensures arriving { ArrivingKeepsMarks }
    ensures entering { EnteringKeepsMarks }
    ensures leaving { LeavingKeepsMarks }
    ensures looping { LoopingKeepsMarks }
    ensures resuming { ResumingKeepsMarks }
    ensures ending { EndingKeepsMarks }
    ensures returning { ReturningKeepsMarks }
    ensures going_on { GoingOnKeepsMarks }
    ensures next_call { NextCallKeepsMarks }
    ensures cancelled { CancelKeepsMarks }
{}

/// Control that is back at a task that called another one or cancelled a subtask, and an event that comes to a task, keep all marks: what was lent for a call is
/// given back once its caller is told that it has resolved. It asks that callers run in the instance, that calls that were told to have resolved lend
/// nothing, that whose cancellation is asked was not cancelled; where a subtask comes to stand in the table, that this is sound, and that none waits for it
/// yet; and where the task comes to wait for a cancelled one, that it stands at its index and nowhere else.
pub fn events_keep_all_marks()
    ensures back { BackKeepsMarks }
    ensures cancelled { CancelBackKeepsMarks }
    ensures control { ControlBackKeepsMarks }
    ensures events { EventsKeepMarks }
{}

/// Where what is kept stands for a world the tables of instances are sound: their freed indices are those of empty slots.
pub fn tables_are_sound()
    ensures { TablesAreSound }
{}

/// What is kept of tasks and of their calls is kept well before a graph is instantiated, and parts of a step keep it so: once its caller was told that a call
/// has resolved it has, and nothing is lent for it; a task that was cancelled is not asked any more; and no task waits directly for a call while control has
/// yet to come back to its caller. So do moves of the acting task, with the answers to its calls, events that come to it, a task that enters, resolves or comes
/// to its end, values that are passed, and the script's items. Of control that is back it asks that no task called the one that is cancelled and waits for
/// control to come back. So none waits directly for the call that comes back to its caller.
pub fn what_is_kept_stays_well()
    ensures first { FirstIsWell }
    ensures moves { MovesKeepWell }
    ensures events { EventsKeepWell }
    ensures tasks { TasksKeepWell }
    ensures script { ScriptKeepsWell }
    ensures passings { PassingsKeepWell }
    ensures back { BackIsUnawaited }
{}

/// Actions of a graph's plan keep all marks while no task runs a function: a component instance begins, a core instance is made, with its segments and its start
/// function, or task 0 has done its work. So does what follows a run of core code, of a start function too: the task is at a call of a canonical function, or
/// its stack has ended. Both keep well what is kept.
pub fn instantiation_keeps_all_marks()
    ensures instantiating { InstantiatingKeepsMarks }
    ensures running { RunningKeepsMarks }
{}

/// Where what is kept stands for a world of which laws of reached worlds hold, with marks, and is kept well, a subtask that a task cancels is called by none
/// whose control has yet to come back, and stands at the index by which it is cancelled, and nowhere else, while it has not resolved; and where a subtask
/// stands one task at most waits directly.
pub fn cancels_are_kept()
    ensures { CancelsAreKept }
{}

/// Where a move of the acting task gives that an event of a set is to come next, subtasks were called from the instances in whose tables they stand, where they
/// were before it.
pub fn hearing_stays_own()
    ensures { HearsOwn }
{}

/// A move of the acting task keeps all marks, whatever the task is at: it is new, goes on, is back, calls a canonical function, or exits. So does an event that
/// comes to it then, or none. Each asks what is asked of what the task does; of a canonical function only where the instance may be left, and of an event
/// that what is kept is kept well, and that subtasks in the table of the task's instance were called from there.
pub fn acting_keeps_all_marks()
    ensures woken { WokenKeepsMarks }
    ensures heard { HeardKeepsMarks }
{}

/// A step in which the acting task makes a move, with its stacks, or its stack runs, keeps all marks, and well what is kept; and so does what follows where values
/// were passed. A move asks what is asked of what the task does, that what is kept is kept well, that subtasks were called from the instances in whose tables
/// they stand, and while it instantiates that no task runs a function.
pub fn moving_steps_keep_all_marks()
    ensures moves { MovesKeepAll }
    ensures following { FollowingKeepsAll }
    ensures runs { RunsKeepAll }
{}

/// A turn, where no task runs, keeps all marks, and well what is kept: the script's next item is taken, or an able task goes on. It asks that numbers name tasks,
/// and that the tasks of the script's calls run functions.
pub fn turns_keep_all_marks()
    ensures { TurnsKeepAll }
{}

/// Values that are lifted keep all marks: arguments of a task, its result, at the end of a core function or by `task.return`, and elements. It asks that tables
/// are sound, that nothing but handles is lent, and that where a type holds a borrow the caller of the task runs in the instance.
pub fn liftings_keep_all_marks()
    ensures arguments { ArgumentsKeepMarks }
    ensures ended { EndedKeepMarks }
    ensures returned { ReturnedKeepMarks }
    ensures elements { ElementsKeepMarks }
{}

/// Whatever values are passed, all marks are kept: a task's arguments as it enters, its result, what follows the end of its core function or its callback, and
/// elements that go over. It asks that tables are sound, and that nothing but handles is lent; of a task that enters, that it runs a function in its own
/// instance, which none bars, and whose caller lends from its own; behind a function with a callback, that one task at most holds entry, and that sets stand
/// once; and that results and elements hold no borrow.
pub fn passings_keep_all_marks()
    ensures { PassingsKeepMarks }
{}

/// A step as a whole, from any point, keeps all marks, those of handles that are lent also where it traps, and keeps well what is kept of tasks and of their
/// calls: a turn where no task runs, a move of the acting task with its stacks, a run of its stack, an action of the graph's plan, and values that are passed,
/// with what follows. It asks what these ask, by where the run rests, and by what is to be passed.
pub fn steps_keep_all_marks()
    ensures { StepKeepsAll }
{}

/// Built-ins of streams and futures keep marks of ends: one that makes a stream or a future, one that drops an end, and one that gives up a copy, or tells it.
/// It asks of each end of the type in the table that it is of a stream or a future of the kind, of its type, and stands nowhere else.
pub fn end_builtins_keep_ends()
    ensures { EndBuiltinsKeepEnds }
{}

/// Before a graph is instantiated the lists of tasks are as they follow from the tasks: those that have not exited, those of them that do not wait for
/// exclusive entry, and those of the script's calls. Each step of the kept machine leaves them so, so that they are so at each point of a run; and so does
/// each of its parts: what is answered to a call of a canonical function, a move of the acting task, one that enters, ends, blocks in its loop or resolves,
/// events, a task that goes on where none runs, the script's next call, and one that it cancels.
pub fn lists_stay()
    ensures first { FirstHasLists }
    ensures steps { StepsKeepLists }
    ensures runs { RunsHaveLists }
    ensures answers { AnswersKeepLists }
    ensures moves { MovesKeepLists }
    ensures entering { EnteringKeepsLists }
    ensures ending { EndingKeepsLists }
    ensures events { EventsKeepLists }
    ensures turns { TurnsKeepLists }
    ensures next_call { NextCallKeepsLists }
    ensures cancelled { CancelKeepsLists }
{}

/// Where what is kept stands for a world that a run reaches, what is asked for marks to stay is so: numbers name tasks; nothing is lent where the next entry of a
/// table will stand, and no task waits there; each set stands at one index; calls that were told to have resolved lend nothing; whose cancellation is asked was not cancelled; one task at most
/// holds entry to an instance; each task but the first runs a function, and so does the one that acts once all is instantiated; and one that waits for a task that
/// it called is in the instance that called that one.
pub fn reached_marks_may_stay()
    ensures numbers { NumbersAreThere }
    ensures unlent { NothingIsLentNext }
    ensures unawaited { NoTaskWaitsNext }
    ensures unwaited { NoSetIsWaitedOnNext }
    ensures sets { SetsAreApart }
    ensures gave { ToldHaveGivenBack }
    ensures asked { AskedWereNotCancelled }
    ensures holds { OneHoldsEntry }
    ensures functions { TasksRunFunctions }
    ensures acting { ActingRunsFunction }
    ensures called { WaitingCalled }
{}
