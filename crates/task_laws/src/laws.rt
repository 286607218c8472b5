//! What holds of tasks in every run.

ghost use Rattle.task_laws.specs.Holders.{ReachedHaveOneHolder};
ghost use Rattle.task_laws.specs.QuietCode.{NestedEndsWantFuel, NestedRunsAreQuiet, NestedStepsAreQuiet};
ghost use Rattle.task_laws.specs.TaskLines.{EachIsToldOnce, LinesAreInOrder, RunsAreInOrder};
ghost use Rattle.task_laws.specs.TasksTold.{DeadlocksNameLeft, ExitsAreLast, NoneIsLeft, TasksAreAsTold, TasksAreCounted};

/// A step of a realloc or a post-return writes only lines of calls and of their answers, of the task that it acts for, and changes only its own stack, the
/// store, the two words of context of that task, and the units used, of which it uses one at most. Then the code goes on, as its stack goes on in core
/// execution, or with words that answer the call at which it was; or, where it ends, what follows it comes: the lowering goes on with the first word as
/// the place, or the acting task exits; or, where it traps or is at a call, the run may come to a trap. So it is in any world, and what is written and
/// changed is so of all steps of such code that follow each other. Where a run ends at such code, all its units are used.
pub fn nested_code_is_quiet()
    ensures steps { NestedStepsAreQuiet }
    ensures ends { NestedEndsWantFuel }
    ensures runs { NestedRunsAreQuiet }
{}

/// The lines of a run tell of each task, but of task 0, that it is made, enters, returns or is cancelled, and exits, in this order, where none is left
/// out, but that a task which is cancelled may not have entered.
pub fn task_lines_are_in_order()
    ensures reached { LinesAreInOrder }
    ensures runs { RunsAreInOrder }
{}

/// So each task is made by one line of a run at most, enters by one at most, resolves by one at most, a `return` or a `cancelled`, and exits by one at
/// most; and behind the line by which it exits no line tells any of this of it.
pub fn task_lines_come_once()
    ensures once { EachIsToldOnce }
    ensures last { ExitsAreLast }
{}

/// In each world that a run reaches tasks are as the lines up to it tell: a task is there where a line made it, has not entered, has entered, or has exited
/// by what was told of it last, and has resolved to what was told; but for task 0.
pub fn tasks_are_as_lines_tell()
    ensures { TasksAreAsTold }
{}

/// The lines of a run make task 1, task 2 and so on, in this order, up to the last one that is there.
pub fn tasks_are_counted()
    ensures { TasksAreCounted }
{}

/// Where a run is done each task that a line makes has exited by a line. Where it ends in deadlock those are named, but for task 0, that a line makes and
/// no line lets exit.
pub fn ends_name_tasks_left()
    ensures done { NoneIsLeft }
    ensures deadlock { DeadlocksNameLeft }
{}

/// In each world that a run reaches one task at most of a component instance holds exclusive entry: it runs a function that is lifted synchronously or with
/// a callback, has entered, has not exited, and is not blocked in its loop.
pub fn one_task_holds_entry()
    ensures { ReachedHaveOneHolder }
{}
