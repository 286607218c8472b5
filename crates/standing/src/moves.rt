//! Moves of the acting task, and calls: under premises on worlds and on what is kept that `specs/Moves`, `specs/Callings` and `specs/Resolutions` name
//! with each law, and that no law keeps yet.

ghost use Rattle.standing.specs.Moves.{TaskArrives, EntryResumes, LoopResumes, YieldResumes, SetResumes, CallResumes, CancelResumes, BackFromCall, BackFromCancel};
ghost use Rattle.standing.specs.Callings.{CallIsBegun};
ghost use Rattle.standing.specs.HandleDrops.{HandleIsDropped, ResourcesAreSeen};
ghost use Rattle.standing.specs.Resolutions.{TaskReturns, TaskCancels, EndIsAsked, SubtaskIsAsked};

/// A new task enters, or waits to, as the machine does.
pub fn arrivals_agree()
    ensures { TaskArrives }
{}

/// A blocked task goes on as the machine does: where it waited to enter, in its loop, in `yield`, at a set, for the task that it called, and for a
/// subtask that it cancelled. What was lent for a call that is over is given back, each handle with its line.
pub fn waits_agree()
    ensures entry { EntryResumes }
    ensures in_loop { LoopResumes }
    ensures yielded { YieldResumes }
    ensures at_set { SetResumes }
    ensures called { CallResumes }
    ensures cancelled { CancelResumes }
{}

/// Control is back at a task that called another one, or cancelled a subtask, as in the machine: it is answered, or it blocks.
pub fn returns_agree()
    ensures called { BackFromCall }
    ensures cancelled { BackFromCancel }
{}

/// A task calls a function as the machine does: a trap where the call comes back to an instance among its callers, else a task is made.
pub fn calls_agree()
    ensures { CallIsBegun }
{}

/// `task.return`, up to the tests of its type and options, and `task.cancel` do what the machine does; and so does what asks a task to come to an
/// end, where it may be asked.
pub fn resolutions_agree()
    ensures returned { TaskReturns }
    ensures cancelled { TaskCancels }
    ensures asked { EndIsAsked }
{}

/// `subtask.cancel` does what the machine does: it is refused where the subtask was told to be over, or that was asked before.
pub fn cancels_agree()
    ensures { SubtaskIsAsked }
{}

/// `resource.drop` does what the machine does: a handle leaves the table or the call is refused, a borrow handle counts for its task no more, and what an
/// own handle owned is destroyed, on a further stack or by a call. Resources are told as the graph has them.
pub fn drops_agree()
    ensures dropped { HandleIsDropped }
    ensures seen { ResourcesAreSeen }
{}
