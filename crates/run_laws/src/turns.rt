//! Turns, where no task runs.

ghost use Rattle.run_laws.specs.Programs.{ProgramsAreNamed};
ghost use Rattle.run_laws.specs.TaskLists.{CancelsAgree, TurnsAreKept, TurnsMayCome};
ghost use Rattle.run_laws.specs.Turns.{TurnsAgree};

/// Where no task runs, a turn of the kept machine does what the machine does: it takes the script's next item or lets an able task go on, by the
/// same picks, or ends as the machine does. It asks that the able tasks, those that have not exited and the count of calls taken are kept so, that
/// the program is of the graph and the script, and that a cancel is taken as the machine takes it; `turns_are_kept` and `programs_are_named` give these.
pub fn turns_agree()
    ensures { TurnsAgree }
{}

/// Where no task runs, in a world that a run reaches, and where marks and the lists of tasks are right, the same tasks can go on on both sides, the same ones
/// have not exited, as many calls were taken, and a cancellation of the script is taken as the machine takes it: all that a step asks there. It asks that the
/// instances of functions that run are there, that ends are marked, and that a copy that is to be told is waited for directly exactly where its call waits.
pub fn turns_are_kept()
    ensures kept { TurnsAreKept }
    ensures cancels { CancelsAgree }
    ensures step { TurnsMayCome }
{}

/// The program that is made of a graph and a script for it is as turns ask for it: each call has the number of the export that it names.
pub fn programs_are_named()
    ensures { ProgramsAreNamed }
{}
