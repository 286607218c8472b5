//! Ends of core functions, destructors, values that are passed, steps as a whole, and whole runs.

ghost use Rattle.run_laws.specs.AsyncEnds.{AsyncFunctionEnds};
ghost use Rattle.run_laws.specs.Destructors.{DestructorEnds, DestructorEnters};
ghost use Rattle.run_laws.specs.Passings.{PassesLead};
ghost use Rattle.run_laws.specs.Steps.{StepIsMade};
ghost use Rattle.run_laws.specs.Whole.{ProgramsAgree, WholeRunsAgree};

/// Where the core function or a callback of a task ends that is lifted with `async`, what is kept does what the machine does, where a rule applies: the
/// task exits, yields, waits or polls, by the callback's word, or a stackful function ends, or there is the same trap: of a word that is none, of an
/// index at which no set stands, or of a task that did not return.
pub fn async_functions_end()
    ensures { AsyncFunctionEnds }
{}

/// What a task that runs a destructor comes to as it enters and as it ends, where a rule applies, the machine comes to: its one word is passed, its
/// core function is to start, and it has returned with nothing and is to exit; or there is the same trap.
pub fn destructors_pass()
    ensures enters { DestructorEnters }
    ensures ends { DestructorEnds }
{}

/// Whatever passing values may come to, of every kind, where a rule applies, the machine comes to by its steps from the world in the midst of the turn
/// where they are to be passed: what follows, where what is kept stands for the world from which that goes on, the same trap, or the end of the run
/// where fuel is wanting.
pub fn passings_lead()
    ensures { PassesLead }
{}

/// Whatever a step of the kept machine comes to, from any point, where a rule applies, the machine comes to by its steps: where no task runs, where a
/// stack runs, where task 0 instantiates, where a task moves or calls a canonical function, and where values are to be passed. It asks that what is kept
/// is right where the step reads it; and, where no task runs, that the tasks which can go on are the same on both sides and that a cancellation of the
/// script is taken as the machine takes it, which `turns_are_kept` gives. Of a step that ends the run it says the
/// lines and the end, and, but for want of fuel, that what is left stands for the world.
pub fn steps_are_made()
    ensures { StepIsMade }
{}

/// A run of the kept machine, from before its program's graph is instantiated, is the run of the machine: it has the same lines in the same order, the last one
/// among them, and the same end. So two programs of one graph and script have the same run. It asks that a step may be made at each point that the run
/// reaches, as `steps_are_made` says: `runs_are_of_machine` says of which runs that is known. Of what a run leaves it says nothing.
pub fn whole_runs_agree()
    ensures agree { WholeRunsAgree }
    ensures one { ProgramsAgree }
{}
