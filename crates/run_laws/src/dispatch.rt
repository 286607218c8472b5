//! Calls of canonical functions.

ghost use Rattle.run_laws.specs.Answering.{AllAnswer, CallIsAnswered};
ghost use Rattle.run_laws.specs.Dispatch.{NamesAreAlike, FlagsAreAlike, OptionsAreAlike, LeaveIsAlike, CallAgrees};
ghost use Rattle.run_laws.specs.KeptMarks.{AnswersKeepMarks, CallsAreIn, MarksSupply};
ghost use Rattle.run_laws.specs.Reached.{CallsAreOwn, CallersRunThere, WorldsAreSound};

/// What is told of a canonical function is what the machine reads of it: its name, its flag and what else it uses; and so is whether all is
/// instantiated.
pub fn canons_alike()
    ensures names { NamesAreAlike }
    ensures flags { FlagsAreAlike }
    ensures options { OptionsAreAlike }
    ensures leave { LeaveIsAlike }
{}

/// A call of a canonical function does what the machine does, where what the function answers behind the line of its call does; words of context
/// and representations are answered so also where the instance may not be left.
pub fn calls_agree()
    ensures { CallAgrees }
{}

/// What each canonical function answers is what the machine answers, and so is the whole call: of each built-in, up to where values are to be passed or an
/// event comes, and of a function that is lowered. It asks that what is kept beside the world is right, and some facts of the world.
pub fn all_answer()
    ensures rows { AllAnswer }
    ensures call { CallIsAnswered }
{}

/// In a world that a run of a graph reaches whose definitions are apart, and in which all is instantiated, a task that calls a canonical function acts, and
/// runs a function of the component instance that made that one; each task that called another one runs a function, sets were made, and subtasks run functions.
pub fn worlds_supply()
    ensures own { CallsAreOwn }
    ensures callers { CallersRunThere }
    ensures sound { WorldsAreSound }
{}

/// What is answered to a call of a canonical function leaves the marks of gates and of sets as they follow from the tasks. Where the call is the task's own, in
/// an instance in whose table sets stand apart, all that this asks is so; and marks supply what the call asks of what is kept beside the world.
pub fn marks_last()
    ensures answers { AnswersKeepMarks }
    ensures own { CallsAreIn }
    ensures supply { MarksSupply }
{}
