//! What holds of each world that a run reaches.

ghost use Rattle.reach_laws.specs.Going.{
  ExactlyOneNext,
  FreeStepsComeToEnd,
  NoneIsStuck,
  OneRunComes,
};
ghost use Rattle.reach_laws.specs.KnownCalls.{ReachedCallsAreKnown};
ghost use Rattle.reach_laws.specs.KnownCopies.{ReachedCopiesAreKnown};
ghost use Rattle.reach_laws.specs.KnownEnds.{ReachedEndsAreKnown};
ghost use Rattle.reach_laws.specs.Reached.{
  CodePassesWords,
  ReachedAnswerWords,
  ReachedAreTyped,
  ReachedKeepWords,
  ReachedPutInside,
  ReachedStandInside,
  StartsTyped,
  StoresExtend,
};
ghost use Rattle.reach_laws.specs.ReadScripts.{ReadScriptsPassNoEnd, ReadScriptsPassSmall};
ghost use Rattle.reach_laws.specs.Runnable.{ScriptsPassTyped};

use script_reader::scripts_are_texts;

/// What a script for a graph passes is of the types of the parameters, where they are in their ranges.
pub fn scripts_pass_typed()
    ensures { ScriptsPassTyped }
{}

/// What a script passes that is read holds no handle, and so none with a representation that is too large, and no end of a stream or a future, as the
/// laws of words, of readable ends and of copies of `abi_machine` ask: none of these has a text.
pub fn read_scripts_pass_no_handles()
    ensures small { ReadScriptsPassSmall }
    ensures ends { ReadScriptsPassNoEnd }
{
    scripts_are_texts();
}

/// Of a graph and a script that fit, each world that a run reaches is typed, up to a trap: while not all is instantiated the store
/// and the stacks are, and memories hold bytes; then all that `typed_worlds_stay` of `abi_machine` says of typed worlds is so.
pub fn reached_worlds_are_typed()
    ensures starts { StartsTyped }
    ensures worlds { ReachedAreTyped }
{}

/// In each such world what the laws of steps ask for holds: what core code calls is given words of its parameters, and what is kept are words of their
/// types; each store extends the one before; the elements of copies stand inside memories; each answer is words of what is waited at; and elements
/// that go over are put inside.
pub fn steps_are_fed()
    ensures passes { CodePassesWords }
    ensures words { ReachedKeepWords }
    ensures stores { StoresExtend }
    ensures copies { ReachedStandInside }
    ensures answers { ReachedAnswerWords }
    ensures puts { ReachedPutInside }
{}

/// In each world that a run reaches a subtask that stands in the table of a component instance was called by a task that runs a function of that instance;
/// a task that another one called runs in another component instance than that one; and one that a task cancels was called from its own component
/// instance: where definitions stay apart.
pub fn calls_are_known()
    ensures { ReachedCallsAreKnown }
{}

/// In each world that a run reaches the end of a stream or a future stands at one index of one table at most, and was not dropped where it does: where
/// definitions stay apart, and the arguments of the script's calls hold no end.
pub fn ends_are_known()
    ensures { ReachedEndsAreKnown }
{}

/// In each such world the task of a copy whose call waits is waiting for it, at the index of its end; so the copy at an end that stands in a table is waited
/// for directly exactly where its call waits.
pub fn copies_are_known()
    ensures { ReachedCopiesAreKnown }
{}

/// In each world that a run of such a graph and script reaches a step or the end of the run comes next, and one alone: so no world is stuck.
pub fn exactly_one_next()
    ensures one { ExactlyOneNext }
    ensures goes_on { NoneIsStuck }
{}

/// Whatever the graph and the script, from each world that a run reaches finitely many steps lead to one behind which no step comes that costs nothing.
pub fn free_steps_end()
    ensures { FreeStepsComeToEnd }
{}

/// A graph and a script that fit have exactly one run.
pub fn one_run_comes()
    ensures { OneRunComes }
{}
