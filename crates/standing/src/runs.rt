//! Runs of core code, and lowerings, as steps of the machine. Nothing is said of where what is kept comes to no rule or is short of memory, nor of
//! stacks behind a trap of the task or where fuel is wanting.

ghost use Rattle.standing.specs.InPlace.{ExemptCallsAgree, NestedCallsAgree};
ghost use Rattle.standing.specs.Instantiates.{ActionIsDone};
ghost use Rattle.standing.specs.Lowers.{LoweringsLead, RoomStands};
ghost use Rattle.standing.specs.Nested.{CallsAreMade, NestedRunsLead};
ghost use Rattle.standing.specs.Plans.{FlatAgrees, PlacedAgrees, StoredAgrees, ElementsAgree};
ghost use Rattle.standing.specs.PostReturns.{NestedCodeLeads, NestedGoOn, PostReturnsLead};
ghost use Rattle.standing.specs.Reaching.{EndFollows, EndsBehind, MeetsBehind, PartsJoin, StepFollows};
ghost use Rattle.standing.specs.Runs.{StacksLead};
ghost use Rattle.standing.specs.TaskRuns.{TaskRunsLead};

/// Parts of runs are put one behind the other: a part, and behind it another part, what comes next, or the rest of
/// the run. What comes next is a step more, or ends the run.
pub fn parts_join()
    ensures parts { PartsJoin }
    ensures meets { MeetsBehind }
    ensures ends { EndsBehind }
    ensures step { StepFollows }
    ensures end { EndFollows }
{}

/// A run of the acting task's stack is steps without lines. Where it ends, the stack has ended in the world that
/// follows; where it calls a core function of the Canonical ABI, the task waits at this call; where it traps, the
/// task has come to the trap; and where fuel is wanting, the run ends.
pub fn stacks_lead()
    ensures { StacksLead }
{}

/// A run of nested code is steps without lines, up to its end, to a call, or to a trap; where fuel is wanting, the
/// run ends. At a call what comes next is what the canonical function does.
pub fn nested_runs_lead()
    ensures runs { NestedRunsLead }
    ensures calls { CallsAreMade }
{}

/// What is kept when the acting task's stack has run stands for a world to which the machine comes by steps: where
/// the task waits at a call, where its stack ended over one that goes on, behind a start function, at a trap, and
/// where fuel is wanting; where the task's function ended with words, for the world from which the rest of that turn
/// goes.
pub fn task_runs_lead()
    ensures { TaskRunsLead }
{}

/// A call of nested code is answered in place by what is kept as by the machine, or comes to the same trap, where a rule applies: words
/// of context, and what a handle stands for.
pub fn calls_answered()
    ensures exempt { ExemptCallsAgree }
    ensures nested { NestedCallsAgree }
{}

/// What is kept when nested code has run, with its calls that are answered in place, stands for a world to which
/// the machine comes: behind a post-return the task exits. So it is behind the end of the core function of a task,
/// whose result has reached its caller.
pub fn post_returns_lead()
    ensures goes_on { NestedGoOn }
    ensures nested { NestedCodeLeads }
    ensures task { PostReturnsLead }
{}

/// A lowering whose plan comes to something over a store and a table leads there by steps of the machine, realloc
/// by realloc, with the lines of the calls that its code made: to what follows its core values, to a trap, or to
/// the end of the run where fuel is wanting. The slots that are left stand for the table then, and with them what
/// is kept stands for the world.
pub fn lowerings_lead()
    ensures leads { LoweringsLead }
    ensures stands { RoomStands }
{}

/// The plan along which code lowers a value of its type is that of the machine, as core values, at a new place and at a place, and so is that of
/// values one after the other behind the test of their place, where both take the same resources as the instance's own: the same places are asked
/// for, the same bytes put, and the same entries made.
pub fn plans_agree()
    ensures flat { FlatAgrees }
    ensures placed { PlacedAgrees }
    ensures stored { StoredAgrees }
    ensures elements { ElementsAgree }
{}

/// Task 0 makes the next thing of a graph's plan as the machine does, where a rule applies: a component instance begins, or a core instance is made, up to a
/// segment that does not fit, or up to where its start function runs; and where nothing is left to be made it has done its work.
pub fn actions_agree()
    ensures { ActionIsDone }
{}
