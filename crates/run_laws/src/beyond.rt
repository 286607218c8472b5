//! Where a run goes beyond what is run.

ghost use Rattle.run_laws.specs.Beyond.{TrapsAreOfTasks, StepsAreLostThere, RunsGoBeyondThere};

use crate::supplying::words_are_supplied;
use reach_laws::{exactly_one_next, reached_worlds_are_typed, steps_are_fed};

/// At no point that a run of a program reaches, made of a graph and a script that fit, is a step a trap while no task acts. A rule applies where
/// task 0 instantiates, where no task runs, where a task is new or is woken by its cancellation, where one exits, and where a function that is
/// lifted with `async` or its callback has ended. Where a task goes on, is back or calls a canonical function, one applies to the move and to the
/// event that comes, so that a step is lost only where the task's stack does not go on with what they come to; and where a stack is to run, only
/// where it is none that runs, or ends over one that does not go on. Of steps that pass other values no more is said. So a run goes beyond what is
/// run there alone, or behind as many steps as are made at most.
pub fn steps_are_found()
    ensures traps { TrapsAreOfTasks }
    ensures lost { StepsAreLostThere }
    ensures beyond { RunsGoBeyondThere }
{
    steps_are_fed();
    reached_worlds_are_typed();
    words_are_supplied();
    exactly_one_next();
}
