//! What holds of each run: of its deadlock, and of what callers are told.

ghost use Rattle.waiting_laws.specs.Deadlocks.{DeadlocksAreInVain};
ghost use Rattle.waiting_laws.specs.Events.{EventsTellNews, NoEventComesBehind};
ghost use Rattle.waiting_laws.specs.Offers.{FirstHasOpenOffers, OffersStayOpen, ReachedOffersAreOpen};
ghost use Rattle.waiting_laws.specs.Telling.{
  DropsWhatWasTold,
  FirstToldInAStep,
  FirstToldOnce,
  LeavesWhenTold,
  StatesRiseAlong,
  TellingTakesNoneOut,
};

/// Where nothing is to be told of a copy under way at an end of a stream or a future, its offer stands, and the other end was not dropped: so it is in the
/// first world, and so it stays in every step. So it is in each world that a run reaches.
pub fn offers_are_open()
    ensures first { FirstHasOpenOffers }
    ensures stays { OffersStayOpen }
    ensures reached { ReachedOffersAreOpen }
{}

/// Where a run ends in deadlock no task runs and no item of the script is left; its line names exactly the tasks that have not exited, at least one, by
/// rising number; no task is able to go on; and each that is named is blocked while what it waits for is missing. At its entry there is backpressure, or
/// another task, which is named, holds the exclusive entry that it needs. In its loop another one does so, or it waits on a set, no member of which has an
/// event, and no cancellation is asked of it. In a canonical function it waits on such a set, and a cancellation that is asked does not end the wait; or for
/// a task that it called, which has not resolved and is named; or for a copy, whose offer stands while the other end is there and has none; or for a subtask
/// that it cancels, whose task was asked to come to its end, has not resolved and is named. This is so where definitions stay apart and the script passes no
/// end.
pub fn tasks_wait_in_vain()
    ensures { DeadlocksAreInVain }
{}

/// From each world that a run reaches on, through all steps that follow, the state of a subtask that its caller was told last rises, and stays once it says
/// that the task has resolved: as 2, 3 or 4. Where it says so in the end and did not at first, there is one step in which the caller is told so for the first
/// time, and no later one is such a step; the same may be told again. A subtask is in its table, at its index, until its caller was told so. A call of
/// `subtask.drop` takes out only one of which that was told before; and none leaves its table in a step in which control is back at a caller, an event
/// comes, or a task goes on that was blocked in a canonical function: those in which the machine tells callers.
pub fn states_rise_along_runs()
    ensures rises { StatesRiseAlong }
    ensures once { FirstToldOnce }
    ensures first { FirstToldInAStep }
    ensures leaves { LeavesWhenTold }
    ensures drops { DropsWhatWasTold }
    ensures tells { TellingTakesNoneOut }
{}

/// In a run, where the event of a member of a set comes to a task, and it is that of a subtask, its line tells a higher state than the one that the caller was
/// told last, and the one that the subtask has. So once the caller was told that the task has resolved, by an event or by an answer, no event
/// comes of it.
pub fn events_tell_news()
    ensures news { EventsTellNews }
    ensures none { NoEventComesBehind }
{}
