//! What stands, and what agrees.

ghost use Rattle.standing.specs.First.{FirstStands};
ghost use Rattle.standing.specs.Edits.{InstancesChange, InstancesStay, RefusalsChangeNothing, InstancesBegin, EntriesAreAlike, NextIsAlike, RoomIsAlike, EntriesAreAdded, EntriesAreRemoved, EntriesStayAlike, SetsAreMade, WaitablesLeave, WaitablesJoin, WaitersAreNotSaid, PressureChanges, EntryIsNotSaid, TasksChange, TasksAreMade, StacksAreAnswered, TasksComeToTheChain, TasksLeaveTheChain, ActingIsAlike, FuelIsAlike, UnitsAreSpent, ItemsAreTaken, PicksAreAlike, PicksAreUsed, StoresChange};
ghost use Rattle.standing.specs.Replies.{ContextIsRead, ContextIsSet, RepIsRead, HandleIsMade, PressureRises, PressureFalls, PressureIsSet, SetIsMade, WaitableIsJoined, SetIsDropped, SubtaskIsDropped};
ghost use Rattle.standing.specs.Rows.{CallIsTaken, TaskGoesOn, ActingGoesOn, TaskEnds, TaskExits, TaskYields};
ghost use Rattle.standing.specs.KeptMarks.{FirstIsMarked, GatesAreKept, WaitersAreCounted, LendsAreCounted, BorrowsAreCounted, WhoWaitsIsKept};
ghost use Rattle.standing.specs.MarksKept.{SetsKeepMarks, SubtasksKeepMarks, CallsKeepMarks, HandlesKeepMarks, ContextKeepsMarks, PressureKeepsMarks, TasksKeepMarks, EndsKeepMarks};
ghost use Rattle.standing.specs.Marks.{StatesChange, StatesAreMade, NewIsMarked, StatesRise, StatesStay, BlockedStays, GoingStays, TellingStays, KeepingStays, AwaitingStays, EnteredIsStarted, ReturnedIsReturned, CancelledIsCancelled};

/// What is kept before a graph is instantiated stands for the first world.
pub fn first_stands()
    ensures { FirstStands }
{}

/// Where what is kept stands for a world, the same is found in both: at an index of a table an entry on both sides or on none, and one that
/// stands for the other; the next index, and whether there is room; the acting task; whether a unit of fuel is left; and what is picked.
pub fn found_alike()
    ensures entries { EntriesAreAlike }
    ensures next { NextIsAlike }
    ensures room { RoomIsAlike }
    ensures acting { ActingIsAlike }
    ensures fuel { FuelIsAlike }
    ensures picks { PicksAreAlike }
{}

/// A change of a component instance that is kept is a change of the one for which it stands: of its table, its sets and its backpressure.
/// How often a handle is lent, whether an end is idle, how many tasks wait on a set, and who holds or waits for entry are not said.
pub fn instances_stand()
    ensures added { EntriesAreAdded }
    ensures removed { EntriesAreRemoved }
    ensures alike { EntriesStayAlike }
    ensures made { SetsAreMade }
    ensures left { WaitablesLeave }
    ensures joined { WaitablesJoin }
    ensures waiters { WaitersAreNotSaid }
    ensures pressure { PressureChanges }
    ensures entry { EntryIsNotSaid }
{}

/// A change of what is kept is a change of the world for which it stands: of component instances, tasks and their stacks, the chain, the store,
/// and what a script gives. A refused call writes back what it looked at.
pub fn changes_stand()
    ensures instances { InstancesChange }
    ensures stay { InstancesStay }
    ensures refused { RefusalsChangeNothing }
    ensures begun { InstancesBegin }
    ensures tasks { TasksChange }
    ensures made { TasksAreMade }
    ensures answered { StacksAreAnswered }
    ensures chained { TasksComeToTheChain }
    ensures unchained { TasksLeaveTheChain }
    ensures spent { UnitsAreSpent }
    ensures taken { ItemsAreTaken }
    ensures picked { PicksAreUsed }
    ensures stores { StoresChange }
{}

/// Built-ins that answer at once do what the machine does, behind their line and the test that a task may leave: words of context, what a handle stands for, a new handle, backpressure, a new set,
/// a waitable that joins one, and a set and a subtask that leave the table.
pub fn built_ins_agree()
    ensures context { ContextIsRead }
    ensures context_set { ContextIsSet }
    ensures rep { RepIsRead }
    ensures handle { HandleIsMade }
    ensures rises { PressureRises }
    ensures falls { PressureFalls }
    ensures pressure { PressureIsSet }
    ensures set { SetIsMade }
    ensures joined { WaitableIsJoined }
    ensures set_dropped { SetIsDropped }
    ensures subtask { SubtaskIsDropped }
{}

/// A task is made for the script's next call, goes on by its line, comes to its end, exits, and lets others run as the machine does: with a
/// unit of fuel where that costs one, with the same traps, and off the chain where it blocks.
pub fn tasks_agree()
    ensures taken { CallIsTaken }
    ensures goes_on { TaskGoesOn }
    ensures acting { ActingGoesOn }
    ensures ends { TaskEnds }
    ensures exits { TaskExits }
    ensures yields { TaskYields }
{}

/// The state of a subtask that is kept for its caller is that of its task: so it is of a new task, so it stays where the two rise together,
/// where a task blocks, goes on, enters, returns or is cancelled, and where its caller is told, waits for it, or keeps its result.
pub fn states_marked()
    ensures changed { StatesChange }
    ensures made { StatesAreMade }
    ensures new { NewIsMarked }
    ensures rises { StatesRise }
    ensures stays { StatesStay }
    ensures blocked { BlockedStays }
    ensures going { GoingStays }
    ensures told { TellingStays }
    ensures kept { KeepingStays }
    ensures awaited { AwaitingStays }
    ensures entered { EnteredIsStarted }
    ensures returned { ReturnedIsReturned }
    ensures cancelled { CancelledIsCancelled }
{}

/// Where what is kept stands for a world, marks of what is kept alone are what the machine computes of the world: who holds and waits for exclusive entry, how
/// many tasks wait on a set, how often a handle is lent, how many borrow handles a task has, and who waits directly for a subtask. Before a graph is
/// instantiated they are right.
pub fn marks_count()
    ensures first { FirstIsMarked }
    ensures gates { GatesAreKept }
    ensures waiters { WaitersAreCounted }
    ensures lends { LendsAreCounted }
    ensures borrows { BorrowsAreCounted }
    ensures awaited { WhoWaitsIsKept }
{}

/// Built-ins leave the marks of gates and of sets as they follow from the tasks: who holds and waits for entry, and how many tasks wait on each set. Those of
/// sets and subtasks ask that each set stands at one index, that no task waits where the next entry will stand, that subtasks run functions, and that
/// the task runs one of the instance.
pub fn marks_stay()
    ensures sets { SetsKeepMarks }
    ensures subtasks { SubtasksKeepMarks }
    ensures calls { CallsKeepMarks }
    ensures handles { HandlesKeepMarks }
    ensures context { ContextKeepsMarks }
    ensures pressure { PressureKeepsMarks }
    ensures tasks { TasksKeepMarks }
    ensures ends { EndsKeepMarks }
{}
