//! What is asked of a move, where a run reaches the world.

ghost use Rattle.run_laws.specs.Supplied.{InstantiatesSupplied, ArrivesSupplied, GoesSupplied, ResumesSupplied, BackSupplied, CallsSupplied, LeavesSupplied, EventsAreHeard, OthersHearNothing, MovesAreSupplied, ArgumentsSupplied, InstancesAreThere, CanonsAreInside, CallsPassWords, WaitsStandInside, DestructorsPassReps, FittingMovesSupplied, MemoriesAreNamed};

use abi_machine::calls_stay_fit;
use reach_laws::{reached_worlds_are_typed, steps_are_fed};

/// Where what is kept of a run that rests stands for a world that a run reaches, and its marks are right, what is asked of the acting task is so: where task 0
/// instantiates, where a task is new, goes on, by what it was blocked at, is back from a call or a cancellation, calls a canonical function, and where it exits. It asks that the component
/// instances of the functions that tasks run are there, and some more, each named.
pub fn rests_are_supplied()
    ensures instantiates { InstantiatesSupplied }
    ensures arrives { ArrivesSupplied }
    ensures goes { GoesSupplied }
    ensures resumes { ResumesSupplied }
    ensures back { BackSupplied }
    ensures calls { CallsSupplied }
    ensures leaves { LeavesSupplied }
{}

/// Where a task goes on, the event that is to come to it finds what it asks; at any other rest none is to come.
pub fn events_are_supplied()
    ensures resumes { EventsAreHeard }
    ensures others { OthersHearNothing }
{}

/// So all that is asked of a move is so, wherever the run rests, with what is asked besides.
pub fn moves_are_supplied()
    ensures { MovesAreSupplied }
{}

/// Where a task enters as it arrives, or as it goes on, what is asked to pass its arguments is so.
pub fn arguments_are_supplied()
    ensures { ArgumentsSupplied }
{}

/// Where the plan of a graph begins the component instances that its functions and canonical functions name, those of the functions that tasks run are there in each
/// world that a run reaches, and once all is instantiated those of canonical functions are too.
pub fn instances_are_there()
    ensures functions { InstancesAreThere }
    ensures canons { CanonsAreInside }
{}

/// Where a run of a graph and a script that fit reaches the world, core code calls canonical functions with words of their parameters; once all is instantiated the
/// place of a wait on a set lies inside the memory, where what is kept of memories is what options name; and a destructor is called with one 32-bit word.
pub fn words_are_supplied()
    ensures calls { CallsPassWords }
    ensures waits { WaitsStandInside }
    ensures destructors { DestructorsPassReps }
{
    steps_are_fed();
    reached_worlds_are_typed();
    calls_stay_fit();
}

/// So of a graph and a script that fit, whose plan begins the instances, all that is asked of a move is so, with what is left: that a subtask in a table was
/// called from there and runs elsewhere, that a task cancels another one, that copies that are to be told are waited for exactly where their calls wait, that no
/// dropped end stands in a table, that the instance of a canonical function is there that is called before all is instantiated, that the program's numbers of
/// types are those of its graph, and what is kept of places of waits and of memories.
pub fn fitting_moves_are_supplied()
    ensures { FittingMovesSupplied }
{
    steps_are_fed();
    reached_worlds_are_typed();
}

/// What is kept of memories is what options name, where of each core instance its first memory is kept, and options name first ones.
pub fn memories_are_named()
    ensures { MemoriesAreNamed }
{}
