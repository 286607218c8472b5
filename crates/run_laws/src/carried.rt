//! What is carried from point to point of a run, and whole runs.

ghost use Rattle.run_laws.specs.Carried.{FirstIsCarried, CarriedStepsSo, CarriedMayStep, StepsCarry, RunsAreOfMachine};
ghost use Rattle.run_laws.specs.Left.{DumpsAgree, RunsLeaveDumps, RunsLeaveWorlds};
ghost use Rattle.run_laws.specs.SuppliedPassings.{ProgramsPass, ReturnedSupplied, ElementsSupplied, PlacesSupplied, EndedSupplied};

use crate::supplying::words_are_supplied;
use reach_laws::{reached_worlds_are_typed, steps_are_fed};

/// The program that is made of a graph and a script for it numbers the types of what its functions and built-ins pass, and tells the values of the script's
/// calls: all that is asked of a program's numbers and values where values are passed.
pub fn programs_pass()
    ensures { ProgramsPass }
{}

/// Where a task returns by `task.return`, and where elements go over, what is asked to pass them is so where it called the canonical function in a world
/// that a run reaches, and what is kept is right then; of elements, where their place at the reader was tested besides.
pub fn passings_are_supplied()
    ensures returned { ReturnedSupplied }
    ensures elements { ElementsSupplied }
{}

/// Where elements go over, their place at the reader was tested: by the call, where that reads, and where it writes as the read was asked whose offer it meets.
/// So it is where what was kept at the rest before stands for a world that a run of a graph and a script that fit reaches.
pub fn places_are_supplied()
    ensures { PlacesSupplied }
{
    steps_are_fed();
}

/// Where a core function or a callback has ended, what is asked to pass its words is so where its stack ran in a world that a run of a graph and a script that
/// fit reaches.
pub fn ends_are_supplied()
    ensures { EndedSupplied }
{
    reached_worlds_are_typed();
}

/// What is carried from point to point of a run of a program that is made of a graph and a script that fit: where the machine is, what of what is kept is right
/// beside its world, and, where values are to be passed, from which rest a step led there. It is so before the graph is instantiated. It gives all
/// that a step asks, for marks to stay and for the machine to do the same; and each step that goes on leaves it.
pub fn runs_are_carried()
    ensures first { FirstIsCarried }
    ensures so { CarriedStepsSo }
    ensures may { CarriedMayStep }
    ensures steps { StepsCarry }
{
    steps_are_fed();
    reached_worlds_are_typed();
    words_are_supplied();
}

/// So each run of such a program is the machine's: it has the same lines in the same order, the last one among them, and the same end. What it leaves stands for
/// the last world of the machine's run, but where fuel was wanting; and where it is done, no task can go on, or a trap comes, that is written down as what the
/// machine's run leaves.
pub fn runs_are_of_machine()
    ensures lines { RunsAreOfMachine }
    ensures left { RunsLeaveWorlds }
    ensures dumps { RunsLeaveDumps }
{
    steps_are_fed();
    reached_worlds_are_typed();
    words_are_supplied();
}

/// What stands for a world, with marks of handles that are lent right and ends marked, is written down as the world is.
pub fn dumps_agree()
    ensures { DumpsAgree }
{}
