//! What is told of a run so far, beside the machine's run.

ghost use Rattle.run_laws.specs.Fronts.{SoFarIsOfMachine};

use crate::supplying::words_are_supplied;
use reach_laws::{reached_worlds_are_typed, steps_are_fed};

/// What steps of a program have told so far, from before its graph is instantiated on, is a front of what the machine's run of its graph and script tells, the last
/// line among it: also where values were still to be passed, and what the machine tells of its turn was told ahead. Where the last of these steps ended the run it is all of
/// that. It asks the same of the program and of single steps as that whole runs are the machine's, and that the machine has a run; that the program's own run
/// comes to an end is not asked.
pub fn so_far_is_of_machine()
    ensures { SoFarIsOfMachine }
{
    steps_are_fed();
    reached_worlds_are_typed();
    words_are_supplied();
}
