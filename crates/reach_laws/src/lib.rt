//! What holds of each world that a run of the machine of asynchronous calls reaches (Component Model, CanonicalABI.md; Concurrency.md, "Summary"):
//! definitions and laws, without a body.
//!
//! `abi_machine` says what a world is and what comes next, and its laws what a step keeps, each under premises on the world. `specs/Runnable` names
//! what is asked of a graph, which linking gives, and of a script for it; from this alone `specs/Reached` has that every world which a run reaches is
//! typed, and that the premises hold in it, and `specs/Going` that either one step comes next there, or the run has ended, so that there is exactly one
//! run: steps that cost nothing come to an end, whatever the graph and the script. `specs/ReadScripts` has what holds of the arguments in a script that
//! is read. `specs/Known..` have what else is so of each reached world: of tasks that call tasks, and of ends. `specs/Fits` puts together all that laws of
//! runs of the code ask of a graph and a script.
//!
//! - `laws`: the laws
#![tactic(auto)]

mod laws;

pub use laws::{
    calls_are_known, copies_are_known, ends_are_known, exactly_one_next, free_steps_end,
    one_run_comes, reached_worlds_are_typed, read_scripts_pass_no_handles, scripts_pass_typed,
    steps_are_fed,
};
