//! Runs of the machine of asynchronous calls, move by move (Component Model, CanonicalABI.md; Concurrency.md, "Summary").
//!
//! A move leads from a rest of what is kept up to the next one, or up to where values are to be passed, which its answer then says
//! (`Passing`). The one clause of each function says what it makes of what is kept and of the stacks.
//!
//! - `beginning`: what is kept before a graph is instantiated
//! - `moving`: one move, by where the run is, but for core code that runs
//! - `running`: core code runs
//! - `calling`: calls of canonical functions by core code
//! - `following`: events that come, and stacks that go on
//! - `turning`: where no task runs, the script's next item is taken or a task goes on
//! - `stepping`: one step, by what is to be passed and where the run is
//! - `laws`: what a step asks for holds in each world to which steps lead
//! - `world`: worlds in a run; `ending`: how runs end, `fault`: why one comes to no end; `running_script`: runs of scripts, whose trace goes out as
//!   they go
#![tactic(auto, using(world_parts::proofs::Thens::then_gives, world_parts::proofs::Thens::then_traps, world_parts::proofs::Thens::then_spent, world_parts::proofs::Thens::then_stuck, world_stacks::proofs::Givens::given_some, world_stacks::proofs::Givens::given_none))]

mod beginning;
mod calling;
mod ending;
mod fault;
mod following;
mod laws;
mod moving;
mod running;
mod running_script;
mod stepping;
mod turning;
mod world;

pub use beginning::{first_parts, first_stacks};
pub use calling::call;
pub use ending::{LastLine, RunEnd};
pub use fault::RunFault;
pub use following::follow;
pub use laws::runs_step_on;
pub use moving::make_move;
pub use running::run;
pub use running_script::{Ran, run_script};
pub use stepping::{Step, make_step};
pub use turning::turn;
pub use world::World;
