//! Execution of core modules (Core 2.0, section 4.4): stacks that run in a store, and that wait.
//!
//! Contracts see a stack as the one of wasm_store.
//!
//! - `running`: stacks that run or wait, and what comes of a run; `starting`: how they begin, and go on after a call of the host
//! - `execution`: runs of stacks; `turn`: the function that runs, up to its end, a call, a trap or want of fuel
//! - `frame`: functions that run, by places in their code; `branching`: branches and blocks; `control`: what comes next
//! - `stepping`: single instructions; `entering`: those that begin blocks; `calling`: calls; `invoking`: frames of what is called
#![tactic(auto)]

mod branching;
mod calling;
mod control;
mod entering;
mod execution;
mod frame;
mod invoking;
mod running;
mod starting;
mod stepping;
mod turn;

pub use execution::run;
pub use running::{Outcome, Running, Suspended, Words};
pub use starting::start;
