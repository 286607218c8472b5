//! Want of memory, and faults beside it.
//!
//! - `memory`: want of memory, alone or beside a fault
//! - `rule` and `step`: the first fault of a list of items, and a state that goes over one
#![tactic(auto)]

mod memory;
mod rule;
mod step;

pub use memory::{Memory, MemoryOr};
pub use rule::{Rule, check_all};
pub use step::{Step, step_all};
