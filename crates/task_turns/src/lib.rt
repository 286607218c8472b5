//! How tasks enter, block in their loops, go on and exit, and what is chosen of what may be done (Component Model, CanonicalABI.md, "Task
//! State", `canon lift`; Concurrency.md, "Summary").
//!
//! The one clause of each function says that it does what the rule of its name does (`world_parts`, in specs/).
//!
//! - `gates`: who enters
//! - `going`: tasks enter, block in their loops and exit
//! - `resuming`: tasks that were blocked go on
//! - `turning`: what is chosen
#![tactic(auto, using(world_parts::proofs::Thens::thens))]

mod gates;
mod going;
mod resuming;
mod turning;

pub use going::{arrive, end, enter, leave, loop_word};
pub use resuming::resume;
pub use turning::{go_now, turn};
