//! Events (Component Model, CanonicalABI.md, "Waitable Set State", `canon waitable-set.wait`; Concurrency.md, "Waitables and Waitable Sets"):
//! what has news, how an event comes to a task, and which tasks can go on.
//!
//! The one clause of each function says that it does what the rule of its name does (`world_parts`, in specs/).
//!
//! - `news`: what has news, and which members of sets are ready
//! - `ability`: which tasks can go on
//! - `events`: how events come to tasks
//! - `waits`: built-ins that ask for an event of a set
#![tactic(auto, using(world_parts::proofs::Thens::thens))]

mod ability;
mod events;
mod news;
mod waits;

pub use ability::able;
pub use events::{deliver, poll, receive_cancel, receive_none};
pub use waits::set_wait;
