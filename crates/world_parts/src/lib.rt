//! What is kept of a world while it runs, and the parts of which its steps are made (Component Model, CanonicalABI.md; Concurrency.md,
//! "Summary").
//!
//! `specs/Held` has what is kept, field by field, and what a part comes to. Each part is a function of that, and the one clause of its
//! code says that the code does it. A number of which nothing stands is an answer of code too (`Stop::Stuck`), so that no part has a
//! condition; the machine never comes to that.
//!
//! - `parts`: what is kept, and what a part comes to
//! - `entries`, `sets` and `gates`: component instances: their tables, their sets, and who enters
//! - `slots` and `slot_edits`: tasks: what is told of one, and what happens to it
//! - `ends`: streams and futures
//! - `blocking`: tasks block, and callers of tasks and ends are told
//! - `feed`: fuel, choices, items, lines, and the chain of running tasks
//! - `places`: memories
//! - `names`: the names of traps
#![tactic(auto, using(crate::proofs::Thens::then_gives, crate::proofs::Thens::then_traps, crate::proofs::Thens::then_spent, crate::proofs::Thens::then_stuck))]

mod blocking;
mod ends;
mod entries;
mod feed;
mod gates;
mod names;
mod parts;
mod places;
mod sets;
mod slot_edits;
mod slots;

pub use blocking::{block, block_in, tell_end, tell_subtask, yield_cancelled};
pub use ends::{number_behind, numbered, place_of};
pub use entries::set_number;
pub use feed::same_words;
pub use names::{refusal_name, set_name, task_name};
pub use parts::{Copying, Feed, Flow, Part, Parts, Receiver, Rest, Stop, Turned};
pub use slots::word_in;
