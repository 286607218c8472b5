//! What `task.return` tests of its type and its options, once the task may return and before its result is lifted (Component Model, CanonicalABI.md, `canon task.return`).
//!
//! - `returning`: the type of the result, and the options
#![tactic(auto, using(world_parts::proofs::Thens::thens))]

mod returning;

pub use returning::check_return;
