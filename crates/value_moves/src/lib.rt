//! Values that go from one task to another (Component Model, CanonicalABI.md, "Lifting and Lowering Values"): arguments where a task enters, its
//! result where it resolves, and elements of streams and futures.
//!
//! Values are lifted by `value_parts` and lowered here, over what is kept of a world. Where code of the reading instance gives out places, a
//! relation says what a part may come to.
//!
//! - `lowering`: values that are lowered; `lowered`: arguments and results; `borrowing`: borrow handles that a task gets with its arguments
//! - `entering`: tasks enter with their arguments; `resolving`: they resolve with their results; `transferring`: elements of copies
//! - `passing`: what is to be passed is passed; `laws`: what that leaves as it was
#![tactic(auto, using(world_parts::proofs::Thens::then_gives, world_parts::proofs::Thens::then_traps, world_parts::proofs::Thens::then_spent, world_parts::proofs::Thens::then_stuck, world_stacks::proofs::Givens::given_some, world_stacks::proofs::Givens::given_none, value_parts::proofs::Chains::mays))]

mod borrowing;
mod entering;
mod laws;
mod lowered;
mod lowering;
mod passing;
mod resolving;
mod transferring;

pub use laws::passes_stay_fit;
pub use passing::ValueMoves;
