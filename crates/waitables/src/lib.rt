//! The waitable sets of a component instance (Component Model, CanonicalABI.md, "Waitable Set State").
//!
//! A waitable is in at most one set, and a set has its members in the order in which they joined. Each member stands under
//! the time of its joining, and each waitable that is in a set has a place, which is that set and that time.
//!
//! Contracts see the sets as a list of members and waiters. What happened to them is not kept: a clause `stands` says for
//! every history what a call adds to it.
//!
//! - `sets`: the sets of an instance
//! - `members`: the members of a set, as callers read them
//! - `place`: where a waitable is a member
//! - `refusal`: why a set isn't dropped
//! - `laws`: what holds after every history
#![tactic(auto)]

pub mod laws;
mod members;
mod place;
mod refusal;
mod sets;

pub use members::Members;
pub use refusal::SetRefusal;
pub use sets::Sets;
use syntax_trees::Seq;

/// A list of waitables.
pub type Nums = Seq<u32>;
