//! Lifting: the value of a type that stands in the bytes of a memory, or in core values, or the first part from left to right
//! that stands for nothing (Component Model, CanonicalABI.md, "Loading", "Flat Lifting").
//!
//! Contracts see what is lifted as a function of the bytes, `specs/Lifting`. Which value stands where is said apart from it, by
//! cases on the value, in `specs/Standing` of memories and in `specs/WordStanding` of core values, and so is which part is the
//! first that stands for nothing, and why, in `specs/Failing` and `specs/WordFailing`; the laws tie both.
//!
//! - `lifts`: values with handles and ends, which a table of handles names; `bare`: those without
//! - `loads`: values of a memory; `words`: values from core values; `lifting`: values with parts; `plain` and `texts`: those without
//! - `ledger`: what lifting goes on with; `by_table`: a table of handles; `by_index`: none
//! - `indices`: indices of a table that are lifted; `named`: what they name; `moved`: what that moves
//! - `bytes`: numbers and bytes of a memory
//! - `counting`: how much one lifting may count
//! - `trap`: why a value is not lifted
//! - `laws`: what holds of lifting alone
#![tactic(auto)]

mod bare;
mod by_index;
mod by_table;
mod bytes;
mod counting;
mod indices;
pub mod laws;
mod ledger;
mod lifting;
mod lifts;
mod loads;
mod moved;
mod named;
mod plain;
mod texts;
mod trap;
mod words;

pub use bare::{lift_flat_bare, load_bare, load_list_bare};
pub use counting::LiftOf;
pub use lifts::{lift_flat, load, load_list};
pub use loads::load_int;
pub use moved::Moved;
pub use trap::{LiftError, LiftTrap, LiftWhy};
