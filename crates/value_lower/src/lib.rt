//! Lowering: the values of a program go into the memory of a component instance, and into core values (Component Model,
//! CanonicalABI.md, "Storing", "Flat Lowering").
//!
//! What is lowered asks for places in the memory by calls of the instance's own code, and enters handles and ends into its table. So
//! lowering is said as a plan, `specs/Plan`, `specs/Entering`: what it asks for, and how it goes on with each answer. Each call says
//! that a room, which is a memory with what gives out its places, follows the plan, `specs/Following`, with its table, `specs/Tables`.
//!
//! - `lowers`: values with handles and ends, which go into a table; `bare`: those without; the calls with `_by` have either
//! - `room`: where values are lowered; `ends`: why values are not lowered
//! - `stores`: values into a memory; `words`: values into core values; `storing`: values with parts; `plain`: those without
//! - `beside`: what stands beside a room; `by_table`: a table of handles; `by_number`: nothing; `new_entry`: what is entered
//! - `asking`: new places, and tests of places; `laws`: what holds of plans alone
#![tactic(auto)]

mod asking;
mod bare;
mod beside;
mod by_number;
mod by_table;
mod ends;
pub mod laws;
mod lowers;
mod new_entry;
mod plain;
mod room;
mod stores;
mod storing;
mod words;

pub use bare::{lower_flat_bare, lower_placed_bare, store_bare, store_list_bare};
pub use beside::Beside;
pub use by_table::lower_entry;
pub use ends::{LowerError, LowerWhy, RoomEnd};
pub use lowers::{lower_flat, lower_placed, store, store_list};
pub use new_entry::NewEntry;
pub use room::Room;
pub use stores::{lower_placed_by, store_by, store_list_by};
pub use words::{Words, lower_flat_by};
