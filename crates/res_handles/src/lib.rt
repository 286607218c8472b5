//! Handles of resources, and readable ends of streams and futures, in the table of a component instance (Component Model,
//! CanonicalABI.md, "Resource State", "Loading" and "Storing", `canon resource.drop` and `canon resource.rep`).
//!
//! A handle is an entry of a `handle_table::Table`, whose entries are of any type that tells which of them are handles, and which
//! readable ends (`Entry`). The calls lift a handle out of the table, lend it, lower one into it, drop it and read it, and lift and
//! lower an end, each with its tests in their order. What was done is not kept: a clause `stands` says for every history of the
//! table what a call adds to it, and a clause `run` for every run of calls. By the laws of runs the number of lends that a handle
//! keeps is that of its open loans, and the live borrow handles of a task rise by one with each that is lowered for it and fall by
//! one with each that is dropped. A handle stays what it was lowered as, but for its lends, until it is lifted as own or dropped.
//!
//! - `handle`: a handle
//! - `entry`: what an entry of a table is, for handles and ends
//! - `refusal`: why a call is refused
//! - `home`: where and for which task a borrow is lowered
//! - `lifting`: handles that are lifted, lent, dropped and read
//! - `lowering`: handles that are lowered
//! - `ends`: readable ends that are lifted and lowered; `readable_end`: such an end
//! - `laws`: what holds of every run of calls
#![tactic(auto)]

mod ends;
mod entry;
mod handle;
mod home;
pub mod laws;
mod lifting;
mod lowering;
mod readable_end;
mod refusal;

pub use ends::{lift_end, lower_end};
pub use entry::{Entry, EntryView};
pub use handle::{Handle, Ownership};
pub use home::Home;
pub use lifting::{drop_handle, end_lend, lift_borrow, lift_own, rep};
pub use lowering::{lower_borrow, lower_own};
pub use readable_end::ReadableEnd;
pub use refusal::{LowerError, Refusal};
