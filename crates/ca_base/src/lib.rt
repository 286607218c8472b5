//! The base of all that reads: bytes that are read item by item, look-ups by name, and fuel. Lists and names, which stand in
//! `syntax_trees`, and want of memory and first faults, in `faults`, are handed on.
//!
//! A format is a grammar of `specs/Grammar`, and its reader is made of calls of `Window`. Each call reads exactly what
//! its grammar stands for, or answers the first place at which the bytes leave it, with the reason. Every grammar stands
//! for one item of given bytes or is refused in one way, so a reader's answer is the only right one.
//!
//! Fuel falls by one unit at each call that spends one, and such a call is refused only where none is left.
//!
//! - `cursor`: bytes that are read one after the other
//! - `window`, `items` and `ending`: a part of a file that is read, and the items that the formats share
//! - `kind` and `kind_of`: the loops over items, written once for all kinds of items
//! - `numbers`: numbers that are read
//! - `names`: names that stand twice, and look-ups by name
//! - `placed`: items with their places
//! - `reason` and `refusal`: why and where bytes are refused
//! - `fuel`: a budget of work
#![tactic(auto)]

mod cursor;
mod ending;
mod fuel;
mod items;
mod kind;
mod kind_of;
mod names;
mod numbers;
mod placed;
mod reason;
mod refusal;
mod window;

pub use cursor::{ByteFault, ByteWhy, Cursor};
pub use faults::{Memory, MemoryOr, Rule, Step, check_all, step_all};
pub use fuel::Fuel;
pub use kind::{
    Kind, PlacedOf, SizedOf, VecOf, read_placed, read_section, read_sized, read_times,
    read_to_the_end, read_vec,
};
pub use kind_of::{KindOf, read_each, read_sized_of, read_times_of, read_vec_of};
pub use names::{are_distinct, by_name, find, first_twice};
pub use placed::{Placed, apart, join};
pub use reason::{NumberReason, Reason};
pub use refusal::{ReadError, Refusal};
pub use syntax_trees::{Bytes, Name, Named, Seq, adds};
pub use window::Window;
