//! Rooms over a store: values are lowered into a memory of core code, whose own function gives out the places (Component Model,
//! CanonicalABI.md, "Lifting and Lowering Context").
//!
//! - `copying`: elements from one component instance to another
//! - `lower_values`: values into a component instance, with its table; `setting`: where that is
//! - `hosted`: runs of a realloc on a stack of its own, which sees the table; `answering`: what its calls are answered; `acts`: what it did
//! - `seen_table`: the table beside a store, as value_lower asks for it; `memories`: the bytes of a store's memory
//! - `store_room`: a memory of a store with the options' realloc and no table, as a room of value_lower; `lowering`: values into it
//! - `nested`: runs of a realloc that may call nothing; `laws`: what a lowering comes to then, as steps
#![tactic(auto)]

mod acts;
mod answering;
mod copying;
mod hosted;
pub mod laws;
mod lower_values;
mod lowering;
mod memories;
mod nested;
mod seen_table;
mod setting;
mod store_room;

pub use acts::{Act, Acts};
pub use answering::{Answer, CallRefusal};
pub use copying::{Copied, CopyFrom, copy};
pub use hosted::{HostedRoom, HostedTrap};
pub use lower_values::{Lowered, Target, lower, lower_list};
pub use nested::{HostCall, NestedTrap};
pub use setting::Lowering;
pub use store_room::{LowerOptions, StoreRoom, Taken};
