//! The reader of the binary format of core modules.
//!
//! The layer above takes a module as read. `read_module` answers it exactly for the bytes of a module, and else the
//! first place at which they leave the format, with the reason. Only want of memory keeps it from either.
//!
//! - `reading`: the reading of a module
//! - `items`, `segments`, `code`, `sections` and `whole`: a function or a kind for each item of the format
//! - `declared` and `parted`: what is read of a module before its tree is made, and parts with their places
//! - `laws`: that bytes are one module, or are refused in one way
#![tactic(auto)]

mod code;
mod declared;
mod items;
pub mod laws;
mod parted;
mod reading;
mod sections;
mod segments;
mod whole;

pub use reading::read_module;
