//! Validation of core modules (Core 2.0, section 3).
//!
//! `validate` makes a `Valid` of a module: a module that the typing rules type. An error names the module's first fault, and
//! comes only where they do not type it.
//!
//! - `check`: from a module to a valid one, or to its first fault
//! - `codes`: the rule on bodies
//! - `walk`, `body` and `stacking`: the validation algorithm over a body, over its blocks, and over its operands; `checker`
//!   and `open_block`: what is known of operands and of open blocks; `reasons`: why the rules stop
#![tactic(auto)]

mod body;
mod check;
mod checker;
mod codes;
mod open_block;
mod reasons;
mod stacking;
mod walk;

pub use check::validate;
pub use wasm_typing::{Valid, ValidFault, ValidWhy};
