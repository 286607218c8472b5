//! The words of the command line, and the request that they lead to.
//!
//! `request_of` reads the words by `clap`. What they lead to is said in `specs/Words`, by clap's own definitions.
//!
//! - `words`: the request that the words lead to
//! - `laws`: what holds of the definitions alone
#![tactic(auto)]

pub mod laws;
mod words;

pub use words::{Command, Request, request_of};
