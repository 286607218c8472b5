//! The two ends of a future, where its read and its write meet (Component Model, CanonicalABI.md, "Future State").
//!
//! A future passes one value. An offer that meets none stands and waits for the other end; one that meets another
//! copies the value, which completes both. What came of a standing offer is told once, at its delivery or where the copy
//! is cancelled. An end that was told anything but a cancel is done.
//!
//! Sides, copies and single ends are those of streams, with offers of length 1. As there, the copies that are closed
//! are not kept: a clause `stands` says of which run of calls the ends come.
//!
//! - `meet`: an offer that meets the other end
//! - `future_end`: what differs at one end from a stream's
//! - `rendezvous`: both ends
//! - `laws`: what holds of every run of reads, writes, deliveries, cancels and drops
#![tactic(auto)]

mod future_end;
pub mod laws;
mod meet;
mod rendezvous;

pub use meet::Meet;
pub use rendezvous::Rendezvous;
