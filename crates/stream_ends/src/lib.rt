//! The two ends of a stream, where its reads and writes meet (Component Model, CanonicalABI.md, "Stream State").
//!
//! A read or a write offers room or elements. An offer that meets none stands and waits for the other end; one that
//! meets room copies as much as both have, and the layer above moves the elements; one that meets a full offer takes its
//! place. What came of a standing offer is
//! told once, at its delivery or where the copy is cancelled.
//!
//! Contracts see a meeting place as its two ends and the number of elements that are due to be copied. The copies that are
//! closed are not kept: a clause `stands` says of which run of calls the ends come.
//!
//! - `side` and `open_copy`: the two sides, and a read or write under way
//! - `stream_end`: one end
//! - `meet`: an offer that meets the other end
//! - `rendezvous`: both ends
//! - `laws`: what holds of every run of reads, writes, deliveries, cancels and drops
#![tactic(auto)]

pub mod laws;
mod meet;
mod open_copy;
mod rendezvous;
mod side;
mod stream_end;

pub use meet::Meet;
pub use open_copy::{By, CopyEvent, CopyResult, Offer, OpenCopy};
pub use rendezvous::Rendezvous;
pub use side::Side;
pub use stream_end::End;
