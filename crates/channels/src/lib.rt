//! Streams and futures as a run keeps them: both ends of one, with one face for both kinds (Component Model, CanonicalABI.md, "Stream
//! State" and "Future State").
//!
//! A channel has no model: contracts see it as the record of its fields. What the calls of the ends ask for is tested here, so that no
//! call has a condition.
//!
//! - `channel`: a stream or a future
#![tactic(auto)]

mod channel;

pub use channel::{Channel, Ends};
