//! Built-ins of streams and futures (Component Model, CanonicalABI.md, "Stream State" and "Future State", `canon stream.new` and its fellows):
//! ends come, are read and written, cancelled and dropped; up to where elements are lifted and lowered, and from where they stand at the
//! reader on.
//!
//! The one clause of each function says that it does what the rule of its name does (`world_parts` and here, in specs/). A read or write
//! that meets an offer with room answers `Flow::Copies`; `moving_of` tells then what is to go over from where to where, and `complete` ends the
//! call once it has.
//!
//! - `ends`: streams and futures that are made, met and dropped
//! - `copies`: their built-ins, but for reads and writes
//! - `elements`: the elements of reads and writes, and where they lie in memory
//! - `reading`: reads and writes, and what they meet
//! - `moving`: elements that go over
//! - `replying`: how the built-ins are answered
#![tactic(auto, using(world_parts::proofs::Thens::thens))]

mod copies;
mod elements;
mod ends;
mod moving;
mod reading;
mod replying;

pub use copies::{channel_new, copy_cancel, end_drop};
pub use elements::element_at;
pub use moving::{CopySide, Moving, complete, moving_of};
pub use reading::{CopyCall, read_or_write};
pub use replying::end_reply;
