//! The outside of the program as values: sources of files and sinks of bytes.
//!
//! A source and a sink count their faults, and a call on them fails only where that count rose. The layer above reads a
//! whole file by `read_all` and writes a whole part by `write_all`, over any source and any sink.
//!
//! - `files` and `reading`: sources of files, and the reading of a whole one; `mem_files`: files in memory
//! - `sink` and `writing`: sinks of bytes, and the writing of a whole part; `mem_sink`: a sink in memory; `null_sink`: one
//!   that keeps nothing
//! - `failed`: a read or write that failed
#![tactic(auto)]

mod failed;
mod files;
mod mem_files;
mod mem_sink;
mod null_sink;
mod reading;
mod sink;
mod writing;

pub use failed::Failed;
pub use files::Files;
pub use mem_files::MemFiles;
pub use mem_sink::MemSink;
pub use null_sink::NullSink;
pub use reading::{FileError, read_all};
pub use sink::Sink;
pub use writing::write_all;
