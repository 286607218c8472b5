//! The text of a run: a line for each of its steps, and the dump of what it leaves.
//!
//! A `Label` of `trace_labels` is a line of a trace, `label_text` its text. A `Trace` writes labels to a sink as a run goes,
//! and keeps back no more than a bounded number of bytes.
//!
//! - `values` and `lines`: the texts of values with types, and of labels
//! - `dump_lines`: the text of what a run leaves in tables and memories
//! - `trace`: a trace over a sink; `tally`: what is counted of its lines
#![tactic(auto)]

mod dump_lines;
mod lines;
mod tally;
mod trace;
mod values;

pub use dump_lines::dump_text;
pub use lines::label_text;
pub use tally::lines_are_counted;
pub use trace::{ROOM, Trace};
pub use trace_labels::{
    BlockReason, Builtin, Channel, Copied, Dump, EndState, Entry, Label, LiveEntry, Side, TrapName,
    TypedValue, TypedValues,
};
pub use value_texts::{name_text, type_text, value_text};
