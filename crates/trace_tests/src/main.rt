//! Tests of the texts of traces: a program that goes through tables of cases, which are derived from their format by hand.
//!
//! The file `stdin` names the tables, each behind its kind, and the file `stdout` has how many cases are in each. In the first ones
//! a case is a line, with what is wanted behind ` = `:
//!
//! - `line`: what a label is and its numbers; `block`: why a task blocks, and a number. Their lines are wanted
//! - `builtin`, `trap`: the variant of a built-in or a trap; its name is wanted
//! - `take`: the name of a call that is taken, and its arguments, each as its type and its value, with a bar between them and a
//!   semicolon behind them; `return`: the number of a task, and the type and the value of its result; `copy`: the number of a
//!   stream, the type of the elements, and the elements. Their lines are wanted
//! - `put`: how many lines of deadlocks are put to a trace, how many tasks each names (a line has 9 bytes, and 3 more for each
//!   task), and the number of the write that fails (0: none does). Wanted are the room of a trace, how many lines are put before
//!   a put fails, how the last put ends, and how many bytes the sink took before any flush
//! - `tally`: the lines that are put to a trace over a sink that keeps nothing, with a plus between them: elements that hold nothing, a
//!   deadlock of so many tasks, the end, or the type of elements, with a bar behind it, and the elements. Wanted is what the trace counts
//!
//! The others have other marks:
//!
//! - `name`: a line a name and its text, with a bar between them
//! - `sink`: a line a sink: what it is written, how many bytes it takes in one write, the number of the write that fails (0: none
//!   does), and behind a bar how the last call ends, with what the sink took
//! - `tables`: a paragraph the tables of instances, a line each, and what is dumped of them, in angle brackets. An entry is its
//!   index, its kind and its numbers, with a semicolon behind it: a handle has its resource, its representation, for a borrow its
//!   task, and its lends; a subtask has its task and its state, a set its members, and an end the number of its stream or future
//! - `memories`: a paragraph the memories behind an instance without entries, a line each, and what is dumped of them, in angle
//!   brackets. A memory is words of a place and the bytes that stand there, in hexadecimal; up to each place stand zeros, and the
//!   last place is the end
//!
//! - `kinds`: kinds of tables with the first mark
//! - `labels`: labels of words and numbers; `telling`: their lines
//! - `lines`: a line of each kind; `values`: lines with values
//! - `variants`: built-ins and traps by the names of their variants
//! - `name_tables`: the names of built-ins and traps, and texts of names
//! - `dumps`: what is left in tables and memories
//! - `traces`: traces that go to a sink
#![tactic(auto)]

mod dumps;
mod kinds;
mod labels;
mod lines;
mod name_tables;
mod telling;
mod traces;
mod values;
mod variants;

use cases::{Answers, Tables, check_lines, check_steps, paragraphs_told, run_tables};
use dumps::{InMemories, InTables};
use kinds::Kind;
use name_tables::{NamesTold, check_controls};
use std::alloc::Global;
use std::test::Fail;
use traces::SinksTold;

/// How many cases a table has whose lines have this mark before what is wanted. It fails if one has another answer.
fn marked<T: Answers>(alloc: Global, mark: &str, text: &str) -> Result<String, Fail> {
    let count = text.lines().count();
    check_lines::<T>(alloc, text, mark, count)?;
    Ok(format!(in alloc; "{count} cases")?)
}

/// The same of a table of a kind with the first mark.
fn of_kind(alloc: Global, kind: &str, text: &str) -> Result<String, Fail> {
    let count = text.lines().count();
    let lines = format!(in alloc; "{kind}\n{text}")?;
    check_steps::<Kind>(alloc, lines.as_str(), count)?;
    Ok(format!(in alloc; "{count} cases")?)
}

/// The tables.
struct TraceTables;

impl Tables for TraceTables {
    fn told(alloc: Global, kind: &str, text: &str) -> Result<String, Fail> {
        match kind {
            "name" => marked::<NamesTold>(alloc, "|", text),
            "sink" => marked::<SinksTold>(alloc, " | ", text),
            "tables" => paragraphs_told::<InTables>(alloc, text),
            "memories" => paragraphs_told::<InMemories>(alloc, text),
            kind => of_kind(alloc, kind, text),
        }
    }
}

fn main(rt: HostRuntime) -> Result<(), Fail> {
    check_controls(rt.alloc())?;
    run_tables::<TraceTables>(&rt)
}
