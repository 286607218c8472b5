//! Tests of instances, tasks and channels, through their public calls: a program that goes through tables of cases.
//!
//! A case is a line: what happens to something new, a word for each act, and the answers. The file `stdin` names the tables, and the
//! file `stdout` has how many cases are in each.
//!
//! - `instance_cases`: entries and what stands at an index; `handle_cases`: handles and ends that are lifted and lowered; `set_cases`:
//!   waitable sets; `gate_cases`: who enters
//! - `slot_cases`: tasks with what a run keeps of them
//! - `task_cases`: the tasks of a run
//! - `channel_cases`: streams and futures
//! - `words`: numbers in words, and answers in texts
#![tactic(auto)]

mod channel_cases;
mod gate_cases;
mod handle_cases;
mod instance_cases;
mod set_cases;
mod slot_cases;
mod task_cases;
mod words;

use cases::{Tables, lines_told, run_tables};
use channel_cases::{Futures, Streams};
use gate_cases::Gates;
use handle_cases::Handles;
use instance_cases::Entries;
use set_cases::Sets;
use slot_cases::{Guests, Hosts};
use std::alloc::Global;
use std::test::Fail;
use task_cases::Runs;

/// The tables, by the names of their kinds.
struct AllTables;

impl Tables for AllTables {
    fn told(alloc: Global, kind: &str, text: &str) -> Result<String, Fail> {
        match kind {
            "entry" => lines_told::<Entries>(alloc, text, " ="),
            "handle" => lines_told::<Handles>(alloc, text, " ="),
            "set" => lines_told::<Sets>(alloc, text, " ="),
            "gate" => lines_told::<Gates>(alloc, text, " ="),
            "guest" => lines_told::<Guests>(alloc, text, " ="),
            "host" => lines_told::<Hosts>(alloc, text, " ="),
            "stream" => lines_told::<Streams>(alloc, text, " ="),
            "tasks" => lines_told::<Runs>(alloc, text, " ="),
            "future" => lines_told::<Futures>(alloc, text, " ="),
            _ => Err(Fail::new("another kind")),
        }
    }
}

fn main(rt: HostRuntime) -> Result<(), Fail> {
    run_tables::<AllTables>(&rt)
}
