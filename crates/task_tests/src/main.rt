//! Tests of waitable sets, tasks and subtasks, of the ends of streams and futures, and of tables of handles, gates and picks,
//! through their public calls: a program that goes through tables of cases.
//!
//! A case is a line: what happens to something new, a word for each act, and the answers. In the tables of steps (`sets`, `tables`,
//! `gates`) the lines of a paragraph happen to the same thing, one after the other. The files that end in `_runs` have a few
//! thousand acts that look random, with what plain models answer, which look through the history of all that happened;
//! `checks/runs.py` has these models and writes the files. The file `stdin` names the tables, and the file `stdout` has how many
//! cases are in each.
//!
//! - `set_tests`, `task_tests`, `subtask_tests`: waitable sets, tasks, subtasks
//! - `stream_tests`, `future_tests`: the ends of streams and futures; `act`: what may happen at them, and what is answered
//! - `all_runs`: every short run of a stream's ends, beside the model of `plain`
//! - `table_cases`, `handle_cases`, `gate_cases`, `pick_cases`: tables of handles, handles and readable ends in them, gates and words
//!   of callbacks, picks
//! - `texts`: numbers and values in texts
#![tactic(auto)]

mod act;
mod all_runs;
mod future_tests;
mod gate_cases;
mod handle_cases;
mod pick_cases;
mod plain;
mod set_tests;
mod stream_tests;
mod subtask_tests;
mod table_cases;
mod task_tests;
mod texts;

use all_runs::AllRuns;
use cases::{Tables, lines_told, run_tables, steps_told};
use future_tests::Futures;
use gate_cases::{Callbacks, Door, Doors};
use handle_cases::Handles;
use pick_cases::Choices;
use set_tests::{Called, Calls};
use std::alloc::Global;
use std::test::Fail;
use stream_tests::Streams;
use subtask_tests::Subtasks;
use table_cases::{Indices, Run};
use task_tests::Tasks;

/// What is told of a table about handles, gates or picks.
fn told_of_tables(alloc: Global, kind: &str, text: &str) -> Result<String, Fail> {
    match kind {
        "table" => lines_told::<Indices>(alloc, text, " ="),
        "tables" => steps_told::<Run>(alloc, text),
        "handle" => lines_told::<Handles>(alloc, text, " ="),
        "gate" => lines_told::<Doors>(alloc, text, " ="),
        "gates" => steps_told::<Door>(alloc, text),
        "callback" => lines_told::<Callbacks>(alloc, text, " = "),
        "pick" => lines_told::<Choices>(alloc, text, " ="),
        _ => Err(Fail::new("another kind")),
    }
}

/// The tables, by the names of their kinds.
struct AllTables;

impl Tables for AllTables {
    fn told(alloc: Global, kind: &str, text: &str) -> Result<String, Fail> {
        match kind {
            "set" => lines_told::<Calls>(alloc, text, " ="),
            "sets" => steps_told::<Called>(alloc, text),
            "task" => lines_told::<Tasks>(alloc, text, " ="),
            "subtask" => lines_told::<Subtasks>(alloc, text, " ="),
            "stream" => lines_told::<Streams>(alloc, text, " ="),
            "future" => lines_told::<Futures>(alloc, text, " ="),
            "run" => lines_told::<AllRuns>(alloc, text, " = "),
            _ => told_of_tables(alloc, kind, text),
        }
    }
}

fn main(rt: HostRuntime) -> Result<(), Fail> {
    run_tables::<AllTables>(&rt)
}
