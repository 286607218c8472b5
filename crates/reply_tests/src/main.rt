//! Tests of the built-ins as parts of the machine, of control that is back at a task, of events that come to tasks, and of what the script does:
//! a program that goes through tables of cases, which are derived by hand from the rules of the machine.
//!
//! A case is a paragraph: a title, and lines that do something in a world of three component instances, each with the answer that is wanted.
//! The file `stdin` names the tables, and the file `stdout` has how many steps are in each.
//!
//! - `setting`: what is set up; `calling`: calls of canonical functions; `telling`: answers as text
//! - `saying`: what a line says; `playing`: the world that lines change; `steps`: what they do there; `driving`: cases, each in its world
//! - `returning` and `running`: what `task.return` tests; what is looked up of a graph and a script
#![tactic(auto)]

mod calling;
mod driving;
mod playing;
mod returning;
mod running;
mod saying;
mod setting;
mod steps;
mod telling;

use cases::{Tables, lines_told, run_tables};
use driving::plays_told;
use running::{Copies, Lookups};
use std::alloc::Global;
use std::test::Fail;

/// The tables, by the names of their kinds.
struct AllTables;

impl Tables for AllTables {
    fn told(alloc: Global, kind: &str, text: &str) -> Result<String, Fail> {
        match kind {
            "steps" => plays_told(alloc, text),
            "lookups" => lines_told::<Lookups>(alloc, text, " = "),
            "copies" => lines_told::<Copies>(alloc, text, " ="),
            _ => Err(Fail::new("another kind")),
        }
    }
}

fn main(rt: HostRuntime) -> Result<(), Fail> {
    run_tables::<AllTables>(&rt)
}
