//! Tests of moves of the machine of asynchronous calls, over components that are linked: a program that goes through a table of cases, whose
//! answers are derived by hand from the rules of the machine.
//!
//! A case is a paragraph: a line that says what it shows, the bytes of a component in hexadecimal, a line `script`, the lines of a script, a
//! line `is`, and the lines of the run up to where it runs code or passes values. The last line says why it goes no further: `runs`,
//! `arguments`, `ends`, or a trap. The file `stdin` names the table, and the file `stdout` has how many cases are in it.
//!
//! - `playing`: moves and turns, as far as they go; `cases_of`: what a case asks
#![tactic(auto)]

mod cases_of;
mod playing;

use cases::{Tables, paragraphs_told, run_tables};
use cases_of::Moved;
use std::alloc::Global;
use std::test::Fail;

/// The table.
struct MoveTables;

impl Tables for MoveTables {
    fn told(alloc: Global, kind: &str, text: &str) -> Result<String, Fail> {
        match kind {
            "moves" => paragraphs_told::<Moved>(alloc, text),
            _ => Err(Fail::new("another kind of table")),
        }
    }
}

fn main(rt: HostRuntime) -> Result<(), Fail> {
    run_tables::<MoveTables>(&rt)
}
