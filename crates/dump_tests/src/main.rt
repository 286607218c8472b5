//! Tests of the text of what a run leaves: a program that goes through a table of cases, whose answers are derived by hand from the format.
//!
//! A case is a paragraph: a line that says what it shows, a line of words that fill a world which has nothing at first, a line `is`, and the
//! text. The file `stdin` names the table, and the file `stdout` has how many cases are in it.
//!
//! - `filling`: a world that words fill
#![tactic(auto)]

mod filling;

use cases::{Tables, paragraphs_told, run_tables};
use filling::Dumped;
use std::alloc::Global;
use std::test::Fail;

/// The table.
struct DumpTables;

impl Tables for DumpTables {
    fn told(alloc: Global, kind: &str, text: &str) -> Result<String, Fail> {
        match kind {
            "dumps" => paragraphs_told::<Dumped>(alloc, text),
            _ => Err(Fail::new("another kind of table")),
        }
    }
}

fn main(rt: HostRuntime) -> Result<(), Fail> {
    run_tables::<DumpTables>(&rt)
}
