//! Tests of the layer that reads components, and of the types that callers speak of: a program that goes through tables of cases, whose
//! answers are derived from the formats by hand. Core modules have tests of their own.
//!
//! The file `stdin` names the tables, each behind its kind, and the file `stdout` has how many cases are in each.
//!
//! - `component`: a case is a paragraph: a line that says what it shows, lines of the bytes of a file, a line `is`, and the items at their
//!   places, or the place and the reason of the refusal. Behind a component the items that stand in it come first, up to `end`
//! - `refusal`: a case is a line: what it shows, `file` for the bytes of a whole file or `sections` for those behind the preamble, the bytes,
//!   and the place and the reason, with a `|` between them. Behind the preamble the first section begins at 8, its payload at 10, and its first
//!   item at 11; a component that comes first begins at 10, and its first section at 18
//! - `front`: a case is a line: what a section holds, its id, and its payload, whose items begin with their number, so that no front of it is a
//!   payload. It is `refused` if the section is read whole, and each front of it is refused at its end, also in a component in another one
//! - `export`: a case is a line: the name of a function from u32 to u32 and its parameter, and what it is told as
//!
//! - `answers`: what becomes of bytes; `fronts`: of fronts of sections; `exports`: exports that callers make
//! - `items`, `builtins`, `types` and `value_types`: items as texts; `texts`: what is written behind texts
#![tactic(auto)]

mod answers;
mod builtins;
mod exports;
mod fronts;
mod items;
mod texts;
mod types;
mod value_types;

use answers::{InLine, InLines};
use cases::{Tables, lines_told, paragraphs_told, run_tables};
use exports::OneExport;
use fronts::CutOff;
use std::alloc::Global;
use std::test::Fail;

/// The tables, by the names of their kinds.
struct AllTables;

impl Tables for AllTables {
    fn told(alloc: Global, kind: &str, text: &str) -> Result<String, Fail> {
        match kind {
            "component" => paragraphs_told::<InLines>(alloc, text),
            "refusal" => lines_told::<InLine>(alloc, text, "| "),
            "front" => lines_told::<CutOff>(alloc, text, " = "),
            "export" => lines_told::<OneExport>(alloc, text, " = "),
            _ => Err(Fail::new("another kind")),
        }
    }
}

fn main(rt: HostRuntime) -> Result<(), Fail> {
    comp_reader::one_reading();
    run_tables::<AllTables>(&rt)
}
