//! Tests of lifting, and of types in a table: a program that goes through tables of cases, whose outcomes are derived from the formats
//! by hand.
//!
//! A case is a line: a type as `table_texts` reads them, what is given beside it with bars between, and behind ` = ` what is wanted.
//! An at sign stands for so many more labels. The file `stdin` names the tables, each behind its kind, and the file `stdout` has how
//! many cases are in each.
//!
//! What is lifted has the bytes of a memory as hexadecimal digits and what is lifted of them; the text of the value is wanted
//! between angle brackets, or the reason and the place.
//!
//! - `load`, `load-arguments`: the place of a value, or of arguments as a tuple. `load_plain` has values without parts,
//!   `load_parts` others; in `fault_places` a value cannot stand at the place, in `fault_bytes` the bytes stand for none, and in
//!   `fault_parts` a part stands nowhere
//! - `load-elements`: the place of a list's elements, and how many; `load-integer`: the place of an integer
//! - `load-texts`: how many texts a list has, each the same mebibyte of the letter `a`, so that the memory is small. The list is
//!   counted as 1, and each of 127 texts as 1,048,577; with the last one that makes 134,217,857, and 134,217,728 may be counted
//! - `lift`, `lift-arguments`: core values
//! - `load-handles`, `load-elements-handles`, `lift-handles`, `lift-arguments-handles`: the same with the entries of a table of handles
//!   before the bytes; wanted are besides, with semicolons between, the entries then and what moved
//!
//! What is computed of types:
//!
//! - `layout`: the size and the alignment; the place of a payload and the size of the case's number, where there are cases; the
//!   first core types; whether values hold an end, and a handle
//! - `parts`: how many places there are for parts, how many cases, and the types at the places and behind them
//! - `label`: where a label stands
//! - `aligned`: a place and an alignment in place of a type; the first multiple at or behind the place
//! - `doubled`: how often the type of bytes is doubled in place of a type; how many types there are, the size and the alignment,
//!   and how many core types are kept. `load-doubled`: the same; what is loaded from a memory of four bytes
//!
//! - `kinds`: kinds of tables; `answers`: the answers to their lines
//! - `laid`: what is computed of types, as text
//! - `handles`: what is lifted with a table of handles, as text
//! - `lifting`: what is lifted, as text; `loading`: what a line says of it; `large_texts`: a list of texts
#![tactic(auto)]

mod answers;
mod handles;
mod kinds;
mod laid;
mod large_texts;
mod lifting;
mod loading;

use answers::line_told;
use cases::{Steps, Tables, check_steps, run_tables};
use kinds::{Kind, kind_of};
use std::alloc::Global;
use std::test::Fail;

impl Steps for Kind {
    fn step(&mut self, alloc: Global, line: &str, text: &mut String) -> Result<(), Fail> {
        let told = line_told(alloc, *self, line)?;
        Ok(text.push_str(told.as_str())?)
    }

    fn begin(_alloc: Global, title: &str) -> Result<Kind, Fail> {
        Ok(kind_of(title).ok_or("no kind")?)
    }
}

/// The tables.
struct LiftingTables;

impl Tables for LiftingTables {
    fn told(alloc: Global, kind: &str, text: &str) -> Result<String, Fail> {
        let count = text.lines().count();
        let lines = format!(in alloc; "{kind}\n{text}")?;
        check_steps::<Kind>(alloc, lines.as_str(), count)?;
        Ok(format!(in alloc; "{count} cases")?)
    }
}

fn main(rt: HostRuntime) -> Result<(), Fail> {
    run_tables::<LiftingTables>(&rt)
}
