//! Tests of lowering: a program that goes through tables of cases, whose outcomes are derived from the formats by hand.
//!
//! A case is a line: a type as `table_texts` reads them, what is given beside it with bars between, and behind ` = ` what is wanted.
//! A star stands for bytes that are there so often, an at sign for so many more labels. The file `stdin` names the tables, each
//! behind its kind, and the file `stdout` has how many cases are in each.
//!
//! What is lowered has values as `type_texts` reads them, the bytes of a memory, and what the reallocs do, one after the other;
//! wanted are what comes of it, what the reallocs were asked for, and the memory as it is then. A realloc answers a place, or gives
//! no answer: `trap:` with a number, `fuel`, `memory`. Behind a plus stands by how many bytes the memory grows in that call.
//!
//! - `store`: a value at a place. `store_fields` has records and tuples, where what was there before stays between the parts and
//!   behind them; in `store_cases` it stays where there is no payload, or a smaller one; in `store_many_cases` the case's number has
//!   one byte, two or four. In `store_refused` nothing is stored, and nothing is asked for; in `store_last` the place is the last
//!   one at which the value fits. In `store_no_texts` and `store_no_lists` there is no place for a text or a list
//! - `all`: values one after the other from a place on
//! - `flat`: a value as core values. Those that a case does not need are 0
//! - `place`: a value at a new place
//! - `store-handles`, `all-handles`, `flat-handles`, `place-handles`: the same with the entries of a table of handles and the resources
//!   that the instance defines before the values; wanted are besides, behind a semicolon, the entries then
//! - `large`: what is done, of those four, before a type of very many bytes. It is made of that of bytes: `pair:1` is a pair, so
//!   twice as many bytes, and `odd:1` a pair with a byte behind it; a greater number stands for that often
//! - `pass`: how many numbers are lowered as a list and lifted again; how many of them are as they were
//!
//! - `kinds`: kinds of tables; `answers`: the answers to their lines
//! - `scripted`: a room of a script; `lines`: the parts of a line
//! - `lowering`: what is lowered, as text; `storing`: what a line says of it; `entering`: the same with a table of handles
//! - `long_lists`: a list that is lowered and lifted
#![tactic(auto)]

mod answers;
mod entering;
mod kinds;
mod lines;
mod long_lists;
mod lowering;
mod scripted;
mod storing;

use answers::line_told;
use cases::{Steps, Tables, check_steps, run_tables};
use kinds::{Kind, kind_of};
use std::alloc::Global;
use std::test::Fail;

impl Steps for Kind {
    fn step(&mut self, alloc: Global, line: &str, text: &mut String) -> Result<(), Fail> {
        let told = line_told(alloc, *self, line)?;
        Ok(text.push_str(told.as_str())?)
    }

    fn begin(_alloc: Global, title: &str) -> Result<Kind, Fail> {
        Ok(kind_of(title).ok_or("no kind")?)
    }
}

/// The tables.
struct LoweringTables;

impl Tables for LoweringTables {
    fn told(alloc: Global, kind: &str, text: &str) -> Result<String, Fail> {
        let count = text.lines().count();
        let lines = format!(in alloc; "{kind}\n{text}")?;
        check_steps::<Kind>(alloc, lines.as_str(), count)?;
        Ok(format!(in alloc; "{count} cases")?)
    }
}

fn main(rt: HostRuntime) -> Result<(), Fail> {
    run_tables::<LoweringTables>(&rt)
}
