//! Tests of types and values and their texts, and of the readers of values and of scripts: a program that goes through tables of
//! cases, whose outcomes are worked out by hand.
//!
//! A case is a line: types and values as `type_texts` reads them, or a text, and behind a mark what is wanted. The file `stdin` names
//! the tables, each behind its kind, and the file `stdout` has how many cases are in each.
//!
//! Of types and values:
//!
//! - `type`: the size, the alignment, the core types, whether it holds an end, and the text; `layout`: the size and the alignment
//!   alone, of types with many labels, or with parts in common
//! - `function`: how a function is lifted or lowered, its parameters, its result or nothing; its core function is wanted
//! - `text`: a type and a value; the value's text between angle brackets is wanted. `misfit`: a value and a type that it does not
//!   fit
//!
//! Of the reader of values, a text stands between angle brackets, in which `~` stands for a tab:
//!
//! - `read`: a type and a text; the text of the value is wanted, as traces write it. `refused`: a text that stands for none
//! - `arguments`, `refused-arguments`: the types of parameters, and the text of arguments
//! - `held`: a type, and whether it holds a handle or an end; `holder`: the types of a function's parameters and of its result
//! - `length`: a type, and the first part of a text, a part that it has 20,000 times, and its last part, with semicolons between
//!   them; how many elements or bytes the value has is wanted
//! - `no-text`: bytes of quotes with something between them that is no text
//!
//! Of the reader of scripts:
//!
//! - `script`: a script with the escapes `\n`, `\r`, `\t` and `\xHH`; what it says is wanted, or which line is refused, and why.
//!   `scripts_read` has what is read; `scripts_refused` scripts of one line and `scripts_first_refused` of several, which are
//!   refused; `scripts_other_types` calls with texts, or with types that no script can write
//! - `blank`: a script of so many spaces and the bytes behind them; what becomes of it is wanted
//! - `calls`: a script of so many calls, where there are many exports; how many are read is wanted
//! - `often`: so many times, the front of a script, and the part that it has so many times, with semicolons between them; how many
//!   items and picks are read is wanted
//! - `long-argument`: a script of one call with a list or a text of so many elements or bytes, which has nearly 1 MiB; how long it
//!   is read is wanted
//!
//! - `kinds`: kinds of tables; `tables`: what is told of a table; `answers`: the answers to its lines
//! - `types`: what is told of types; `functions`: core functions; `values`: the texts of values
//! - `reading`: what is read of a text, written as traces write it; `arguments`: the same of arguments; `limits`: long texts, and
//!   bytes that are no text
//! - `exports`: exports of texts; `escapes`: texts with escapes; `scripts`: the outcome of a reading as text; `script_cases`: what
//!   scripts say; `script_limits`: long scripts
//! - `laws`: what holds of the formats alone
#![tactic(auto)]

mod answers;
mod arguments;
mod escapes;
mod exports;
mod functions;
mod kinds;
mod laws;
mod limits;
mod reading;
mod script_cases;
mod script_limits;
mod scripts;
mod tables;
mod types;
mod values;

use cases::{Tables, run_tables};
use kinds::kind_of;
use laws::formats_have_laws;
use std::alloc::Global;
use std::test::Fail;
use tables::lines_told;

/// The tables.
struct TextTables;

impl Tables for TextTables {
    fn told(alloc: Global, kind: &str, text: &str) -> Result<String, Fail> {
        let kind = kind_of(kind).ok_or("no kind")?;
        lines_told(alloc, kind, text)
    }
}

fn main(rt: HostRuntime) -> Result<(), Fail> {
    formats_have_laws();
    run_tables::<TextTables>(&rt)
}
