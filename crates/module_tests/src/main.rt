//! Tests of the reader, of the validation and of the maker of core modules: a program that goes through tables of cases.
//!
//! A case is a line or a paragraph: a module or a body, and what becomes of it, worked out by hand. The file `stdin` names the
//! tables, each behind its kind, and the file `stdout` has how many cases are in each. All bytes are hexadecimal.
//!
//! Of the first ones `ok` is wanted, or the place and the reason for which it is refused or not valid, and for a fault in a
//! body also its function:
//!
//! - `body`: what it is, the frame in which it stands, and the section of its code
//! - `module`: what it is, the place of its first byte, and its bytes behind the preamble. Where what it is tells the code of
//!   functions, as `type 0: get 0`, the module has two types: type 0 from two i32 to an i32, and type 1 from an i64 and an i32 to
//!   the same. The locals of its functions behind the two parameters are two i64 and an i32
//! - `file`: what it is, the place of its first byte, and its bytes
//!
//! Of others, what is read is wanted:
//!
//! - `reading`: a paragraph a module: what it is, what is told of it and the place of its first byte, its bytes, and behind `is`
//!   what is told. Of `items` that is each type, each function with its operations, and each export, with places that are derived
//!   from the format by hand, and of `parts` the same, told of the module in its parts. Of `sizes` it is how many types and
//!   exports there are, and how many locals each function declares, and of `valid` the same, told of the valid module
//! - `operation`: a number; the operation that stands there in a body, if there is one, and how many it has
//!
//! And of others, what is read is to be made again, with the same bytes:
//!
//! - `made`: what a module has, its bytes, and the bytes that are made of what is read, where these are others. `made.txt` has
//!   modules of each section and of each instruction, and modules whose bytes are more than they need. Some are not valid
//! - `text`: a paragraph a valid module: its text, and its bytes. In `texts.txt` the text is of the text format (Core 2.0,
//!   section 6), and the bytes have a line for the preamble and for each section; the module of `compiled.txt` is that of the
//!   program `data/tools.c`, whose head says how it was compiled
//! - `component`: what it is, its bytes, and those of its core modules
//!
//! - `kinds`: kinds of tables; `tables`: what is told of a table; `answers`: the answers to its cases
//! - `fate_cases`: what becomes of bodies, modules and files; `frames`: the fixed modules of bodies; `fates`: what becomes of bytes
//! - `reading_cases`: what is read of modules; `telling`: what is told of a module; `items`: its items as text; `ops`: its
//!   operations
//! - `making_cases`: what is made again; `making`: the bytes that are made of modules
//! - `laws`: the laws
#![tactic(auto)]

mod answers;
mod fate_cases;
mod fates;
mod frames;
mod items;
mod kinds;
mod laws;
mod making;
mod making_cases;
mod ops;
mod reading_cases;
mod tables;
mod telling;

use cases::{Tables, run_tables};
use kinds::kind_of;
use laws::modules_have_laws;
use std::alloc::Global;
use std::test::Fail;
use tables::cases_told;

/// The tables.
struct ModuleTables;

impl Tables for ModuleTables {
    fn told(alloc: Global, kind: &str, text: &str) -> Result<String, Fail> {
        let kind = kind_of(kind).ok_or("no kind")?;
        cases_told(alloc, kind, text)
    }
}

fn main(rt: HostRuntime) -> Result<(), Fail> {
    modules_have_laws();
    run_tables::<ModuleTables>(&rt)
}
