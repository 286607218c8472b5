//! Tests of values that are lowered into a memory of a store, whose module's own function gives out the places: a program that goes
//! through tables of cases, which are derived by hand.
//!
//! Each instruction costs a unit of fuel, ends cost none, a page has 65,536 bytes, and a stack has at most 512 frames. A function
//! that calls itself behind four `local.get` runs five instructions in each of these, the last of which is the call that finds no
//! room. The file `stdin` names the tables, and the file `stdout` has how many cases are in each.
//!
//! - `realloc`: what is lowered where a realloc may call nothing, as `lines` says
//! - `lower`: what is lowered beside a table of handles, where a realloc may call canonical functions, those of `canons`
//! - `copy`: elements that are copied from the first memory of the store to the second one, or to a place in the first
//!
//! The lines of the last two have a title and parts, each of a word and what it says; what is not said is usual, as given here:
//!
//! - `lower flat`: how a value is lowered, `flat`, `placed`, a place, or `all` and the place of the first of some values
//! - `type`: the type as `table_texts` reads types, of a copy that of lists of the elements; behind it, with a plus before each, the
//!   types of the ends in the tables. `element none` says of a copy that the elements hold nothing. `value`: what is lowered
//! - `code 41c000`: the instructions of the function that gives out places, as bytes; that one gives 64, which costs a unit.
//!   `units 100`, `context 0 0`: the units of fuel, the words of context
//! - `into`, `out`: the entries of the tables of the instance that reads and of that which writes; `home`: the resources that the first
//!   one defines. It is the instance 1, and the task is 3
//! - `to 1`, `realloc 12`: the memory, and the address of the function, or `none`
//! - `from 0 0`, `count 1`, `at 64`: the memory and the place of the first element, how many there are, and the place that they go to
//! - `bytes`, `reader`: bytes at the begin of the memories 0 and 1; `see 64`: the place of the eight bytes that are told
//!
//! Wanted are, with semicolons between: what comes of it; the words of context then and the calls, each with its words and those of
//! its answer, or `!` where it is refused; the units that are left; eight bytes of the memory; the entries of the table of the instance
//! that reads; and of a copy those of the table of the other one, and what has moved.
//!
//! - `lines`: what a line of the first kind says; `lowering`: what is lowered into a room, as text
//! - `scenes`: what the other lines say; `given`: the parts of such a line; `scene`: what values are lowered in
//! - `hosted`: what is lowered beside a table; `copies`: what is copied; `telling`: what comes of it, as text
//! - `canons`: the canonical functions that a realloc may call
//! - `modules`: a store with a module
#![tactic(auto)]

mod canons;
mod copies;
mod given;
mod hosted;
mod lines;
mod lowering;
mod modules;
mod scene;
mod scenes;
mod telling;

use cases::{Tables, lines_told, run_tables};
use lines::Reallocs;
use scenes::{CopyLines, LoweringLines};
use std::alloc::Global;
use std::test::Fail;

/// The tables.
struct RoomTables;

impl Tables for RoomTables {
    fn told(alloc: Global, kind: &str, text: &str) -> Result<String, Fail> {
        match kind {
            "realloc" => lines_told::<Reallocs>(alloc, text, " = "),
            "lower" => lines_told::<LoweringLines>(alloc, text, " = "),
            "copy" => lines_told::<CopyLines>(alloc, text, " = "),
            _ => Err(Fail::new("no kind")),
        }
    }
}

fn main(rt: HostRuntime) -> Result<(), Fail> {
    run_tables::<RoomTables>(&rt)
}
