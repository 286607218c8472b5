//! Tests of linking: a program that goes through tables of cases.
//!
//! A case is a line that says what it is, lines of the bytes of a component, a line `is`, and the answer that is wanted. What
//! stands behind a `;` in a line is a remark. `provider` is a section of the core module `PROVIDER`, `lifted` that and the lift of
//! its function `f`, `adder` a component that exports this lift, `functions` is a section of the core module `FUNCTIONS`,
//! `allocating` that and an instance of it, with a memory and a realloc, and `times N BYTES` are bytes that stand N times. Answers
//! are derived from the definitions by hand. The file `stdin` names the tables, and the file `stdout` has how many cases are in
//! each.
//!
//! - `core`: the arguments of core modules, and inline exports
//! - `fit`: what imports of core modules ask for
//! - `alias`: aliases, and how many core instances there may be
//! - `item`: types, lifts, imports and exports
//! - `instance`: instances and their functions
//! - `argument`: arguments of instances
//! - `type`, `asked`, `said`: instance types, imports that ask for instances, exports that say what they are
//! - `outer`: aliases of exports of instances, and of what stands further out
//! - `composed`: components that are linked through others
//! - `limit`: how many component instances there may be, and levels of components
//! - `sort`: sorts of core items, what modules hand on, and core instances in component instances
//! - `inner`: faults of items in component instances, and the order of faults
//! - `declared`: declarations of instance types, and lifts
//! - `seen`: what is lacking and what is seen of instances, and aliases of other sorts
//! - `equal`: types that are equal, and arguments by their names
//! - `level`: what stands further out, and components that instantiate themselves
//! - `toolchain`: components that are made of others as toolchains make them
//! - `value`: types of values, well made and not, and which of them are equal
//! - `depth`: how deep types of values may be
//! - `lift`: lifts to functions over each type of values
//! - `canon`: the options of lifts
//! - `lower`: functions that are lowered, their types and options, and what uses the core functions
//! - `index`: indices of each sort that are not there, in exports, imports, arguments and instances of exports
//! - `kinds`: lifts and lowers with `async`, and lifts with a callback
//! - `builtin`: built-ins, their core types, and what uses the core functions
//! - `returns`: built-ins that return a result
//! - `streams`: types of streams and futures, and functions over them
//! - `ends`: built-ins of the ends of streams and futures
//! - `resources`: types of resources, their destructors and built-ins
//! - `handles`: types of handles, and what passes them
//! - `asked_resources`: imports and exports that are asked to be types of resources
//! - `brought`: instance types that bring resources, and what is given for these
//! - `filled`: instance types in instance types, with what is given filled in
//! - `refused`: built-ins of ends, and types of resources, that are refused
//! - `verdicts`: whether components of all kinds of items are linked, and else the first item that is refused
//! - `noted`: the types of streams and futures that graphs tell, each in a line
//!
//! Answers tell a definition of a core instance as `INSTANCE.INDEX`, and a core function that the Canonical ABI makes as `canon N`,
//! where N is its number in the order of linking, from 0 on. Behind the lines of core instances there is a line for each of these.
//! For a function that is lowered it is `lower INSTANCE OPTIONS of LIFT`: the component instance that lowers the function, what it
//! uses, told as behind an export, and what the function lifts, told as an export tells it behind its name. For a built-in it is
//! `builtin INSTANCE NAME`, with what the built-in names behind it. Then there is a line `resource INSTANCE` for each type of resources,
//! told `R1`, `R2` and so on in this order, with its destructor as `destructor CORE FUNCTION`.
//!
//! The module `components` has the bytes of cases, `answers` the answers as text, and `noted` those of the table of that name.
#![tactic(auto)]

mod answers;
mod components;
mod noted;

use answers::answer_of;
use cases::{Answers, Tables, paragraphs_told, run_tables};
use components::bytes_of_lines;
use noted::noted_of;
use std::alloc::Global;
use std::test::Fail;

/// Components that are linked.
struct Linked;

impl Answers for Linked {
    fn answer(alloc: Global, given: &str) -> Result<String, Fail> {
        let (_title, lines) = given.split_once('\n').ok_or("no bytes")?;
        let bytes = bytes_of_lines(alloc, lines)?;
        answer_of(alloc, &bytes)
    }
}

/// Components, of which it is told whether they are linked, and else what is refused.
struct Checked;

impl Answers for Checked {
    fn answer(alloc: Global, given: &str) -> Result<String, Fail> {
        let told = Linked::answer(alloc, given)?;
        if told.starts_with("plan ") {
            let mut linked = String::new(alloc);
            linked.push_str("ok")?;
            return Ok(linked);
        }
        Ok(told)
    }
}

/// Components that are linked, of which the types of streams and futures are told.
struct EndsNoted;

impl Answers for EndsNoted {
    fn answer(alloc: Global, given: &str) -> Result<String, Fail> {
        let (_title, lines) = given.split_once('\n').ok_or("no bytes")?;
        let bytes = bytes_of_lines(alloc, lines)?;
        noted_of(alloc, &bytes)
    }
}

/// The tables, which are of three kinds.
struct LinkTables;

impl Tables for LinkTables {
    fn told(alloc: Global, kind: &str, text: &str) -> Result<String, Fail> {
        match kind {
            "noted" => paragraphs_told::<EndsNoted>(alloc, text),
            "checked" => paragraphs_told::<Checked>(alloc, text),
            _ => paragraphs_told::<Linked>(alloc, text),
        }
    }
}

fn main(rt: HostRuntime) -> Result<(), Fail> {
    run_tables::<LinkTables>(&rt)
}
