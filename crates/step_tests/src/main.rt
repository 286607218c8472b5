//! Tests of parts of the steps of the machine of asynchronous calls: values that tasks pass, lifted from the memory and the table of an instance;
//! post-returns; and stacks that begin. It is a program that goes through tables of cases, which are derived by hand from the rules of the
//! machine.
//!
//! A case is a line: a title and parts, each of a word and what it says; what is not said is usual, as given here. The file `stdin` names the
//! tables, and the file `stdout` has how many cases are in each.
//!
//! `lifts`: there are two component instances. Task 1 of the first one, which the script called, has called task 2, which has entered the second
//! one. The memories of the core instances 0 and 1, of a page each, are those of the component instances.
//!
//! - `do arguments`: what is lifted: the `arguments` of a task, the result of one that has `ended` with words, the one that it has `returned` by
//!   a call of `task.return`, or `elements` of an instance
//! - `type`: the type as `table_texts` reads types, or `none`: that of the arguments, of the result, or of lists of the elements; behind it, with a
//!   plus before each, the types of the ends in the tables, those of the first instance first
//! - `task 2`: the task; `words`: the words of its call, of its end or of `task.return`; `by lower/2/sync`: the canonical function of the first
//!   instance by which task 1 called, and `result task.return/u32` that of the second one by which task 2 returns, as `graph_cases` names them;
//!   `host 1`: the call of the script that made task 1
//! - `first`, `second`: bytes at the begin of the memories 0 and 1; `memories 0 1`: the memories that the core instances have, `-` for none
//! - `in`, `out`: the entries of the tables of the first and the second instance, as `entries` reads them; `joined`, `joined-out`: the indices of
//!   those that have joined a set of their instance, which is in no table, in this order
//! - `at 0`, `from 0`, `count 1`: where elements are lifted from: the instance, counted from 0, with the memory of the same core instance, the place
//!   and how many
//!
//! Wanted are, with semicolons between: the value, `nothing` or why there is none; the lines that are told; the entries of the tables of both
//! instances, where one has been there; the members of their sets, where one is there; and the handles that are lent for task 2.
//!
//! `posts`: the post-return of the function that task 1 of the first instance runs. It is function 9 of core instance 0, whose functions 0 to 8
//! are `context.get` and `context.set` of both words, `resource.rep` of resource 1, `waitable-set.new`, `resource.drop` of resource 2, `lower` of
//! a function of the second instance, and a `context.get` that the second instance made.
//!
//! - `code`: its instructions as bytes; `takes none`: its parameter, if any, `i32` or `i64`; `words`: what it is called with
//! - `func own`: the function, `own`, `none`, one that is not there, or the name of a canonical function of the first instance
//! - `units 100`, `context 0 0`, `in`: the units of fuel, the words of task 1, the table of its instance
//!
//! Wanted are: `ok` or why it stops, the lines, the units that are left and the words of the task, and the table, where something was in it.
//!
//! `starts`: stacks of tasks. `does` has what is done with them, one after the other: `add` makes those of a further task, `start:T,7` lets function
//! 9 begin for task T with the word 7, and `go:T,7` lets the stack of task T go on with a word. Wanted is what comes of each.
//!
//! - `lines`: what a line of `lifts` says and what comes of it; `given`: the parts of a line
//! - `lifting`: what is lifted, as text; `passing`: the functions and their types, the script, and its calls
//! - `world`: the tasks and the memories; `entries`: tables of words, and their text; `telling`: why something stops, and lines
//! - `nested`: post-returns; `module`: the core module that they are in; `starting`: stacks
#![tactic(auto)]

mod entries;
mod given;
mod lifting;
mod lines;
mod module;
mod nested;
mod passing;
mod starting;
mod telling;
mod world;

use cases::{Tables, lines_told, run_tables};
use lines::Lifts;
use nested::Posts;
use starting::Starts;
use std::alloc::Global;
use std::test::Fail;

/// The tables.
struct StepTables;

impl Tables for StepTables {
    fn told(alloc: Global, kind: &str, text: &str) -> Result<String, Fail> {
        match kind {
            "lifts" => lines_told::<Lifts>(alloc, text, " = "),
            "posts" => lines_told::<Posts>(alloc, text, " = "),
            "starts" => lines_told::<Starts>(alloc, text, " = "),
            _ => Err(Fail::new("another kind")),
        }
    }
}

fn main(rt: HostRuntime) -> Result<(), Fail> {
    run_tables::<StepTables>(&rt)
}
