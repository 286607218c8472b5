//! Tests of runs of scripts over components, and of what `check` and `show` tell: a program that goes through tables of cases.
//!
//! The file `stdin` names the tables, each behind its kind, and the file `stdout` has how many cases are in each. What is wanted
//! is derived from the definitions by hand; from `meetings` on by a small model of their rules that shares nothing with this code.
//!
//! In the tables of the kind `case` a case is a paragraph: a line that says what it shows, lines of a component, a line of a
//! command, lines of a script, a line `is`, and the answer. It is answered over the same readers, the same linking and the same
//! runs as `wcm` stands on, without a file.
//!
//! - A line of a component is bytes in hexadecimal, which stand behind those of the lines before, with a remark behind a `;`;
//!   `add`, the component `ADD`; `times N BYTES`, bytes that stand N times; `front N`, by which no more than N bytes are left; or
//!   `change N BYTE`, another byte at the place N
//! - A command is `run`, `run --dump`, `check` or `show`
//! - Each line of a script has a line feed behind it, but a line with a `\` at its end, which is left out with the line feed
//! - An answer is a line with the number of the status, and the text that belongs to it: the trace, and behind it the dump where
//!   it is asked for; what `check` and `show` tell; or the line of a refusal
//!
//! - `calls`: calls of the component `ADD` and of others, scripts that are refused, and fuel
//! - `refused`: components that are refused, and items that are not linked, whatever the script is
//! - `modules`: whole core modules, what they compute, and their traps
//! - `imports`, `instances`: core instances with imports; core instances that are not linked, and as many as there may be
//! - `nested`: components that are made of others
//! - `lowers`: functions that are lowered, and what uses them
//! - `values`: values of every type, and components that call others
//! - `labels`: types and values with labels
//! - `dumps`: what runs leave
//! - `shown`: what `check` and `show` tell
//! - `async`: built-ins, and lifts and lowers with `async`: what is linked, and that it runs
//! - `streams`: the same of types of streams and futures; elements that are copied within one memory
//! - `resources`: the same of types of resources and handles
//! - `callbacks`: functions that are lifted with a callback: it yields, waits and polls
//! - `waits`: waitable sets, and subtasks that are members of them
//! - `resolving`: how calls go on, and how tasks resolve
//! - `leaving`: what a task may do behind its result, while arguments are lowered, and before all is instantiated
//! - `turns`: fuel, choices, and which task enters or goes on
//! - `lifted_builtins`: built-ins that are lifted, or are post-returns
//! - `pipes`: two component instances, of which one writes numbers to a stream and the other reads them, for few numbers
//! - `meetings`, `offers`: a write and a read of a stream, in two instances, of each length, where either stands; and what
//!   further calls do to a call that stands
//! - `dropped_ends`, `waiting_ends`: ends that are dropped, and calls that are cancelled; calls without `async`
//! - `one_instance`, `moved_ends`: both ends in one instance, for each kind of element; readable ends that move to another one
//! - `third_elements`, `third_handles`: copies of three elements of each type, of which the third has a fault, and what they leave
//! - `futures`: writes and reads of futures, their ends that are dropped, and calls that are cancelled
//! - `cancelled_calls`, `cancelled_handles`, `cancelled_items`: callees that are cancelled in each state, by their callers, with
//!   an end or a handle that is passed, and by the script
//! - `fuel_units`: two runs, with each number of units up to what they need
//!
//! In the table `lines` of the kind `line` a paragraph is a line that says what is refused, `component`, `link` or `script`, and
//! lines of a place and a reason, each with its line of a refusal behind ` = `. Behind a reason stands its argument: a byte as a
//! number, a name, or the reason of a core module.
//!
//! - `case`: what a case asks; `components`: the bytes of its component; `answers`: its answer
//! - `lines`: lines of refusals; `reasons`: reasons by their names
#![tactic(auto)]

mod answers;
mod case;
mod components;
mod lines;
mod reasons;

use answers::Ran;
use cases::{Tables, paragraphs_told, run_tables, steps_told};
use lines::Line;
use std::alloc::Global;
use std::test::Fail;

/// The tables, of two kinds.
struct RunTables;

impl Tables for RunTables {
    fn told(alloc: Global, kind: &str, text: &str) -> Result<String, Fail> {
        match kind {
            "case" => paragraphs_told::<Ran>(alloc, text),
            "line" => steps_told::<Line>(alloc, text),
            _ => Err(Fail::new("another kind of table")),
        }
    }
}

fn main(rt: HostRuntime) -> Result<(), Fail> {
    run_tables::<RunTables>(&rt)
}
