//! Tests of the machine of whole core modules, of numeric instructions, linear memories, stores, and stacks that run in these: a
//! program that goes through tables of cases, whose answers are worked out by hand.
//!
//! What is wanted stands in each line behind its last ` = `. The file `stdin` names the tables, each behind its kind, and the
//! file `stdout` has how many lines are in each. Words, places and bytes are hexadecimal, addresses and units of fuel are not.
//!
//! Of the first ones each line stands alone:
//!
//! - `body`, `body-with-bytes`: the body of a function in the module that `frame` has, whose memory has no pages, or one. A line
//!   has a title, the index of the body's type, the body without its size, its arguments, and what it gives for how many units of
//!   fuel. The function of the host gives its words the last one first. Each body is run in several slices of fuel
//! - `operands`: an instruction and the operands on a stack, and what it answers and leaves of the stack; or how many operands
//!   the instructions of opcodes take
//!
//! In the others the lines of a paragraph, behind its title, happen to the same thing, one after the other:
//!
//! - `instruction`: an opcode and the name of its instruction, or the names of those that follow it too, then a line for some
//!   operands, with what each instruction gives of them
//! - `memory`: the pages of a memory and its maximum (`-` where there is none), then a line a step, in which all numbers are
//!   hexadecimal: `pages`, `grow PAGES`, `bytes AT COUNT`, `set AT BYTE`, `write AT BYTES`, `copy TO FROM COUNT`, `fill AT BYTE
//!   COUNT`, `load OPCODE OPERAND OFFSET` and `store OPCODE OPERAND OFFSET VALUE`. The opcodes 28 and 29 are `i32.load` and
//!   `i64.load`, 2c to 2f `i32.load8_s`, `i32.load8_u`, `i32.load16_s`, `i32.load16_u`, 30 to 35 `i64.load8_s`, `i64.load8_u`,
//!   `i64.load16_s`, `i64.load16_u`, `i64.load32_s`, `i64.load32_u`, 36 and 37 `i32.store` and `i64.store`, 3a and 3b `i32.store8`
//!   and `i32.store16`, 3c to 3e `i64.store8`, `i64.store16`, `i64.store32`
//! - `store`: what a store is, then a line a step:
//!   - `host TYPE`: a function of the host, its parameters and results as letters, `i` for i32 and `l` for i64. Its address comes
//!     of it
//!   - `add IMPORTS | SECTIONS`: a module with these imports, each a letter for its sort and its address (`-` where there are
//!     none), and these sections, each as its number, a colon and its bytes, without their size. The address of its instance comes
//!     of it, `SegmentBounds`, or `other imports`
//!   - `call ADDRESS | ARGUMENTS | SLICES`: a call of a function. Of each slice of fuel, in units, comes what the stack gives for
//!     how many of them, or `fuel`. A slice that ends in a call of the host has behind it what the host gives (`<` and words)
//!   - `start SLICES`: the same of the function that runs first in the module that was added last
//!   - `functions`, `memories`: how many there are; `type ADDRESS`: how many parameters and results a function has
//!   - `bytes MEMORY AT COUNT`, `write MEMORY AT BYTES`: bytes of a memory, and others in their place
//!
//! - `kinds`: kinds of tables whose lines stand alone; `bodies`: what bodies give; `frame`: the module in which they stand;
//!   `operands`: instructions over the operands on a stack
//! - `instructions`: what numeric instructions give; `memories`: what lines make of a memory; `scripts`: what they make of a store
//! - `modules`: modules of texts, and imports; `words`: words of texts; `hex`: hexadecimal numbers; `running`: stacks that run, in
//!   slices of fuel
//! - `laws`: the laws; `examples`: the definitions on small examples, worked out by hand; `agreement`: that instructions have the
//!   types and widths of validation
#![tactic(auto)]

mod agreement;
mod bodies;
mod examples;
mod frame;
mod hex;
mod instructions;
mod kinds;
mod laws;
mod memories;
mod modules;
mod operands;
mod running;
mod scripts;
mod words;

use cases::{Tables, check_steps, run_tables, steps_told};
use instructions::Opcodes;
use kinds::Kind;
use laws::definitions_have_laws;
use memories::Paged;
use scripts::Stage;
use std::alloc::Global;
use std::test::Fail;

/// How many lines a table of a kind has whose lines stand alone. It fails if one has another answer.
fn of_kind(alloc: Global, kind: &str, text: &str) -> Result<String, Fail> {
    let count = text.lines().count();
    let lines = format!(in alloc; "{kind}\n{text}")?;
    check_steps::<Kind>(alloc, lines.as_str(), count)?;
    Ok(format!(in alloc; "{count} cases")?)
}

/// The tables.
struct MachineTables;

impl Tables for MachineTables {
    fn told(alloc: Global, kind: &str, text: &str) -> Result<String, Fail> {
        match kind {
            "instruction" => steps_told::<Opcodes>(alloc, text),
            "memory" => steps_told::<Paged>(alloc, text),
            "store" => steps_told::<Stage>(alloc, text),
            kind => of_kind(alloc, kind, text),
        }
    }
}

fn main(rt: HostRuntime) -> Result<(), Fail> {
    definitions_have_laws();
    run_tables::<MachineTables>(&rt)
}
