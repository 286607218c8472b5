//! Bodies of functions in a module, and what they give.

ghost use Rattle.std.specs.Prelude.{IfOk};
ghost use Rattle.machine_tests.specs.Typed.{MayRun, MayGoOn};

use crate::frame::part;
use crate::modules::{func_type, push_section, push_sized, sections_of};
use crate::running::{answered, called, given, name_of, run_for, told};
use crate::words::words_of;
use ca_base::Fuel;
use cases::bytes_of;
use module_reading::valid_of;
use std::alloc::Global;
use std::test::Fail;
use wasm_code::External;
use wasm_execution::{Outcome, Running, Suspended};
use wasm_store::Store;
use wasm_typing::Valid;

/// The slice of fuel in which each body is run first.
const SLICE: u64 = 1_000_000;

/// The slices of fuel in which it is run again.
const OTHER_SLICES: [u64; 2] = [1, 3];

/// The most slices that a run may take.
const MOST_SLICES: u32 = 100_000;

/// The names of the sections of the memory and of its bytes.
#[derive(Clone, Copy)]
struct Pages {
    memory: &'static str,
    bytes: &'static str,
}

/// A memory of a page with some bytes.
const WITH_BYTES: Pages = Pages {
    memory: "memory",
    bytes: "bytes",
};

/// A memory without pages.
const WITHOUT_PAGES: Pages = Pages {
    memory: "memory without pages",
    bytes: "no bytes",
};

/// Puts the sections behind the functions behind others.
fn push_parts(alloc: Global, bytes: &mut Vec<u8>, body: &str, pages: Pages) -> Result<(), Fail> {
    push_section(alloc, bytes, part("table")?)?;
    push_section(alloc, bytes, part(pages.memory)?)?;
    push_section(alloc, bytes, part("globals")?)?;
    push_section(alloc, bytes, "07:01 0166 00 01")?;
    push_section(alloc, bytes, part("entries")?)?;
    push_bodies(alloc, bytes, body)?;
    push_section(alloc, bytes, part(pages.bytes)?)
}

/// The bytes of the module in which function 1 has this type and this body.
fn module_with(alloc: Global, type_index: &str, body: &str, pages: Pages) -> Result<Vec<u8>, Fail> {
    let types = part("types")?;
    let text = format!(in alloc;
        "01:{types};02:01 016d 0168 00 02;03:08 {type_index} 01 0a 00 03 01 00 02"
    )?;
    let mut bytes = sections_of(alloc, text.as_str())?;
    push_parts(alloc, &mut bytes, body, pages)?;
    Ok(bytes)
}

/// Puts the section of this body and of those behind it behind others.
fn push_bodies(alloc: Global, bytes: &mut Vec<u8>, body: &str) -> Result<(), Fail> {
    let mut content = Vec::from_slice(alloc, &[8])?;
    push_sized(&mut content, &bytes_of(alloc, body)?)?;
    let others = bytes_of(alloc, part("bodies")?)?;
    content.extend_from_slice(&others)?;
    bytes.push(10)?;
    push_sized(bytes, &content)
}

/// The stack that goes on with the two words that a function of the host was called with, the last one first.
fn swapped(
    store: &Store,
    address: usize,
    words: &[u64],
    waiting: Suspended,
) -> Result<Running, Fail>
    requires { MayGoOn store.now address waiting }
    ensures { IfOk result (λ r. MayRun store.now r) }
{
    if words.len() != 2 {
        waiting.give_up();
        return Err(Fail::new("not two words"));
    }
    let answers = [words[1], words[0]];
    answered(store, address, waiting, answers.as_slice())
}

/// What a stack comes to that runs in such slices of fuel, and how many units it takes.
fn finish(alloc: Global, running: Running, store: &mut Store, slice: u64) -> Result<String, Fail>
    requires { MayRun store.old running }
{
    let mut running = running;
    let mut units = 0u64;
    for _turn in 0..MOST_SLICES {
        let mut fuel = Fuel::new(slice);
        let outcome = run_for(alloc, running, store, &mut fuel);
        units = units.wrapping_add(slice.wrapping_sub(fuel.left()));
        match outcome {
            Outcome::Done(words) => return given(alloc, words.as_slice(), units),
            Outcome::Trapped(why) => return told(alloc, name_of(why), units),
            Outcome::NoFuel(later) => running = later,
            Outcome::Calls(address, words, waiting) => {
                running = swapped(store, address, words.as_slice(), waiting)?;
            }
            Outcome::Memory => return Err(Fail::new("want of memory")),
        }
    }
    running.give_up();
    Err(Fail::new("no end"))
}

/// What the body of a module gives in a store for these words, in such slices of fuel.
fn outcome_in(
    alloc: Global,
    store: &mut Store,
    valid: &Valid,
    args: &[u64],
    slice: u64,
) -> Result<String, Fail> {
    let host = store.host(func_type(alloc, "il>li")?)?;
    let imports = [External::Func(host)];
    if !store.matches(valid, imports.as_slice()) {
        return Err(Fail::new("other imports"));
    }
    store.add(alloc, valid, imports.as_slice())?;
    let running = called(alloc, store, 1, args)?;
    finish(alloc, running, store, slice)
}

/// What the body of a module gives for these words, in such slices of fuel.
fn outcome(alloc: Global, valid: &Valid, args: &[u64], slice: u64) -> Result<String, Fail> {
    let mut store = Store::new(alloc);
    outcome_in(alloc, &mut store, valid, args, slice)
}

/// What the body of a module gives for these words, and what it gives in other slices of fuel if that is something else.
fn outcomes(alloc: Global, valid: &Valid, args: &[u64]) -> Result<String, Fail> {
    let first = outcome(alloc, valid, args, SLICE)?;
    for slice in OTHER_SLICES {
        let other = outcome(alloc, valid, args, slice)?;
        if other.as_str() != first.as_str() {
            return Ok(format!(in alloc; "{first}, but {other} in slices of {slice}")?);
        }
    }
    Ok(first)
}

/// The same of a module that is let go then.
fn all_outcomes(alloc: Global, valid: Valid, args: &[u64]) -> Result<String, Fail> {
    outcomes(alloc, &valid, args)
}

/// What the body of a line gives: it has a title, the index of the body's type, the body without its size, and its arguments.
fn answer(alloc: Global, given: &str, pages: Pages) -> Result<String, Fail> {
    let (given, args) = given.rsplit_once(" | ").ok_or("no arguments")?;
    let (given, body) = given.rsplit_once(" | ").ok_or("no body")?;
    let (_title, type_index) = given.rsplit_once(" | ").ok_or("no type")?;
    let args = words_of(alloc, args, ' ')?;
    let bytes = module_with(alloc, type_index, body, pages)?;
    let valid = valid_of(alloc, &bytes)?;
    all_outcomes(alloc, valid, &args)
}

/// What the body of a line gives in a module whose memory has a page.
pub(crate) fn answer_with_bytes(alloc: Global, given: &str) -> Result<String, Fail> {
    answer(alloc, given, WITH_BYTES)
}

/// The same in a module whose memory has no pages.
pub(crate) fn answer_without_pages(alloc: Global, given: &str) -> Result<String, Fail> {
    answer(alloc, given, WITHOUT_PAGES)
}
