//! What the steps of the texts of stores do.

ghost use Rattle.std.specs.Prelude.{◌≡◌, IfOk, map};
ghost use Rattle.wasm_store.specs.Instantiation.{ImportsMatch};
ghost use Rattle.wasm_store.specs.Views.{address_of};
ghost use Rattle.std.specs.Option.{IfSome};
ghost use Rattle.machine_tests.specs.Typed.{MayRun, MayGoOn};

use crate::hex::{hex, split};
use crate::modules::{func_type, imports_of, sections_of};
use crate::running::{answered, called, given, name_of, run_for, told};
use crate::words::{words_of, write_words};
use ca_base::Fuel;
use cases::{Steps, bytes_of};
use module_reading::valid_of;
use std::alloc::Global;
use std::fmt::Write;
use std::test::Fail;
use wasm_code::External;
use wasm_execution::{Outcome, Running, Suspended};
use wasm_store::{AddFault, Store, laws};
use wasm_typing::Valid;

/// A store, and the function that runs first in the module that was added last.
#[derive(Drop)]
pub(crate) struct Stage {
    store: Store,
    first: Option<usize>,
}

impl Steps for Stage {
    fn begin(alloc: Global, _title: &str) -> Result<Stage, Fail> {
        Ok(Stage {
            store: Store::new(alloc),
            first: None,
        })
    }

    fn step(&mut self, alloc: Global, line: &str, text: &mut String) -> Result<(), Fail> {
        let answer = step(alloc, self, line)?;
        text.push_str(answer.as_str())?;
        Ok(())
    }
}

/// A stack that runs on where its line was written.
fn kept(running: Running, written: Result<(), Fail>) -> Result<Option<Running>, Fail>
    ensures { IfOk result (λ later. IfSome later (λ r. r ≡ running)) }
{
    match written {
        Ok(()) => Ok(Some(running)),
        Err(fault) => {
            running.give_up();
            Err(fault)
        }
    }
}

/// Writes what came of a slice behind that of others.
fn write_next(text: &mut String, line: Result<String, Fail>) -> Result<(), Fail> {
    let line = line?;
    if !text.is_empty() {
        text.push_str(", ")?;
    }
    text.push_str(line.as_str())?;
    Ok(())
}

/// A call of the function of the host at an address, and the units that it took.
fn asked(alloc: Global, address: usize, words: &[u64], units: u64) -> Result<String, Fail> {
    let mut text = format!(in alloc; "calls {address} of ")?;
    write_words(&mut text, words)?;
    write!(text, " for {units}")?;
    Ok(text)
}

/// Lets a stack go that waits, or goes on with the words of a text.
fn gone_on(
    alloc: Global,
    store: &Store,
    address: usize,
    waiting: Suspended,
    answers: Option<&str>,
    written: Result<(), Fail>,
) -> Result<Option<Running>, Fail>
    requires { MayGoOn store.now address waiting }
    ensures { IfOk result (λ later. IfSome later (λ r. MayRun store.now r)) }
{
    if let Err(fault) = written {
        waiting.give_up();
        return Err(fault);
    }
    let Some(answers) = answers else {
        waiting.give_up();
        return Ok(None);
    };
    match words_of(alloc, answers, ',') {
        Ok(words) => {
            let running = answered(store, address, waiting, &words)?;
            Ok(Some(running))
        }
        Err(fault) => {
            waiting.give_up();
            Err(fault)
        }
    }
}

/// The units of a slice, and what the host gives behind it.
fn slice_of(text: &str) -> (&str, Option<&str>) {
    match text.split_once('<') {
        Some((units, answers)) => (units, Some(answers)),
        None => (text, None),
    }
}

/// Runs a stack for a slice, and writes what comes of it.
fn turn(
    alloc: Global,
    running: Running,
    store: &mut Store,
    text: &mut String,
    units: u64,
    answers: Option<&str>,
) -> Result<Option<Running>, Fail>
    requires { MayRun store.old running }
    ensures { IfOk result (λ later. IfSome later (λ r. MayRun store.new r)) }
{
    let mut fuel = Fuel::new(units);
    let outcome = run_for(alloc, running, store, &mut fuel);
    let used = units.wrapping_sub(fuel.left());
    match outcome {
        Outcome::Done(words) => {
            write_next(text, given(alloc, words.as_slice(), used))?;
            Ok(None)
        }
        Outcome::Trapped(why) => {
            write_next(text, told(alloc, name_of(why), used))?;
            Ok(None)
        }
        Outcome::NoFuel(later) => {
            let written = write_next(text, told(alloc, "fuel", used));
            kept(later, written)
        }
        Outcome::Calls(address, words, waiting) => {
            let written = write_next(text, asked(alloc, address, words.as_slice(), used));
            gone_on(alloc, store, address, waiting, answers, written)
        }
        Outcome::Memory => Err(Fail::new("want of memory")),
    }
}

/// The numbers of units of slices, with what the host gives behind each.
#[derive(Drop)]
struct Slice<'a> {
    units: u64,
    answers: Option<&'a str>,
}

/// What a stack gives for each slice of fuel.
fn follow(
    alloc: Global,
    running: Running,
    store: &mut Store,
    slices: &[Slice<'_>],
) -> Result<String, Fail>
    requires { MayRun store.old running }
{
    let mut text = String::new(alloc);
    let mut running = running;
    for slice in slices {
        match turn(alloc, running, store, &mut text, slice.units, slice.answers)? {
            Some(later) => running = later,
            None => return Ok(text),
        }
    }
    running.give_up();
    Ok(text)
}

/// The slices of a text.
fn slices_of(alloc: Global, text: &str) -> Result<Vec<Slice<'_>>, Fail> {
    let mut slices = Vec::new(alloc);
    for word in text.split_whitespace() {
        let (units, answers) = slice_of(word);
        let units: u64 = units.parse()?;
        slices.push(Slice { units, answers })?;
    }
    Ok(slices)
}

/// A call of the function at an address with words, in slices of fuel.
fn call(
    alloc: Global,
    store: &mut Store,
    address: usize,
    args: &[u64],
    slices: &str,
) -> Result<String, Fail> {
    let slices = slices_of(alloc, slices)?;
    let running = called(alloc, store, address, args)?;
    follow(alloc, running, store, &slices)
}

/// A call of a line.
fn call_line(alloc: Global, store: &mut Store, line: &str) -> Result<String, Fail> {
    let (address, rest) = line.split_once(" | ").ok_or("no arguments")?;
    let (args, slices) = rest.split_once(" | ").ok_or("no slices")?;
    let args = words_of(alloc, args, ' ')?;
    call(alloc, store, address.parse()?, &args, slices)
}

/// A call of the function that runs first.
fn start_line(alloc: Global, stage: &mut Stage, slices: &str) -> Result<String, Fail> {
    match stage.first {
        Some(address) => call(alloc, &mut stage.store, address, &[], slices),
        None => Ok(String::from_str(alloc, "none")?),
    }
}

/// Adds a module with imports of its types, and answers the address of its instance and of the function that runs first.
#[tactic(auto, using(crate::proofs::Typing::instance_there))]
fn added(
    alloc: Global,
    store: &mut Store,
    valid: &Valid,
    imports: &[External],
) -> Result<(usize, Option<usize>), AddFault>
    requires { ImportsMatch store.old valid.now (map address_of imports.now) }
{
    laws::added_modules_are_typed();
    // Their clauses say that the store and the module are typed.
    let _count = store.function_count();
    let _tree = valid.tree();
    let instance = store.add(alloc, valid, imports)?;
    Ok((instance, store.start_of(valid, instance)))
}

/// Keeps the function that runs first in a module that was added, and tells the address of its instance.
fn placed(
    alloc: Global,
    first: &mut Option<usize>,
    answer: Result<(usize, Option<usize>), AddFault>,
) -> Result<String, Fail> {
    match answer {
        Ok((instance, function)) => {
            *first = function;
            Ok(format!(in alloc; "{instance}")?)
        }
        Err(AddFault::SegmentBounds) => Ok(String::from_str(alloc, "SegmentBounds")?),
        Err(AddFault::Memory) => Err(Fail::new("want of memory")),
    }
}

/// Adds a module, if the imports are of its types.
fn add_module(
    alloc: Global,
    stage: &mut Stage,
    valid: &Valid,
    imports: &[External],
) -> Result<String, Fail> {
    stage.first = None;
    if !stage.store.matches(valid, imports) {
        return Ok(String::from_str(alloc, "other imports")?);
    }
    let answer = added(alloc, &mut stage.store, valid, imports);
    placed(alloc, &mut stage.first, answer)
}

/// Adds the module of a line.
fn add_line(alloc: Global, stage: &mut Stage, line: &str) -> Result<String, Fail> {
    let (imports, sections) = line.split_once(" | ").ok_or("no sections")?;
    let imports = imports_of(alloc, imports)?;
    let bytes = sections_of(alloc, sections)?;
    let valid = valid_of(alloc, &bytes)?;
    add_module(alloc, stage, &valid, &imports)
}

/// Adds a function of the host.
fn host_line(alloc: Global, store: &mut Store, line: &str) -> Result<String, Fail> {
    let address = store.host(func_type(alloc, line)?)?;
    Ok(format!(in alloc; "{address}")?)
}

/// How many parameters and results a function has.
fn type_line(alloc: Global, store: &Store, line: &str) -> Result<String, Fail> {
    let address: usize = line.parse()?;
    if store.function_count() <= address {
        return Err(Fail::new("no function"));
    }
    let function = store.function(address);
    let params = function.params().len();
    let results = function.results().len();
    Ok(format!(in alloc; "{params} {results}")?)
}

/// Bytes of a memory.
fn bytes_line(alloc: Global, store: &Store, line: &str) -> Result<String, Fail> {
    let (memory, rest) = split(line);
    let (at, count) = split(rest);
    let memory: usize = memory.parse()?;
    if store.memory_count() <= memory {
        return Ok(String::from_str(alloc, "no such memory")?);
    }
    let (_front, bytes) = store
        .memory(memory)
        .split_at_checked(hex(at) as usize)
        .ok_or("no such place")?;
    let mut text = String::new(alloc);
    for byte in bytes.iter().take(hex(count) as usize) {
        write!(text, "{byte:02x}")?;
    }
    Ok(text)
}

/// Writes bytes into others, where they fit.
fn write_bytes(bytes: &mut [u8], at: usize, new: &[u8]) -> &'static str {
    let Some((_front, rest)) = bytes.split_at_mut_checked(at) else {
        return "no such bytes";
    };
    let Some((place, _rest)) = rest.split_at_mut_checked(new.len()) else {
        return "no such bytes";
    };
    place.copy_from_slice(new);
    "ok"
}

/// Writes bytes into a memory.
fn write_line(alloc: Global, store: &mut Store, line: &str) -> Result<String, Fail> {
    let (memory, rest) = split(line);
    let (at, bytes) = split(rest);
    let memory: usize = memory.parse()?;
    if store.memory_count() <= memory {
        return Ok(String::from_str(alloc, "no such memory")?);
    }
    let new = bytes_of(alloc, bytes)?;
    let answer = write_bytes(store.memory_mut(memory), hex(at) as usize, &new);
    Ok(String::from_str(alloc, answer)?)
}

/// Does what a line says, and answers what comes of it.
fn step(alloc: Global, stage: &mut Stage, line: &str) -> Result<String, Fail> {
    let (name, rest) = split(line);
    match name {
        "host" => host_line(alloc, &mut stage.store, rest),
        "add" => add_line(alloc, stage, rest),
        "call" => call_line(alloc, &mut stage.store, rest),
        "start" => start_line(alloc, stage, rest),
        "type" => type_line(alloc, &stage.store, rest),
        "bytes" => bytes_line(alloc, &stage.store, rest),
        "write" => write_line(alloc, &mut stage.store, rest),
        "functions" => {
            let count = stage.store.function_count();
            Ok(format!(in alloc; "{count}")?)
        }
        "memories" => {
            let count = stage.store.memory_count();
            Ok(format!(in alloc; "{count}")?)
        }
        _ => Err(Fail::new("no such step")),
    }
}
