//! Stacks that run, in slices of fuel.

ghost use Rattle.std.specs.Prelude.{◌≡◌, IfOk};
ghost use Rattle.machine_tests.specs.Typed.{MayRun, MayGoOn, StaysTyped};

use crate::words::{are_words, write_words};
use ca_base::Fuel;
use std::alloc::Global;
use std::fmt::Write;
use std::test::Fail;
use wasm_execution::{Outcome, Running, Suspended, run, start};
use wasm_store::{Store, Trap, laws};

/// A call of the function at an address, with words of its parameters' types.
#[tactic(auto, using(crate::proofs::Typing::started))]
pub(crate) fn called(
    alloc: Global,
    store: &Store,
    address: usize,
    args: &[u64],
) -> Result<Running, Fail>
    ensures { IfOk result (λ r. MayRun store.now r) }
{
    laws::typed_stacks_never_get_stuck();
    if store.function_count() <= address {
        return Err(Fail::new("no function"));
    }
    if !are_words(store.function(address).params(), args) {
        return Err(Fail::new("other parameters"));
    }
    Ok(start(alloc, store, address, args)?)
}

/// Runs a stack for so many units.
#[tactic(auto, using(crate::proofs::Typing::ran_on))]
pub(crate) fn run_for(
    alloc: Global,
    running: Running,
    store: &mut Store,
    fuel: &mut Fuel,
) -> Outcome
    requires { MayRun store.old running }
    ensures { StaysTyped store.new result }
{
    laws::typed_stacks_never_get_stuck();
    run(alloc, running, store, fuel)
}

/// The stack that goes on with what the function at an address gives, if these are words of its results.
#[tactic(auto, using(crate::proofs::Typing::went_on))]
pub(crate) fn answered(
    store: &Store,
    address: usize,
    waiting: Suspended,
    answers: &[u64],
) -> Result<Running, Fail>
    requires { MayGoOn store.now address waiting }
    ensures { IfOk result (λ r. MayRun store.now r) }
{
    if store.function_count() <= address {
        waiting.give_up();
        return Err(Fail::new("no function"));
    }
    if !are_words(store.function(address).results(), answers) {
        waiting.give_up();
        return Err(Fail::new("other results"));
    }
    Ok(waiting.resume(answers))
}

/// The name of a trap.
pub(crate) fn name_of(trap: Trap) -> &'static str {
    match trap {
        Trap::Unreachable => "Unreachable",
        Trap::DivideByZero => "DivideByZero",
        Trap::DivideOverflow => "DivideOverflow",
        Trap::MemoryBounds => "MemoryBounds",
        Trap::TableBounds => "TableBounds",
        Trap::NullElement => "NullElement",
        Trap::OtherSignature => "OtherSignature",
        Trap::StackLimit => "StackLimit",
    }
}

/// Words, and the units that they took.
pub(crate) fn given(alloc: Global, words: &[u64], units: u64) -> Result<String, Fail> {
    let mut text = String::new(alloc);
    write_words(&mut text, words)?;
    write!(text, " for {units}")?;
    Ok(text)
}

/// A text, and the units that it took.
pub(crate) fn told(alloc: Global, name: &str, units: u64) -> Result<String, Fail> {
    Ok(format!(in alloc; "{name} for {units}")?)
}
