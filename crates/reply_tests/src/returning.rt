//! What `task.return` tests of its type and its options.

ghost use Rattle.std.specs.Prelude.{◌≡◌};
ghost use Rattle.std.specs.Option.{option_and_then};
ghost use Rattle.laid_types.specs.Known.{numbered_at};
ghost use Rattle.laid_types.specs.SameTypes.{AreDistinct};

use comp_graph::{CoreRef, Options};
use graph_cases::NamedGraph;
use laid_types::{LaidTypes, NumberedType};
use return_replies::check_return;
use world_parts::{Part, Parts};

/// The type of a number, where there is one.
fn numbered(types: &LaidTypes, number: Option<usize>) -> Option<NumberedType<'_>>
    ensures { result ≡ option_and_then (numbered_at types.now) number }
{
    match number {
        Some(number) => types.numbered(number),
        None => None,
    }
}

/// The number of a type of a name, where it is one of a result.
fn number_named(named: &NamedGraph, name: &str) -> Option<usize> {
    match name {
        "u32" => Some(named.numbers.word as usize),
        "string" => Some(named.numbers.text as usize),
        _ => None,
    }
}

/// Options with the memory of the core instance of a number, counted from 1, or none for 0.
fn options_with(memory: u32) -> Options {
    let memory = memory.checked_sub(1);
    Options {
        memory: memory.map(|instance| CoreRef { instance, index: 0 }),
        realloc: None,
        post_return: None,
        callback: None,
        is_async: false,
    }
}

/// What comes of the tests, where no type stands twice.
#[tactic(auto, using(crate::proofs::Told::both_told))]
fn check(
    named: &NamedGraph,
    parts: &Parts,
    task: u32,
    options: &Options,
    given: Option<usize>,
    wanted: Option<usize>,
) -> Part<()> {
    let types = named.graph.types().types.values();
    check_return(
        &named.graph,
        parts,
        task,
        options,
        numbered(types, given),
        numbered(types, wanted),
    )
}

/// What comes of the tests of a task that returns a result of a type with a memory, where its function gives one of the other type.
pub(crate) fn checked(
    named: &NamedGraph,
    parts: &Parts,
    task: u32,
    given: &str,
    wanted: &str,
    memory: u32,
) -> Part<()> {
    check(
        named,
        parts,
        task,
        &options_with(memory),
        number_named(named, given),
        number_named(named, wanted),
    )
}
