//! Moves and turns, as far as they go without code that runs and values that are passed.

use comp_graph::Graph;
use machine_runs::{first_parts, first_stacks, make_move, turn};
use programs::{CallNumbers, Program};
use script_reader::{Item, Script};
use std::alloc::{AllocError, Global};
use std::test::Fail;
use trace_show::label_text;
use value_parts::Passing;
use world_parts::{Part, Parts, Rest, Stop, Turned};
use world_stacks::Stacks;

/// The calls of a script, each of the first export.
fn calls_of(alloc: Global, script: &Script) -> Result<Vec<CallNumbers>, AllocError> {
    let mut calls = Vec::new(alloc);
    for (item, what) in script.items().iter().enumerate() {
        if let Item::Call(_) = what {
            calls.push(CallNumbers { item, export: 0 })?;
        }
    }
    Ok(calls)
}

/// Why a part goes no further.
fn stopped(why: Stop) -> &'static str {
    match why {
        Stop::Trap(name) => name.as_str(),
        Stop::NoFuel => "no fuel",
        Stop::Stuck => "stuck",
        Stop::Memory => "memory",
    }
}

/// What a move leaves to be passed, if it does.
fn moved(came: Part<Passing>) -> Option<&'static str> {
    match came {
        Ok(Passing::Nothing) => None,
        Ok(Passing::Arguments) => Some("arguments"),
        Ok(Passing::Returned) => Some("returned"),
        Ok(Passing::Ended(_)) => Some("ended"),
        Ok(Passing::Elements(_)) => Some("elements"),
        Err(why) => Some(stopped(why)),
    }
}

/// What a turn comes to, if the run goes no further.
fn turned(came: Part<Turned>) -> Option<&'static str> {
    match came {
        Ok(Turned::Ends) => Some("ends"),
        Ok(Turned::TakesItem) => None,
        Ok(Turned::GoesOn) => None,
        Err(why) => Some(stopped(why)),
    }
}

/// A turn, or a move.
fn play_on(
    alloc: Global,
    program: &Program<'_, '_>,
    parts: &mut Parts,
    stacks: &mut Stacks,
) -> Option<&'static str> {
    let graph = program.graph;
    let end_types = graph.types().canons.as_slice();
    match parts.rest {
        Rest::Free => turned(turn(alloc, program, parts, stacks)),
        Rest::Runs => Some("runs"),
        _ => moved(make_move(alloc, graph, end_types, parts, stacks)),
    }
}

/// Turns and moves, up to where the run goes no further.
fn play(
    alloc: Global,
    program: &Program<'_, '_>,
    parts: &mut Parts,
    stacks: &mut Stacks,
) -> &'static str {
    for _move in 0..1000 {
        if let Some(why) = play_on(alloc, program, parts, stacks) {
            return why;
        }
    }
    "goes on"
}

/// The lines of a run, and behind them why it goes no further.
fn told(alloc: Global, parts: &Parts, why: &str) -> Result<String, Fail> {
    let mut text = String::new(alloc);
    for label in parts.feed.labels.as_slice() {
        let line = label_text(alloc, label)?;
        text.push_str(str::from_utf8(line.as_slice())?)?;
    }
    text.push_str(why)?;
    Ok(text)
}

/// What a script over a graph comes to.
pub fn played(alloc: Global, graph: &Graph<'_>, script: &Script) -> Result<String, Fail> {
    let program = Program {
        graph,
        script,
        types: graph.types().types.values(),
        exports: Vec::new(alloc),
        canons: Vec::new(alloc),
        values: Vec::new(alloc),
        ends: graph.types().canons.as_slice(),
        calls: calls_of(alloc, script)?,
        resources: Vec::new(alloc),
    };
    let mut parts = first_parts(alloc, graph, script)?;
    let mut stacks = first_stacks(alloc)?;
    let why = play(alloc, &program, &mut parts, &mut stacks);
    stacks.give_up();
    told(alloc, &parts, why)
}
