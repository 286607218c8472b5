//! Calls of the script, tasks that enter, and picks.

use entry_gate::Kind;
use replies::take_call;
use std::alloc::{AllocError, Global};
use syntax_trees::{Name, Seq};
use task_turns::{arrive, enter};
use world_parts::{Flow, Part, Parts, Rest, Stop};

/// The kind of a name, and its place among the exports of an instance.
pub(crate) fn kind_named(name: &str) -> (Kind, usize) {
    match name {
        "sync" => (Kind::Sync, 0),
        "callback" => (Kind::Callback, 1),
        "stackful" => (Kind::Stackful, 2),
        _ => (Kind::Stackful, 3),
    }
}

/// The script calls a function of an instance that is lifted so.
pub(crate) fn take(alloc: Global, parts: &mut Parts, kind: &str, at: usize) -> Part<Flow> {
    let (kind, place) = kind_named(kind);
    let Ok(name) = Name::new(alloc, "run") else {
        return Err(Stop::Memory);
    };
    let export = at.saturating_mul(4).saturating_add(place);
    take_call(alloc, parts, export, at, kind, name, Seq::new(alloc))
}

/// A task enters, and its function runs.
pub(crate) fn let_in(parts: &mut Parts, task: u32) -> Part<Flow> {
    enter(parts, task)?;
    parts.rest = Rest::Runs;
    Ok(Flow::Enters)
}

/// The acting task, which is new, enters, or waits to.
pub(crate) fn admit(parts: &mut Parts) -> Part<Flow> {
    let task = parts.acting()?;
    match arrive(parts)? {
        Flow::Enters => let_in(parts, task),
        other => Ok(other),
    }
}

/// The script calls a function of an instance, whose task enters or waits to, and is answered.
pub(crate) fn start(alloc: Global, parts: &mut Parts, kind: &str, at: usize) -> Part<u32> {
    drop(take(alloc, parts, kind, at)?);
    let task = parts.acting()?;
    drop(admit(parts)?);
    Ok(task)
}

/// Gives picks.
pub(crate) fn give_picks(parts: &mut Parts, picks: &[u32]) -> Result<(), AllocError> {
    for pick in picks {
        parts.feed.picks.push(*pick)?;
    }
    Ok(())
}
