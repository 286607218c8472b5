//! Events that come, and stacks that go on or begin.

ghost use Rattle.std.specs.Prelude.{length, Some};
ghost use Rattle.world_parts.specs.Held.{Does, held};
ghost use Rattle.world_stacks.specs.Piles.{Turns};
ghost use Rattle.world_stacks.specs.Over.{Leads};
ghost use Rattle.replies.specs.Seen.{seen};
ghost use Rattle.machine_runs.specs.Following.{heard, with_piles, answered_now, started_now, stacked, followed};

use comp_graph::{FuncRef, Graph};
use event_replies::{deliver, poll, receive_cancel, receive_none};
use std::alloc::Global;
use value_parts::Passing;
use world_parts::{Flow, Part, Parts, Stop};
use world_stacks::{Stacks, go_on, start_on};

/// An event comes to the acting task, or none, where one is to come.
fn hear(alloc: Global, graph: &Graph<'_>, parts: &mut Parts, flow: Flow) -> Part<Flow>
    ensures { Does (heard (seen graph.now) flow) parts.old result parts.new }
{
    match flow {
        Flow::Now(words) => Ok(Flow::Now(words)),
        Flow::Rests => Ok(Flow::Rests),
        Flow::Starts(func, words) => Ok(Flow::Starts(func, words)),
        Flow::Enters => Ok(Flow::Enters),
        Flow::Returns => Ok(Flow::Returns),
        Flow::Copies(copying) => Ok(Flow::Copies(copying)),
        Flow::Delivers(receiver, set) => {
            let task = parts.acting()?;
            let at = parts.instance_of(task)?;
            deliver(alloc, graph, parts, task, at, receiver, set)
        }
        Flow::Polls(receiver, set) => {
            let task = parts.acting()?;
            let at = parts.instance_of(task)?;
            poll(alloc, graph, parts, task, at, receiver, set)
        }
        Flow::HearsNone(receiver) => {
            let task = parts.acting()?;
            receive_none(alloc, graph, parts, task, receiver)
        }
        Flow::HearsCancel(receiver) => {
            let task = parts.acting()?;
            receive_cancel(alloc, graph, parts, task, receiver)
        }
    }
}

/// A task that was made has stacks, of which none is there.
pub(crate) fn add_pile(alloc: Global, parts: &Parts, stacks: &mut Stacks) -> Part<()>
    ensures { Turns (Some (tt, with_piles (length (held parts.now).tasks) stacks.old.piles.items)) result stacks.new.piles.items }
{
    if stacks.piles.len() < parts.tasks.slots.len() {
        match stacks.add(alloc) {
            Ok(()) => Ok(()),
            Err(_) => Err(Stop::Memory),
        }
    } else {
        Ok(())
    }
}

/// The acting task's stack goes on with the words of an answer.
fn answer_now(parts: &Parts, stacks: &mut Stacks, words: &[u64]) -> Part<Passing>
    ensures { Leads (answered_now words.now stacks.old.piles.items (held parts.now)) result parts.now stacks.new.piles.items }
{
    let task = parts.acting()?;
    go_on(stacks, &parts.store, task, words)?;
    Ok(Passing::Nothing)
}

/// A further stack of the acting task begins.
fn start_now(
    alloc: Global,
    parts: &mut Parts,
    stacks: &mut Stacks,
    func: FuncRef,
    words: &[u64],
) -> Part<Passing>
    ensures { Leads (started_now func words.now stacks.old.piles.items (held parts.old)) result parts.new stacks.new.piles.items }
{
    let task = parts.acting()?;
    start_on(alloc, parts, stacks, task, func, words)?;
    Ok(Passing::Nothing)
}

/// What this makes of stacks, and what is to be passed then.
fn stack_on(alloc: Global, parts: &mut Parts, stacks: &mut Stacks, flow: Flow) -> Part<Passing>
    ensures { Leads (stacked flow stacks.old.piles.items (held parts.old)) result parts.new stacks.new.piles.items }
{
    match flow {
        Flow::Now(words) => answer_now(parts, stacks, words.as_slice()),
        Flow::Rests => {
            add_pile(alloc, parts, stacks)?;
            Ok(Passing::Nothing)
        }
        Flow::Starts(func, words) => start_now(alloc, parts, stacks, func, words.as_slice()),
        Flow::Enters => Ok(Passing::Arguments),
        Flow::Returns => Ok(Passing::Returned),
        Flow::Copies(copying) => Ok(Passing::Elements(copying)),
        Flow::Delivers(_, _) => Err(Stop::Stuck),
        Flow::Polls(_, _) => Err(Stop::Stuck),
        Flow::HearsNone(_) => Err(Stop::Stuck),
        Flow::HearsCancel(_) => Err(Stop::Stuck),
    }
}

/// Does what a part of a step left to be done, but for values that are passed, which its answer says: an event comes to the acting task, its
/// stack goes on, or a further one begins.
///
/// # Errors
///
/// `Memory`, and `Stuck` where something is not there.
#[tactic(auto, unfolding(crate::specs::Following::followed), using(world_parts::proofs::Thens::thens))]
pub fn follow(
    alloc: Global,
    graph: &Graph<'_>,
    parts: &mut Parts,
    stacks: &mut Stacks,
    flow: Flow,
) -> Part<Passing>
    ensures { Leads (followed (seen graph.now) flow stacks.old.piles.items (held parts.old)) result parts.new stacks.new.piles.items }
{
    let behind = hear(alloc, graph, parts, flow)?;
    stack_on(alloc, parts, stacks, behind)
}
