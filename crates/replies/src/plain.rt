//! Built-ins of words of context, of backpressure, and those by which a task resolves and lets others run.

ghost use Rattle.world_parts.specs.Held.{Does};
ghost use Rattle.world_parts.specs.Plain.{context_get, context_put, backpressure_inc, backpressure_dec, backpressure_set, return_asked, returned, task_cancel, task_yield};
ghost use Rattle.replies.specs.Seen.{seen};

use crate::standing::{lower_pressure, raise_pressure, set_pressure};
use comp_graph::Graph;
use graph_views::flag_at;
use std::alloc::Global;
use tasks::{BlockedAt, SubtaskState, TaskEvent};
use trace_labels::{BlockReason, Label, TypedValue};
use world_parts::{Flow, Part, Parts, Stop, block_in, word_in, yield_cancelled};

/// `context.get`: a word of context.
#[tactic(auto, unfolding(world_parts::specs::Plain::context_get), using(world_parts::proofs::Thens::thens))]
pub(crate) fn context_get(alloc: Global, parts: &mut Parts, task: u32, number: u32) -> Part<Flow>
    ensures { Does (context_get task number) parts.old result parts.new }
{
    let word = parts.context_word(task, number)?;
    parts.answer_one(alloc, task, u64::from(word))
}

/// `context.set`: a word of context is another.
#[tactic(auto, unfolding(world_parts::specs::Plain::context_put), using(world_parts::proofs::Thens::thens))]
pub(crate) fn context_put(
    alloc: Global,
    parts: &mut Parts,
    task: u32,
    number: u32,
    words: &[u64],
) -> Part<Flow>
    ensures { Does (context_put task number words.now) parts.old result parts.new }
{
    let Some(word) = word_in(words, 0) else {
        return Err(Stop::Stuck);
    };
    parts.set_context_word(task, number, word)?;
    parts.answer_none(alloc, task)
}

/// `backpressure.inc`: the trap is `PressureLimit`.
#[tactic(auto, unfolding(world_parts::specs::Plain::backpressure_inc), using(world_parts::proofs::Thens::thens))]
pub(crate) fn backpressure_inc(alloc: Global, parts: &mut Parts, task: u32, at: usize) -> Part<Flow>
    ensures { Does (backpressure_inc task at) parts.old result parts.new }
{
    raise_pressure(parts, at)?;
    parts.answer_none(alloc, task)
}

/// `backpressure.dec`: the trap is `PressureZero`.
#[tactic(auto, unfolding(world_parts::specs::Plain::backpressure_dec), using(world_parts::proofs::Thens::thens))]
pub(crate) fn backpressure_dec(alloc: Global, parts: &mut Parts, task: u32, at: usize) -> Part<Flow>
    ensures { Does (backpressure_dec task at) parts.old result parts.new }
{
    lower_pressure(parts, at)?;
    parts.answer_none(alloc, task)
}

/// `backpressure.set`
#[tactic(auto, unfolding(world_parts::specs::Plain::backpressure_set), using(world_parts::proofs::Thens::thens))]
pub(crate) fn backpressure_set(
    alloc: Global,
    parts: &mut Parts,
    task: u32,
    at: usize,
    words: &[u64],
) -> Part<Flow>
    ensures { Does (backpressure_set task at words.now) parts.old result parts.new }
{
    let Some(enabled) = word_in(words, 0) else {
        return Err(Stop::Stuck);
    };
    set_pressure(parts, at, enabled)?;
    parts.answer_none(alloc, task)
}

/// `task.return`, up to the tests of its type and its options: the trap is `SyncTask`.
#[tactic(auto, unfolding(world_parts::specs::Plain::return_asked), using(world_parts::proofs::Thens::thens))]
pub fn ask_return(parts: &mut Parts, task: u32) -> Part<Flow>
    ensures { Does (return_asked task) parts.old result parts.new }
{
    parts.advance(task, TaskEvent::AskReturn)?;
    Ok(Flow::Returns)
}

/// A task resolves with its result, by its line. The traps are `Resolved` and `BorrowLives`.
#[tactic(auto, unfolding(world_parts::specs::Plain::returned), using(world_parts::proofs::Thens::thens))]
pub fn return_value(parts: &mut Parts, task: u32, value: Option<TypedValue>) -> Part<()>
    ensures { Does (returned task value) parts.old result parts.new }
{
    parts.advance(task, TaskEvent::Return)?;
    parts.tell(Label::Return { task, value })?;
    parts.raise(task, SubtaskState::Returned)
}

/// `task.cancel`: the traps are `SyncTask`, `NotAsked`, `Resolved` and `BorrowLives`.
#[tactic(auto, unfolding(world_parts::specs::Plain::task_cancel), using(world_parts::proofs::Thens::thens))]
pub(crate) fn task_cancel(alloc: Global, parts: &mut Parts, task: u32) -> Part<Flow>
    ensures { Does (task_cancel task) parts.old result parts.new }
{
    parts.advance(task, TaskEvent::Cancel)?;
    parts.tell(Label::Cancelled { task })?;
    parts.raise(task, SubtaskState::CancelledBeforeReturned)?;
    parts.answer_none(alloc, task)
}

/// `yield`
#[tactic(auto, unfolding(world_parts::specs::Plain::task_yield), using(world_parts::proofs::Thens::thens))]
pub(crate) fn task_yield(
    alloc: Global,
    graph: &Graph<'_>,
    parts: &mut Parts,
    task: u32,
    canon: u32,
) -> Part<Flow>
    ensures { Does (task_yield (seen graph.now) task canon) parts.old result parts.new }
{
    let asked = parts.is_asked(task)?;
    if flag_at(graph, canon) && asked {
        yield_cancelled(alloc, parts, task)
    } else {
        let flag = flag_at(graph, canon);
        block_in(
            parts,
            task,
            canon,
            flag,
            BlockedAt::Yield,
            BlockReason::Yield,
        )
    }
}
