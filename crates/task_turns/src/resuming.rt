//! Tasks that were blocked go on.

ghost use Rattle.std.specs.Prelude.{◌≡◌};
ghost use Rattle.world_parts.specs.Held.{Does, Tells};
ghost use Rattle.world_parts.specs.Going.{loop_flow, yield_flow, loop_resumed_at, loop_resumed_by, loop_resumed, yield_resumed, set_flow, set_resumed, call_resumed, cancel_resumed, copy_resumed_of, copy_resumed, wait_resumed, place_of, builtin_resumed, resumed_in, resumed_from, resumed_by, resumes};

use crate::gates::take_gate_back;
use entry_gate::{BadCode, Next, read_callback};
use instances::WorldEntry;
use std::alloc::Global;
use task_table::Errand;
use tasks::{BlockedAt, Phase, TaskEvent};
use world_parts::{Flow, Part, Parts, Receiver, Stop, tell_end, tell_subtask, yield_cancelled};

/// What comes to a task that goes on in its loop, where it waited on a set.
fn loop_flow(is_asked: bool, polls: bool, set: u64) -> Flow
    ensures { result ≡ loop_flow is_asked polls set }
{
    if is_asked {
        return Flow::HearsCancel(Receiver::InCallback);
    }
    if polls {
        Flow::Polls(Receiver::InCallback, set)
    } else {
        Flow::Delivers(Receiver::InCallback, set)
    }
}

/// What comes to a task that goes on in its loop, where it let others run.
fn yield_flow(is_asked: bool) -> Flow
    ensures { result ≡ yield_flow is_asked }
{
    if is_asked {
        Flow::HearsCancel(Receiver::InCallback)
    } else {
        Flow::HearsNone(Receiver::InCallback)
    }
}

/// A task goes on in its loop, where it waited on the set at an index.
#[tactic(auto, unfolding(world_parts::specs::Going::loop_resumed_at), using(world_parts::proofs::Thens::thens))]
fn resume_loop_at(
    parts: &mut Parts,
    at: usize,
    is_asked: bool,
    polls: bool,
    index: u32,
) -> Part<Flow>
    ensures { Does (loop_resumed_at at is_asked polls index) parts.old result parts.new }
{
    let set = parts.known_set(at, index)?;
    parts.wait_off(at, set)?;
    Ok(loop_flow(is_asked, polls, set))
}

/// A task goes on in its loop, by the word at which it blocked.
fn resume_loop_by(
    parts: &mut Parts,
    at: usize,
    is_asked: bool,
    next: Result<Next, BadCode>,
) -> Part<Flow>
    ensures { Does (loop_resumed_by at is_asked next) parts.old result parts.new }
{
    match next {
        Ok(Next::Yield) => Ok(yield_flow(is_asked)),
        Ok(Next::Wait(index)) => resume_loop_at(parts, at, is_asked, false, index),
        Ok(Next::Poll(index)) => resume_loop_at(parts, at, is_asked, true, index),
        Ok(Next::Exit) => Err(Stop::Stuck),
        Err(_) => Err(Stop::Stuck),
    }
}

/// A task goes on in its loop, and has exclusive entry again.
#[tactic(auto, unfolding(world_parts::specs::Going::loop_resumed), using(world_parts::proofs::Thens::thens))]
fn resume_loop(parts: &mut Parts, task: u32, at: usize, word: u32) -> Part<Flow>
    ensures { Does (loop_resumed task at word) parts.old result parts.new }
{
    let is_asked = parts.is_asked(task)?;
    parts.advance(task, TaskEvent::Go)?;
    take_gate_back(parts, at, task)?;
    resume_loop_by(parts, at, is_asked, read_callback(word))
}

/// A task goes on behind `yield`.
#[tactic(auto, unfolding(world_parts::specs::Going::yield_resumed), using(world_parts::proofs::Thens::thens))]
fn resume_yield(alloc: Global, parts: &mut Parts, task: u32, told_so: bool) -> Part<Flow>
    ensures { Does (yield_resumed task told_so) parts.old result parts.new }
{
    if told_so {
        yield_cancelled(alloc, parts, task)
    } else {
        parts.answer_one(alloc, task, 0)
    }
}

/// What comes to a task behind a wait on a set.
fn set_flow(told_so: bool, canon: u32, place: u32, set: u64) -> Flow
    ensures { result ≡ set_flow told_so canon place set }
{
    let receiver = Receiver::InWait { canon, place };
    if told_so {
        Flow::HearsCancel(receiver)
    } else {
        Flow::Delivers(receiver, set)
    }
}

/// A task goes on behind a wait on the set at an index.
#[tactic(auto, unfolding(world_parts::specs::Going::set_resumed), using(world_parts::proofs::Thens::thens))]
fn resume_set(
    parts: &mut Parts,
    at: usize,
    canon: u32,
    told_so: bool,
    index: u32,
    place: u32,
) -> Part<Flow>
    ensures { Does (set_resumed at canon told_so index place) parts.old result parts.new }
{
    let set = parts.known_set(at, index)?;
    parts.wait_off(at, set)?;
    Ok(set_flow(told_so, canon, place, set))
}

/// A task goes on behind a call of a task that has resolved.
#[tactic(auto, unfolding(world_parts::specs::Going::call_resumed), using(world_parts::proofs::Thens::thens))]
fn resume_call(alloc: Global, parts: &mut Parts, task: u32, at: usize, callee: u32) -> Part<Flow>
    ensures { Does (call_resumed task at callee) parts.old result parts.new }
{
    let words = parts.result_of(alloc, callee)?;
    tell_subtask(alloc, parts, at, callee)?;
    parts.answer(alloc, task, words)
}

/// A task goes on behind `subtask.cancel` of the subtask at an index, which has resolved.
#[tactic(auto, unfolding(world_parts::specs::Going::cancel_resumed), using(world_parts::proofs::Thens::thens))]
fn resume_cancel(alloc: Global, parts: &mut Parts, task: u32, at: usize, index: u32) -> Part<Flow>
    ensures { Does (cancel_resumed task at index) parts.old result parts.new }
{
    let callee = parts.known_subtask(at, index)?;
    parts.set_awaited(callee, false)?;
    let payload = tell_subtask(alloc, parts, at, callee)?;
    parts.answer_one(alloc, task, u64::from(payload))
}

/// A task goes on behind the copy of the end that stands at an index.
fn resume_copy_of(
    alloc: Global,
    parts: &mut Parts,
    task: u32,
    at: usize,
    index: u32,
    found: Option<WorldEntry>,
) -> Part<Flow>
    ensures { Does (copy_resumed_of task at index found) parts.old result parts.new }
{
    match found {
        Some(WorldEntry::End(end)) => {
            let payload = tell_end(parts, at, index, end)?;
            parts.answer_one(alloc, task, u64::from(payload))
        }
        Some(WorldEntry::Handle(_)) => Err(Stop::Stuck),
        Some(WorldEntry::Subtask(_)) => Err(Stop::Stuck),
        Some(WorldEntry::Set(_)) => Err(Stop::Stuck),
        None => Err(Stop::Stuck),
    }
}

/// A task goes on behind the copy of the end at an index.
#[tactic(auto, unfolding(world_parts::specs::Going::copy_resumed), using(world_parts::proofs::Thens::thens))]
fn resume_copy(alloc: Global, parts: &mut Parts, task: u32, at: usize, index: u32) -> Part<Flow>
    ensures { Does (copy_resumed task at index) parts.old result parts.new }
{
    let found = parts.entry(at, index)?;
    resume_copy_of(alloc, parts, task, at, index, found)
}

/// A task goes on in a built-in, by what it was blocked at.
fn resume_wait(
    alloc: Global,
    parts: &mut Parts,
    task: u32,
    at: usize,
    canon: u32,
    told_so: bool,
    place: u32,
    why: BlockedAt,
) -> Part<Flow>
    ensures { Does (wait_resumed task at canon told_so place why) parts.old result parts.new }
{
    match why {
        BlockedAt::Yield => resume_yield(alloc, parts, task, told_so),
        BlockedAt::Set(index) => { resume_set(parts, at, canon, told_so, index, place) }
        BlockedAt::Call(callee) => resume_call(alloc, parts, task, at, callee),
        BlockedAt::Copy(index) => resume_copy(alloc, parts, task, at, index),
        BlockedAt::Cancel(index) => resume_cancel(alloc, parts, task, at, index),
        BlockedAt::Entry => Err(Stop::Stuck),
        BlockedAt::Loop(_) => Err(Stop::Stuck),
    }
}

/// The place that a wait was called with, 0 of anything else.
fn place_of(parts: &Parts, task: u32, why: BlockedAt) -> Part<u32>
    ensures { Tells (place_of task why) parts.now result }
{
    match why {
        BlockedAt::Set(_) => parts.word(task, 1),
        BlockedAt::Entry => Ok(0),
        BlockedAt::Loop(_) => Ok(0),
        BlockedAt::Yield => Ok(0),
        BlockedAt::Call(_) => Ok(0),
        BlockedAt::Copy(_) => Ok(0),
        BlockedAt::Cancel(_) => Ok(0),
    }
}

/// A task goes on in the built-in of a canonical function.
#[tactic(auto, unfolding(world_parts::specs::Going::builtin_resumed), using(world_parts::proofs::Thens::thens))]
fn resume_builtin(
    alloc: Global,
    parts: &mut Parts,
    task: u32,
    at: usize,
    canon: u32,
    why: BlockedAt,
) -> Part<Flow>
    ensures { Does (builtin_resumed task at canon why) parts.old result parts.new }
{
    let told_so = parts.is_to_be_told(task)?;
    let place = place_of(parts, task, why)?;
    parts.advance(task, TaskEvent::Go)?;
    parts.set_errand(task, Errand::None)?;
    resume_wait(alloc, parts, task, at, canon, told_so, place, why)
}

/// A task goes on that is at this.
fn resume_in(
    alloc: Global,
    parts: &mut Parts,
    task: u32,
    at: usize,
    why: BlockedAt,
    errand: Errand,
) -> Part<Flow>
    ensures { Does (resumed_in task at why errand) parts.old result parts.new }
{
    match errand {
        Errand::InBuiltin { canon } => { resume_builtin(alloc, parts, task, at, canon, why) }
        Errand::None => Err(Stop::Stuck),
        Errand::AfterCall {
            callee: _,
            canon: _,
        } => Err(Stop::Stuck),
        Errand::AfterCancel {
            callee: _,
            canon: _,
            index: _,
        } => Err(Stop::Stuck),
        Errand::Begins(_) => Err(Stop::Stuck),
    }
}

/// A task goes on that was blocked in a built-in.
#[tactic(auto, unfolding(world_parts::specs::Going::resumed_from), using(world_parts::proofs::Thens::thens))]
fn resume_from(alloc: Global, parts: &mut Parts, task: u32, at: usize, why: BlockedAt) -> Part<Flow>
    ensures { Does (resumed_from task at why) parts.old result parts.new }
{
    let errand = parts.errand_of(task)?;
    resume_in(alloc, parts, task, at, why, errand)
}

/// A task goes on, by how far it is.
fn resume_by(alloc: Global, parts: &mut Parts, task: u32, at: usize, phase: Phase) -> Part<Flow>
    ensures { Does (resumed_by task at phase) parts.old result parts.new }
{
    match phase {
        Phase::Blocked(why, _) => match why {
            BlockedAt::Entry => Ok(Flow::Enters),
            BlockedAt::Loop(word) => resume_loop(parts, task, at, word),
            BlockedAt::Yield => resume_from(alloc, parts, task, at, why),
            BlockedAt::Set(_) => resume_from(alloc, parts, task, at, why),
            BlockedAt::Call(_) => resume_from(alloc, parts, task, at, why),
            BlockedAt::Copy(_) => resume_from(alloc, parts, task, at, why),
            BlockedAt::Cancel(_) => resume_from(alloc, parts, task, at, why),
        },
        Phase::New => Err(Stop::Stuck),
        Phase::Acting => Err(Stop::Stuck),
        Phase::Exited => Err(Stop::Stuck),
    }
}

/// The acting task, which was blocked, goes on.
#[tactic(auto, unfolding(world_parts::specs::Going::resumes), using(world_parts::proofs::Thens::thens))]
pub fn resume(alloc: Global, parts: &mut Parts) -> Part<Flow>
    ensures { Does resumes parts.old result parts.new }
{
    let task = parts.acting()?;
    let at = parts.instance_of(task)?;
    let phase = parts.phase_of(task)?;
    resume_by(alloc, parts, task, at, phase)
}
