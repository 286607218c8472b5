//! Tasks enter, block in their loops, and exit.

ghost use Rattle.std.specs.Prelude.{◌≡◌};
ghost use Rattle.world_parts.specs.Held.{Does};
ghost use Rattle.world_parts.specs.Going.{arrives, waits_to_enter, unwaited, unwaited_if, enters, leaves, ending, looped, looped_at_set, loops_by, loops};

use crate::gates::{enter_gate, may_enter, resolution_of, wait_at_gate};
use entry_gate::{BadCode, Next, read_callback};
use tasks::{BlockedAt, Phase, SubtaskState, TaskEvent};
use trace_labels::{BlockReason, Label, TrapName};
use world_parts::{Flow, Part, Parts, Rest, Stop, block};

/// The acting task, which is new, enters, or waits to.
#[tactic(auto, unfolding(world_parts::specs::Going::arrives), using(world_parts::proofs::Thens::thens))]
pub fn arrive(parts: &mut Parts) -> Part<Flow>
    ensures { Does arrives parts.old result parts.new }
{
    let task = parts.acting()?;
    let at = parts.instance_of(task)?;
    let kind = parts.kind_of(task)?;
    let may = may_enter(parts, at, kind, true)?;
    if may {
        return Ok(Flow::Enters);
    }
    wait_at_gate(parts, at)?;
    parts.park(task, kind)?;
    block(parts, task, BlockedAt::Entry, false, BlockReason::Entry)
}

/// Whether a task is blocked before it enters, of which it is known that it has not entered.
fn waits_to_enter(phase: Phase) -> bool
    ensures { result ≡ waits_to_enter phase }
{
    match phase {
        Phase::New => false,
        Phase::Acting => false,
        Phase::Blocked(_, _) => true,
        Phase::Exited => false,
    }
}

/// A task that waited at the gate waits no longer.
fn unwait(parts: &mut Parts, task: u32, at: usize) -> Part<()>
    ensures { Does (unwaited task at) parts.old result parts.new }
{
    parts.unwait_at_gate(at)?;
    parts.unpark(task)
}

/// The same where it waited.
fn unwait_if(parts: &mut Parts, waits: bool, task: u32, at: usize) -> Part<()>
    ensures { Does (unwaited_if waits task at) parts.old result parts.new }
{
    if waits {
        unwait(parts, task, at)
    } else {
        Ok(())
    }
}

/// A task enters, by its line. Behind it its arguments are lifted.
#[tactic(auto, unfolding(world_parts::specs::Going::enters), using(world_parts::proofs::Thens::thens))]
pub fn enter(parts: &mut Parts, task: u32) -> Part<()>
    ensures { Does (enters task) parts.old result parts.new }
{
    let at = parts.instance_of(task)?;
    let kind = parts.kind_of(task)?;
    let phase = parts.phase_of(task)?;
    unwait_if(parts, waits_to_enter(phase), task, at)?;
    enter_gate(parts, at, task, kind)?;
    parts.advance(task, TaskEvent::Enter)?;
    parts.raise(task, SubtaskState::Started)?;
    parts.tell(Label::Enter { task })
}

/// The acting task exits.
#[tactic(auto, unfolding(world_parts::specs::Going::leaves), using(world_parts::proofs::Thens::thens))]
pub fn leave(parts: &mut Parts) -> Part<Flow>
    ensures { Does leaves parts.old result parts.new }
{
    let task = parts.acting()?;
    let at = parts.instance_of(task)?;
    parts.advance(task, TaskEvent::Exit)?;
    parts.give_up_gate(at, task)?;
    parts.close(task)?;
    parts.tell(Label::Exit { task })?;
    parts.leave_chain()
}

/// A task that is lifted with `async` has come to its end. The trap is `Unresolved`.
#[tactic(auto, unfolding(world_parts::specs::Going::ending), using(world_parts::proofs::Thens::thens))]
pub fn end(parts: &mut Parts, task: u32) -> Part<Flow>
    ensures { Does (ending task) parts.old result parts.new }
{
    let resolution = resolution_of(parts, task)?;
    if resolution.is_none() {
        return Err(Stop::Trap(TrapName::Unresolved));
    }
    parts.rest = Rest::Leaves;
    Ok(Flow::Rests)
}

/// A task blocks in its loop, behind this word.
#[tactic(auto, unfolding(world_parts::specs::Going::looped), using(world_parts::proofs::Thens::thens))]
fn loop_on(parts: &mut Parts, task: u32, at: usize, word: u32, why: BlockReason) -> Part<Flow>
    ensures { Does (looped task at word why) parts.old result parts.new }
{
    parts.give_up_gate(at, task)?;
    block(parts, task, BlockedAt::Loop(word), false, why)
}

/// A task blocks in its loop at the set at an index. The traps are `Absent` and `OtherKind`.
#[tactic(auto, unfolding(world_parts::specs::Going::looped_at_set), using(world_parts::proofs::Thens::thens))]
fn loop_at_set(
    parts: &mut Parts,
    task: u32,
    at: usize,
    word: u32,
    index: u32,
    why: BlockReason,
) -> Part<Flow>
    ensures { Does (looped_at_set task at word index why) parts.old result parts.new }
{
    let set = parts.set_at(at, index)?;
    parts.wait_on(at, set)?;
    loop_on(parts, task, at, word, why)
}

/// What a word asks for.
fn loop_by(
    parts: &mut Parts,
    task: u32,
    at: usize,
    word: u32,
    next: Result<Next, BadCode>,
) -> Part<Flow>
    ensures { Does (loops_by task at word next) parts.old result parts.new }
{
    match next {
        Ok(Next::Exit) => end(parts, task),
        Ok(Next::Yield) => loop_on(parts, task, at, word, BlockReason::Yield),
        Ok(Next::Wait(set)) => loop_at_set(parts, task, at, word, set, BlockReason::Wait(set)),
        Ok(Next::Poll(set)) => loop_at_set(parts, task, at, word, set, BlockReason::Poll(set)),
        Err(_) => Err(Stop::Trap(TrapName::BadCode)),
    }
}

/// A task's core function or callback gave a word. The traps are `BadCode`, `Unresolved`, `Absent` and `OtherKind`.
#[tactic(auto, unfolding(world_parts::specs::Going::loops), using(world_parts::proofs::Thens::thens))]
pub fn loop_word(parts: &mut Parts, task: u32, word: u32) -> Part<Flow>
    ensures { Does (loops task word) parts.old result parts.new }
{
    let at = parts.instance_of(task)?;
    loop_by(parts, task, at, word, read_callback(word))
}
