//! The acting task's stack runs.

ghost use Rattle.std.specs.Prelude.{◌≡◌, Some};
ghost use Rattle.std.specs.List.{slice_get};
ghost use Rattle.tasks.specs.Tasks.{is_acting};
ghost use Rattle.world_parts.specs.Held.{held, Does};
ghost use Rattle.world_stacks.specs.Over.{Leads};
ghost use Rattle.world_stacks.specs.Piles.{TopTyped, PileTyped};
ghost use Rattle.world_stacks.specs.Running.{called, ended_at, last_ended, stack_ended, PileRuns, RunsAt};

use crate::host_call::HostCall;
use crate::names::core_name;
use crate::pile::Pile;
use crate::stacks::Stacks;
use crate::top::Top;
use std::alloc::Global;
use task_table::{Errand, Words};
use tasks::Phase;
use trace_labels::Label;
use wasm_execution::{Outcome, run};
use world_parts::{Part, Parts, Rest, Stop};

/// Runs the acting stack of the acting task, which has this number, up to its end, to a call of a canonical function, to a trap or to where
/// fuel is wanting (Core 2.0, section 4.4). The answer are the words with which the task's function ended, if it did; else the run goes on
/// at the rest that is kept: at a call, or in the stack that waited for a destructor, or in the instantiation behind a start function.
///
/// # Errors
///
/// A trap, `NoFuel` and `Memory`, and `Stuck` where no stack of the task is to run.
pub fn run_on(
    alloc: Global,
    parts: &mut Parts,
    stacks: &mut Stacks,
    task: u32,
) -> Part<Option<Words>>
    requires typed { PileTyped parts.old.store (slice_get stacks.old.piles.items task) }
    ensures { RunsAt (slice_get stacks.old.piles.items task) task stacks.old.piles.items (held parts.old) result parts.new stacks.new.piles.items }
{
    let at = task as usize;
    if at >= stacks.piles.len() {
        return Err(Stop::Stuck);
    }
    run_pile(alloc, parts, &mut stacks.piles[at], task)
}

/// Runs the acting one of these stacks of a task.
fn run_pile(alloc: Global, parts: &mut Parts, pile: &mut Pile, task: u32) -> Part<Option<Words>>
    requires typed { TopTyped parts.old.store pile.old.top }
    ensures { PileRuns task pile.old (held parts.old) result parts.new pile.new }
{
    match pile.take() {
        Top::Goes(running) => {
            match run(alloc, running, &mut parts.store, &mut parts.feed.left) {
                Outcome::Done(words) => stack_ended(alloc, parts, pile, task, words),
                Outcome::Calls(address, words, waiting) => {
                    pile.put(Top::Waits(HostCall { address, waiting }));
                    call(parts, task, address, words)?;
                    Ok(None)
                }
                Outcome::Trapped(why) => Err(Stop::Trap(core_name(why))),
                Outcome::NoFuel(later) => {
                    later.give_up();
                    Err(Stop::NoFuel)
                }
                Outcome::Memory => Err(Stop::Memory),
            }
        }
        Top::Waits(call) => {
            call.give_up();
            Err(Stop::Stuck)
        }
        Top::Empty => Err(Stop::Stuck),
    }
}

/// The stack of a task waits at a call of the canonical function at this address, which is its number. There are at most 2^32.
fn call(parts: &mut Parts, task: u32, address: usize, words: Words) -> Part<()>
    ensures { Does (called task address words) parts.old result parts.new }
{
    let Ok(number) = u32::try_from(address) else {
        return Err(Stop::Memory);
    };
    parts.set_words(task, words)?;
    parts.rest = Rest::Calls(number);
    Ok(())
}

/// The stack that ran has ended with these words.
fn stack_ended(
    alloc: Global,
    parts: &mut Parts,
    pile: &mut Pile,
    task: u32,
    words: Words,
) -> Part<Option<Words>>
    ensures { Leads (stack_ended task words pile.old (held parts.old)) result parts.new pile.new }
{
    if pile.unstack(&parts.store)? {
        parts.tell(Label::Got {
            task,
            words: Words::new(alloc),
        })?;
        parts.rest = Rest::Runs;
        Ok(None)
    } else {
        let ended = last_ended(parts, task, words)?;
        Ok(ended)
    }
}

/// The last stack of a task has ended with these words.
fn last_ended(parts: &mut Parts, task: u32, words: Words) -> Part<Option<Words>>
    ensures { Does (last_ended task words) parts.old result parts.new }
{
    let phase = parts.phase_of(task)?;
    if is_acting(phase) {
        let errand = parts.errand_of(task)?;
        ended_at(parts, task, words, errand)
    } else {
        Err(Stop::Stuck)
    }
}

/// The last stack of a task has ended with these words, which is at this errand.
fn ended_at(parts: &mut Parts, task: u32, words: Words, errand: Errand) -> Part<Option<Words>>
    ensures { Does (ended_at task words errand) parts.old result parts.new }
{
    match errand {
        Errand::None => Ok(Some(words)),
        Errand::Begins(next) => {
            parts.set_errand(task, Errand::None)?;
            parts.rest = Rest::Instantiates(next);
            Ok(None)
        }
        Errand::AfterCall {
            callee: _,
            canon: _,
        } => Err(Stop::Stuck),
        Errand::AfterCancel {
            callee: _,
            canon: _,
            index: _,
        } => Err(Stop::Stuck),
        Errand::InBuiltin { canon: _ } => Err(Stop::Stuck),
    }
}

/// Whether a task acts.
fn is_acting(phase: Phase) -> bool
    ensures { result ≡ is_acting phase }
{
    match phase {
        Phase::New => false,
        Phase::Acting => true,
        Phase::Blocked(_, _) => false,
        Phase::Exited => false,
    }
}
