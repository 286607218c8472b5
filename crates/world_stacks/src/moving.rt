//! Stacks of tasks that begin, and that go on.

ghost use Rattle.world_parts.specs.Held.{held};
ghost use Rattle.world_stacks.specs.Piles.{gone_on, at_pile, Turns};
ghost use Rattle.world_stacks.specs.Over.{Leads};
ghost use Rattle.world_stacks.specs.Moving.{started_on};

use crate::stacks::Stacks;
use crate::starting::call_of;
use comp_graph::FuncRef;
use std::alloc::Global;
use wasm_store::Store;
use world_parts::{Part, Parts, Rest};

/// The acting stack of a task, which waits at a call of a canonical function, goes on with the words of the answer.
///
/// # Errors
///
/// `Stuck` where it does not wait, or the words are not such as the function gives.
pub fn go_on(stacks: &mut Stacks, store: &Store, task: u32, words: &[u64]) -> Part<()>
    ensures { Turns (at_pile (gone_on store.now words.now) task stacks.old.piles.items) result stacks.new.piles.items }
{
    stacks.go_on(store, task, words)
}

/// A call of a core function with these words begins, as a further stack of a task: the core function that the task's function lifts, its
/// callback, or a destructor of a resource of its own instance (Component Model, CanonicalABI.md, `canon lift`, `canon resource.drop`).
///
/// # Errors
///
/// `Stuck` where the function is not there, takes other words, or a stack of the task runs, and `Memory`.
pub fn start_on(
    alloc: Global,
    parts: &mut Parts,
    stacks: &mut Stacks,
    task: u32,
    func: FuncRef,
    words: &[u64],
) -> Part<()>
    ensures { Leads (started_on task func words.now stacks.old.piles.items (held parts.old)) result parts.new stacks.new.piles.items }
{
    let running = call_of(alloc, &parts.store, func, words)?;
    stacks.stack(task, running)?;
    parts.rest = Rest::Runs;
    Ok(())
}
