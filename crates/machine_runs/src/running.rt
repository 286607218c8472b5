//! Core code runs.

ghost use Rattle.std.specs.List.{slice_get};
ghost use Rattle.world_parts.specs.Held.{held};
ghost use Rattle.world_stacks.specs.Piles.{PileTyped};
ghost use Rattle.machine_runs.specs.Moving.{RunMoves, acting_of, IsActingTyped};

use std::alloc::Global;
use value_parts::Passing;
use world_parts::{Part, Parts, Stop};
use world_stacks::{Stacks, run_on};

/// The acting task's stack runs, up to its end, to a call of a canonical function, to a trap or to where fuel is wanting (Core 2.0, section 4.4).
/// Where the task's function has ended with words these are the answer; else the run goes on at the rest that is kept.
///
/// # Errors
///
/// A trap, `NoFuel` and `Memory`; and `Stuck` where no stack is to run.
#[tactic(auto, using(crate::proofs::Runs::typed_at, crate::proofs::Runs::moves_at, crate::proofs::Runs::moves_none))]
pub fn run(alloc: Global, parts: &mut Parts, stacks: &mut Stacks) -> Part<Passing>
    requires typed { IsActingTyped (held parts.old) stacks.old.piles.items }
    ensures { RunMoves (acting_of (held parts.old)) stacks.old.piles.items (held parts.old) result parts.new stacks.new.piles.items }
{
    let Some(task) = parts.chain.last().copied() else {
        return Err(Stop::Stuck);
    };
    run_task(alloc, parts, stacks, task)
}

/// The stack of a task runs.
#[tactic(auto, using(crate::proofs::Runs::ran))]
fn run_task(alloc: Global, parts: &mut Parts, stacks: &mut Stacks, task: u32) -> Part<Passing>
    requires typed { PileTyped parts.old.store (slice_get stacks.old.piles.items task) }
    ensures { RunMoves (Some task) stacks.old.piles.items (held parts.old) result parts.new stacks.new.piles.items }
{
    match run_on(alloc, parts, stacks, task) {
        Ok(Some(words)) => Ok(Passing::Ended(words)),
        Ok(None) => Ok(Passing::Nothing),
        Err(stop) => Err(stop),
    }
}
