//! Steps of a run.

ghost use Rattle.std.specs.Prelude.{◌≡◌};
ghost use Rattle.laid_types.specs.SameTypes.{AreDistinct};
ghost use Rattle.world_parts.specs.Held.{held};
ghost use Rattle.value_parts.specs.Lifting.{FewLent};
ghost use Rattle.world_stacks.specs.Over.{Leads};
ghost use Rattle.machine_runs.specs.Moving.{IsActingTyped};
ghost use Rattle.machine_runs.specs.Leading.{MayLead};
ghost use Rattle.machine_runs.specs.Stepping.{step_of_turn, turn_steps, move_steps, follow_steps, RunSteps, RestSteps, PassSteps, Steps, CanGoOn, CanStep};

use crate::following::follow;
use crate::moving::make_move;
use crate::running::run;
use crate::turning::turn;
use programs::Program;
use std::alloc::Global;
use value_parts::{PassesValues, Passing};
use world_parts::{Flow, Part, Parts, Rest, Turned};
use world_stacks::Stacks;

/// What a step comes to.
#[derive(Drop)]
pub enum Step {
    /// Nothing may be done: the run has come to its end.
    Ends,
    /// The run goes on, and this is to be passed next.
    GoesOn(Passing),
}

/// What a turn comes to, as a step.
fn step_of_turn(what: Turned) -> Step
    ensures { result ≡ step_of_turn what }
{
    match what {
        Turned::Ends => Step::Ends,
        Turned::TakesItem => Step::GoesOn(Passing::Nothing),
        Turned::GoesOn => Step::GoesOn(Passing::Nothing),
    }
}

/// Where no task runs, a turn.
fn turn_on(
    alloc: Global,
    program: &Program<'_, '_>,
    parts: &mut Parts,
    stacks: &mut Stacks,
) -> Part<Step>
    ensures { Leads (turn_steps program.now stacks.old.piles.items (held parts.old)) result parts.new stacks.new.piles.items }
{
    let what = turn(alloc, program, parts, stacks)?;
    Ok(step_of_turn(what))
}

/// A move of a task that does not run core code.
fn move_on(
    alloc: Global,
    program: &Program<'_, '_>,
    parts: &mut Parts,
    stacks: &mut Stacks,
) -> Part<Step>
    ensures { Leads (move_steps program.now stacks.old.piles.items (held parts.old)) result parts.new stacks.new.piles.items }
{
    let next = make_move(alloc, program.graph, program.ends, parts, stacks)?;
    Ok(Step::GoesOn(next))
}

/// The acting task's stack runs.
#[tactic(auto, using(crate::proofs::Stepped::ran_on, crate::proofs::Stepped::ran_end))]
fn run_on(alloc: Global, parts: &mut Parts, stacks: &mut Stacks) -> Part<Step>
    requires typed { IsActingTyped (held parts.old) stacks.old.piles.items }
    ensures { MayLead (RunSteps stacks.old.piles.items (held parts.old)) result parts.new stacks.new.piles.items }
{
    let next = run(alloc, parts, stacks)?;
    Ok(Step::GoesOn(next))
}

/// Goes on from where the run is.
#[tactic(auto, using(crate::proofs::Stepped::so))]
fn go_on(
    alloc: Global,
    program: &Program<'_, '_>,
    parts: &mut Parts,
    stacks: &mut Stacks,
    rest: Rest,
) -> Part<Step>
    requires { CanGoOn rest stacks.old.piles.items (held parts.old) }
    ensures { MayLead (RestSteps program.now rest stacks.old.piles.items (held parts.old)) result parts.new stacks.new.piles.items }
{
    match rest {
        Rest::Free => turn_on(alloc, program, parts, stacks),
        Rest::Runs => run_on(alloc, parts, stacks),
        Rest::Instantiates(_) => move_on(alloc, program, parts, stacks),
        Rest::Arrives => move_on(alloc, program, parts, stacks),
        Rest::Goes => move_on(alloc, program, parts, stacks),
        Rest::Resumes => move_on(alloc, program, parts, stacks),
        Rest::Back => move_on(alloc, program, parts, stacks),
        Rest::Calls(_) => move_on(alloc, program, parts, stacks),
        Rest::Leaves => move_on(alloc, program, parts, stacks),
    }
}

/// What follows values that were passed.
fn follow_on(
    alloc: Global,
    program: &Program<'_, '_>,
    parts: &mut Parts,
    stacks: &mut Stacks,
    flow: Flow,
) -> Part<Step>
    ensures { Leads (follow_steps program.now flow stacks.old.piles.items (held parts.old)) result parts.new stacks.new.piles.items }
{
    let next = follow(alloc, program.graph, parts, stacks, flow)?;
    Ok(Step::GoesOn(next))
}

/// Values are passed, and what follows is done.
#[tactic(auto, using(crate::proofs::Stepped::then, crate::proofs::Stepped::then_end))]
fn pass_on<V: PassesValues>(
    alloc: Global,
    program: &Program<'_, '_>,
    parts: &mut Parts,
    stacks: &mut Stacks,
    passing: Passing,
) -> Part<Step>
    requires distinct { AreDistinct program.now.types.now }
    requires lends { FewLent (held parts.old) }
    ensures { MayLead (PassSteps V.may_pass program.now passing stacks.old.piles.items (held parts.old)) result parts.new stacks.new.piles.items }
{
    let flow = V::pass(alloc, program, parts, passing)?;
    follow_on(alloc, program, parts, stacks, flow)
}

/// Makes one step of a run, where this is to be passed (Component Model, Concurrency.md, "Summary"). Where nothing is, the run goes on from where
/// it is: the acting task's stack runs, or the task makes a move; where no task runs, the script's next item is taken or a task goes on.
///
/// # Errors
///
/// The traps of what is done, `NoFuel` and `Memory`; and `Stuck` where something is not there.
pub fn make_step<V: PassesValues>(
    alloc: Global,
    program: &Program<'_, '_>,
    parts: &mut Parts,
    stacks: &mut Stacks,
    passing: Passing,
) -> Part<Step>
    requires distinct { AreDistinct program.now.types.now }
    requires can { CanStep passing stacks.old.piles.items (held parts.old) }
    ensures { MayLead (Steps V.may_pass program.now passing stacks.old.piles.items (held parts.old)) result parts.new stacks.new.piles.items }
{
    match passing {
        Passing::Nothing => {
            let rest = parts.rest;
            go_on(alloc, program, parts, stacks, rest)
        }
        Passing::Arguments => pass_on::<V>(alloc, program, parts, stacks, Passing::Arguments),
        Passing::Returned => pass_on::<V>(alloc, program, parts, stacks, Passing::Returned),
        Passing::Ended(words) => {
            pass_on::<V>(alloc, program, parts, stacks, Passing::Ended(words))
        }
        Passing::Elements(copying) => {
            pass_on::<V>(alloc, program, parts, stacks, Passing::Elements(copying))
        }
    }
}
