//! One move.

ghost use Rattle.world_parts.specs.Held.{Does, held};
ghost use Rattle.world_stacks.specs.Over.{Leads};
ghost use Rattle.machine_runs.specs.Moving.{woken, moved_on, instantiated, moves};

use crate::calling::call;
use crate::following::follow;
use comp_graph::Graph;
use replies::back;
use std::alloc::Global;
use task_turns::{arrive, go_now, leave, resume};
use value_parts::Passing;
use world_parts::{Flow, Part, Parts, Rest, Stop};
use world_stacks::{Stacks, instantiate};

/// What tasks do at a rest, but for code that runs and for instantiation.
fn wake(
    alloc: Global,
    graph: &Graph<'_>,
    end_types: &[Option<u32>],
    parts: &mut Parts,
    rest: Rest,
) -> Part<Flow>
    ensures { Does (woken graph.now end_types.now rest) parts.old result parts.new }
{
    match rest {
        Rest::Arrives => arrive(parts),
        Rest::Goes => {
            go_now(parts)?;
            Ok(Flow::Rests)
        }
        Rest::Resumes => resume(alloc, parts),
        Rest::Back => back(alloc, graph, parts),
        Rest::Leaves => leave(parts),
        Rest::Calls(number) => call(alloc, graph, end_types, parts, number),
        Rest::Instantiates(_) => Err(Stop::Stuck),
        Rest::Free => Err(Stop::Stuck),
        Rest::Runs => Err(Stop::Stuck),
    }
}

/// The same, with what follows.
#[tactic(auto, unfolding(crate::specs::Moving::moved_on), using(world_parts::proofs::Thens::thens))]
fn move_on(
    alloc: Global,
    graph: &Graph<'_>,
    end_types: &[Option<u32>],
    parts: &mut Parts,
    stacks: &mut Stacks,
    rest: Rest,
) -> Part<Passing>
    ensures { Leads (moved_on graph.now end_types.now rest stacks.old.piles.items (held parts.old)) result parts.new stacks.new.piles.items }
{
    let flow = wake(alloc, graph, end_types, parts, rest)?;
    follow(alloc, graph, parts, stacks, flow)
}

/// The action of a number of the graph's plan is done.
#[tactic(auto, unfolding(crate::specs::Moving::instantiated), using(world_parts::proofs::Thens::thens))]
fn instantiate_on(
    alloc: Global,
    graph: &Graph<'_>,
    parts: &mut Parts,
    stacks: &mut Stacks,
    number: usize,
) -> Part<Passing>
    ensures { Leads (instantiated graph.now number stacks.old.piles.items (held parts.old)) result parts.new stacks.new.piles.items }
{
    instantiate(alloc, graph, parts, stacks, number)?;
    Ok(Passing::Nothing)
}

/// Makes one move from where the run is: up to the next rest, or up to where values are to be passed, which the answer says (Component Model,
/// Concurrency.md, "Summary"). Where core code runs that is `run`, and where no task runs it is `turn`.
///
/// # Errors
///
/// The traps of what is done, `NoFuel` and `Memory`; and `Stuck` where core code runs, where no task runs, and where something is not there.
pub fn make_move(
    alloc: Global,
    graph: &Graph<'_>,
    end_types: &[Option<u32>],
    parts: &mut Parts,
    stacks: &mut Stacks,
) -> Part<Passing>
    ensures { Leads (moves graph.now end_types.now parts.old.rest stacks.old.piles.items (held parts.old)) result parts.new stacks.new.piles.items }
{
    match parts.rest {
        Rest::Instantiates(number) => instantiate_on(alloc, graph, parts, stacks, number),
        rest => move_on(alloc, graph, end_types, parts, stacks, rest),
    }
}
