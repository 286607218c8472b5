//! Turns: the script's next item is taken, or a task goes on.

ghost use Rattle.std.specs.Prelude.{◌≡◌};
ghost use Rattle.world_parts.specs.Held.{Does, held};
ghost use Rattle.world_stacks.specs.Over.{Leads};
ghost use Rattle.machine_runs.specs.Turning.{has_item, call_by, call_of, item_done, next_item_taken, turned_so, turns};

use crate::following::add_pile;
use comp_graph::{Graph, Lift};
use event_replies::able;
use graph_views::kind_of;
use programs::{CallNumbers, Program, typed_values};
use replies::{cancel_call, take_call};
use script_reader::{Call, Item};
use std::alloc::Global;
use syntax_trees::{Export, Name};
use world_parts::{Flow, Part, Parts, Stop, Turned};
use world_stacks::Stacks;

/// Whether the script has an item that is not taken.
fn has_item(program: &Program<'_, '_>, parts: &Parts) -> bool
    ensures { result ≡ has_item program.now (held parts.now) }
{
    (parts.feed.taken as usize) < program.script.items().len()
}

/// Takes a call of the script, of the export of a number.
fn take_call_by(
    alloc: Global,
    parts: &mut Parts,
    number: usize,
    export: &Export,
    lift: &Lift,
    call: &Call,
) -> Part<Flow>
    ensures { Does (call_by number export.now lift.now call.now) parts.old result parts.new }
{
    let params = export.func_type.get().params.as_slice();
    let Ok(args) = typed_values(alloc, params, call.values.as_slice()) else {
        return Err(Stop::Memory);
    };
    let Ok(name) = Name::new(alloc, call.name.as_str()) else {
        return Err(Stop::Memory);
    };
    take_call(
        alloc,
        parts,
        number,
        lift.instance as usize,
        kind_of(&lift.options),
        name,
        args,
    )
}

/// Takes a call of the script.
fn take_call_of(
    alloc: Global,
    graph: &Graph<'_>,
    parts: &mut Parts,
    numbers: CallNumbers,
    call: &Call,
) -> Part<Flow>
    ensures { Does (call_of graph.now numbers call.now) parts.old result parts.new }
{
    let Some(export) = graph.exports().as_slice().get(numbers.export) else {
        return Err(Stop::Stuck);
    };
    let Some(lift) = graph.lifts().get(numbers.export) else {
        return Err(Stop::Stuck);
    };
    take_call_by(alloc, parts, numbers.export, export, lift, call)
}

/// Takes an item of the script.
fn take_item(alloc: Global, program: &Program<'_, '_>, parts: &mut Parts, item: &Item) -> Part<Flow>
    ensures { Does (item_done program.now item.now) parts.old result parts.new }
{
    match item {
        Item::Call(call) => {
            let Some(numbers) = program.calls.get(parts.tasks.calls.len()).copied() else {
                return Err(Stop::Stuck);
            };
            take_call_of(alloc, program.graph, parts, numbers, call)
        }
        Item::Cancel(call) => cancel_call(parts, *call),
    }
}

/// Takes the next item of the script.
#[tactic(auto, unfolding(crate::specs::Turning::next_item_taken), using(world_parts::proofs::Thens::thens))]
fn take_next(
    alloc: Global,
    program: &Program<'_, '_>,
    parts: &mut Parts,
    stacks: &mut Stacks,
) -> Part<Turned>
    ensures { Leads (next_item_taken program.now stacks.old.piles.items (held parts.old)) result parts.new stacks.new.piles.items }
{
    let Some(item) = program.script.items().get(parts.feed.taken as usize) else {
        return Err(Stop::Stuck);
    };
    take_item(alloc, program, parts, item)?;
    add_pile(alloc, parts, stacks)?;
    Ok(Turned::TakesItem)
}

/// Goes on with what is chosen.
fn turn_so(
    alloc: Global,
    program: &Program<'_, '_>,
    parts: &mut Parts,
    stacks: &mut Stacks,
    what: Turned,
) -> Part<Turned>
    ensures { Leads (turned_so program.now what stacks.old.piles.items (held parts.old)) result parts.new stacks.new.piles.items }
{
    match what {
        Turned::Ends => Ok(Turned::Ends),
        Turned::TakesItem => take_next(alloc, program, parts, stacks),
        Turned::GoesOn => Ok(Turned::GoesOn),
    }
}

/// Where no task runs, takes one of what may be done: the script's next item, if one is left, or a task that is able to go on (Component Model,
/// Concurrency.md, "Summary"). Of several the next pick chooses one. Where nothing may be done the run ends.
///
/// # Errors
///
/// `NoFuel` and `Memory`; and `Stuck` where something is not there.
#[tactic(auto, unfolding(crate::specs::Turning::turns), using(world_parts::proofs::Thens::thens))]
pub fn turn(
    alloc: Global,
    program: &Program<'_, '_>,
    parts: &mut Parts,
    stacks: &mut Stacks,
) -> Part<Turned>
    ensures { Leads (turns program.now stacks.old.piles.items (held parts.old)) result parts.new stacks.new.piles.items }
{
    let Ok(tasks) = able(alloc, program.graph, parts) else {
        return Err(Stop::Memory);
    };
    let has_item = has_item(program, parts);
    let what = task_turns::turn(parts, has_item, tasks.as_slice())?;
    turn_so(alloc, program, parts, stacks, what)
}
