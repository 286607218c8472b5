//! What is kept before a graph is instantiated.

ghost use Rattle.std.specs.Prelude.{◌≡◌, ◌∷◌, [], IfOk};
ghost use Rattle.world_parts.specs.Held.{held};
ghost use Rattle.machine_runs.specs.Beginning.{first_slot, first_held, first_piles};

use ca_base::Fuel;
use canon_hosts::first_store;
use choices::Picks;
use comp_graph::Graph;
use entry_gate::Kind;
use faults::Memory;
use script_reader::Script;
use std::alloc::Global;
use syntax_trees::Seq;
use task_table::{Callee, Caller, TaskSlot, Tasks};
use tasks::TaskEvent;
use world_parts::{Feed, Parts, Rest};
use world_stacks::Stacks;

/// What is kept of the world of a graph before it is instantiated, with what a script gives: task 0, which instantiates it (Component Model,
/// Explainer.md, "Instance Definitions"). It fails for want of memory alone.
pub fn first_parts(alloc: Global, graph: &Graph<'_>, script: &Script) -> Result<Parts, Memory>
    ensures { IfOk result (λ parts. held parts ≡ first_held graph.now script.now) }
{
    let store = first_store(alloc, graph)?;
    let tasks = first_tasks(alloc)?;
    let mut chain = Vec::new(alloc);
    chain.push(0)?;
    Ok(Parts {
        store,
        memories: Vec::new(alloc),
        instances: Vec::new(alloc),
        tasks,
        streams: Vec::new(alloc),
        futures: Vec::new(alloc),
        chain,
        rest: Rest::Instantiates(0),
        feed: first_feed(alloc, script)?,
    })
}

/// The task that instantiates, which acts.
fn first_slot(alloc: Global) -> TaskSlot
    ensures { result ≡ first_slot }
{
    let mut slot = TaskSlot::new(alloc, 0, Kind::Sync, Callee::Init, Caller::Nobody);
    let _may = slot.advance(TaskEvent::Enter);
    slot
}

/// That task alone.
fn first_tasks(alloc: Global) -> Result<Tasks, Memory>
    ensures slots { IfOk result (λ tasks. tasks.slots.items ≡ first_slot ∷ []) }
    ensures live { IfOk result (λ tasks. tasks.live.keys ≡ 0 ∷ []) }
    ensures watched { IfOk result (λ tasks. tasks.watched.keys ≡ 0 ∷ []) }
    ensures awake { IfOk result (λ tasks. tasks.awake.keys ≡ 0 ∷ []) }
    ensures calls { IfOk result (λ tasks. tasks.calls.items ≡ []) }
{
    let mut tasks = Tasks::new(alloc);
    tasks.add(first_slot(alloc))?;
    Ok(tasks)
}

/// What a script gives, of which nothing is used.
fn first_feed(alloc: Global, script: &Script) -> Result<Feed, Memory>
    ensures left { IfOk result (λ feed. feed.left ≡ script.now.fuel) }
    ensures picks { IfOk result (λ feed. feed.picks ≡ script.now.picks) }
    ensures taken { IfOk result (λ feed. feed.taken ≡ 0) }
    ensures moves { IfOk result (λ feed. feed.moves ≡ 0) }
    ensures labels { IfOk result (λ feed. feed.labels ≡ []) }
{
    Ok(Feed {
        left: Fuel::new(u64::from(script.fuel())),
        picks: picks_of(alloc, script.picks())?,
        taken: 0,
        moves: 0,
        labels: Seq::new(alloc),
    })
}

/// Picks, of which none is used.
fn picks_of(alloc: Global, numbers: &[u32]) -> Result<Picks, Memory>
    ensures { IfOk result (λ picks. picks ≡ numbers.now) }
{
    let mut picks = Picks::new(alloc);
    for number in numbers {
        picks.push(*number)?;
    }
    Ok(picks)
}

/// The stacks of the task that instantiates, of which none is there.
pub fn first_stacks(alloc: Global) -> Result<Stacks, Memory>
    ensures { IfOk result (λ stacks. stacks.piles.items ≡ first_piles) }
{
    let mut stacks = Stacks::new(alloc);
    match stacks.add(alloc) {
        Ok(()) => Ok(stacks),
        Err(_) => {
            stacks.give_up();
            Err(Memory)
        }
    }
}
