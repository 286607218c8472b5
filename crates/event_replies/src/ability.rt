//! Which tasks can go on.

ghost use Rattle.std.specs.Prelude.{◌≡◌, ◌||◌, IfOk, filter};
ghost use Rattle.std.specs.List.{list_any};
ghost use Rattle.std.specs.Option.{option_copied};
ghost use Rattle.tasks.specs.declared.event.BlockedAt.TheVariants as blocked_at;
ghost use Rattle.world_parts.specs.Held.{held};
ghost use Rattle.world_parts.specs.News.{index_is_ready};
ghost use Rattle.world_parts.specs.Turning.{gate_lets, gate_is_free, loop_is_over, wait_is_over, slot_is_able, is_able, lets_in, lets_others_in, candidates, able};
ghost use Rattle.event_replies.specs.Seen.{seen};

use crate::news::{index_is_ready, is_pending_at, is_resolved_at, task_is_resolved};
use comp_graph::Graph;
use entry_gate::{BadCode, Kind, Next, read_callback};
use faults::Memory;
use instances::Instance;
use std::alloc::Global;
use std::collections::BTreeSet;
use task_table::TaskSlot;
use tasks::{BlockedAt, Phase};
use waitables::Nums;
use world_parts::Parts;

/// Whether the gate of an instance that is there lets a task of this kind enter that waits to.
fn gate_lets(instance: Option<&Instance>, kind: Kind) -> bool
    ensures { result ≡ gate_lets (option_copied instance.entry) kind }
{
    match instance {
        Some(instance) => instance.may_enter(kind, false),
        None => false,
    }
}

/// Whether an instance is there, and no task holds exclusive entry to it.
fn gate_is_free(instance: Option<&Instance>) -> bool
    ensures { result ≡ gate_is_free (option_copied instance.entry) }
{
    match instance {
        Some(instance) => instance.is_entry_free(),
        None => false,
    }
}

/// Whether a task can go on in its loop, where no task holds exclusive entry.
fn loop_is_over(
    alloc: Global,
    graph: &Graph<'_>,
    parts: &Parts,
    slot: &TaskSlot,
    next: Result<Next, BadCode>,
) -> Result<bool, Memory>
    ensures { IfOk result (λ is. is ≡ loop_is_over (seen graph.now) slot.now next (held parts.now)) }
{
    match next {
        Ok(Next::Yield) => Ok(true),
        Ok(Next::Wait(index)) => set_is_over(
            alloc,
            graph,
            parts,
            slot.instance,
            index,
            slot.is_asked(),
        ),
        Ok(Next::Poll(_)) => Ok(true),
        Ok(Next::Exit) => Ok(false),
        Err(_) => Ok(false),
    }
}

/// Whether a member of the set at an index is ready, or else this.
fn set_is_over(
    alloc: Global,
    graph: &Graph<'_>,
    parts: &Parts,
    at: usize,
    index: u32,
    or_else: bool,
) -> Result<bool, Memory>
    ensures { IfOk result (λ is. is ≡ (index_is_ready (seen graph.now) at index (held parts.now) || or_else)) }
{
    match index_is_ready(alloc, graph, parts, at, index) {
        Ok(ready) => Ok(ready || or_else),
        Err(_) => Err(Memory),
    }
}

/// Whether a task can go on in its loop.
fn loop_may_go(
    alloc: Global,
    graph: &Graph<'_>,
    parts: &Parts,
    slot: &TaskSlot,
    word: u32,
) -> Result<bool, Memory>
    ensures { IfOk result (λ is. is ≡ wait_is_over (seen graph.now) slot.now (blocked_at.Loop word) (held parts.now)) }
{
    if gate_is_free(parts.instances.get(slot.instance)) {
        loop_is_over(alloc, graph, parts, slot, read_callback(word))
    } else {
        Ok(false)
    }
}

/// Whether what a task is blocked at is over.
fn wait_is_over(
    alloc: Global,
    graph: &Graph<'_>,
    parts: &Parts,
    slot: &TaskSlot,
    why: BlockedAt,
) -> Result<bool, Memory>
    ensures { IfOk result (λ is. is ≡ wait_is_over (seen graph.now) slot.now why (held parts.now)) }
{
    let at = slot.instance;
    match why {
        BlockedAt::Entry => Ok(gate_lets(parts.instances.get(at), slot.task.kind())),
        BlockedAt::Loop(word) => loop_may_go(alloc, graph, parts, slot, word),
        BlockedAt::Yield => Ok(true),
        BlockedAt::Set(index) => {
            let told = slot.is_to_be_told(gate_is_free(parts.instances.get(at)));
            set_is_over(alloc, graph, parts, at, index, told)
        }
        BlockedAt::Call(callee) => Ok(task_is_resolved(parts, callee)),
        BlockedAt::Copy(index) => Ok(is_pending_at(parts, at, index)),
        BlockedAt::Cancel(index) => Ok(is_resolved_at(parts, at, index)),
    }
}

/// Whether a task that is there can go on.
fn slot_is_able(
    alloc: Global,
    graph: &Graph<'_>,
    parts: &Parts,
    slot: Option<&TaskSlot>,
) -> Result<bool, Memory>
    ensures { IfOk result (λ is. is ≡ slot_is_able (seen graph.now) (option_copied slot.entry) (held parts.now)) }
{
    match slot {
        Some(slot) => match slot.task.phase() {
            Phase::Blocked(why, _) => wait_is_over(alloc, graph, parts, slot, why),
            Phase::New => Ok(false),
            Phase::Acting => Ok(false),
            Phase::Exited => Ok(false),
        },
        None => Ok(false),
    }
}

/// Whether a task can go on.
fn is_able(alloc: Global, graph: &Graph<'_>, parts: &Parts, task: u32) -> Result<bool, Memory>
    ensures { IfOk result (λ is. is ≡ is_able (seen graph.now) (held parts.now) task) }
{
    slot_is_able(alloc, graph, parts, parts.tasks.slot(task))
}

/// Those of these tasks that can go on.
fn able_among(
    alloc: Global,
    graph: &Graph<'_>,
    parts: &Parts,
    tasks: &[u32],
) -> Result<Nums, Memory>
    ensures { IfOk result (λ able. able ≡ filter (is_able (seen graph.now) (held parts.now)) tasks.now) }
{
    let mut able = Nums::new(alloc);
    for task in tasks {
        let Ok(goes_on) = is_able(alloc, graph, parts, *task) else {
            return Err(Memory);
        };
        if goes_on {
            match able.push(*task) {
                Ok(()) => {}
                Err(_) => return Err(Memory),
            }
        }
    }
    Ok(able)
}

/// Whether the gate of an instance lets a task in that waits for exclusive entry.
fn lets_in(instance: &Instance) -> bool
    ensures { result ≡ lets_in instance.now }
{
    instance.has_waiting() && instance.may_enter(Kind::Sync, false)
}

/// Whether the gate of one of these instances does.
fn any_lets_in(instances: &[Instance]) -> bool
    ensures { result ≡ list_any lets_in instances.now }
{
    for instance in instances {
        if lets_in(instance) {
            return true;
        }
    }
    false
}

/// Whether the gate of an instance at which a task waits lets one in that does not need exclusive entry.
fn lets_others_in(instance: &Instance) -> bool
    ensures { result ≡ lets_others_in instance.now }
{
    instance.has_waiting() && instance.may_enter(Kind::Stackful, false)
}

/// Whether the gate of one of these instances does.
fn any_lets_others_in(instances: &[Instance]) -> bool
    ensures { result ≡ list_any lets_others_in instances.now }
{
    for instance in instances {
        if lets_others_in(instance) {
            return true;
        }
    }
    false
}

/// These numbers as a list.
fn list_of(alloc: Global, numbers: &BTreeSet<u32>) -> Result<Nums, Memory>
    ensures { IfOk result (λ list. list ≡ numbers.now.keys) }
{
    let list = numbers.iter().copied().collect(alloc)?;
    Ok(Nums::from_vec(list))
}

/// The tasks that are looked at: where no gate lets one in that waits for exclusive entry, none that does, and where all gates at which tasks wait
/// have backpressure, none that waits to enter.
fn candidates(alloc: Global, parts: &Parts) -> Result<Nums, Memory>
    ensures { IfOk result (λ tasks. tasks ≡ candidates (held parts.now)) }
{
    if any_lets_in(&parts.instances) {
        list_of(alloc, &parts.tasks.live)
    } else if any_lets_others_in(&parts.instances) {
        list_of(alloc, &parts.tasks.watched)
    } else {
        list_of(alloc, &parts.tasks.awake)
    }
}

/// The tasks that can go on, by rising number. Those that have exited are not looked at.
pub fn able(alloc: Global, graph: &Graph<'_>, parts: &Parts) -> Result<Nums, Memory>
    ensures { IfOk result (λ tasks. tasks ≡ able (seen graph.now) (held parts.now)) }
{
    match candidates(alloc, parts) {
        Ok(tasks) => able_among(alloc, graph, parts, tasks.as_slice()),
        Err(_) => Err(Memory),
    }
}
