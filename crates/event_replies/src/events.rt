//! Events that come to tasks.

ghost use Rattle.std.specs.Prelude.{◌≡◌, ◌∷◌, [], IfOk};
ghost use Rattle.world_parts.specs.Held.{Does};
ghost use Rattle.world_parts.specs.Events.{event_code, event_bytes, callback_of, callback_started, wait_answered, received, received_none, received_cancel, subtask_delivered, end_delivered, member_delivered, delivered_among, delivers, polled, polls};
ghost use Rattle.event_replies.specs.Seen.{seen};

use crate::news::ready;
use builtin_kinds::EndKind;
use comp_graph::{Graph, Lift};
use faults::Memory;
use graph_views::{lift_of, options_at};
use instances::{EndEntry, WorldEntry};
use std::alloc::Global;
use stream_ends::Side;
use task_table::Words;
use tasks::TaskEvent;
use trace_labels::Label;
use world_parts::{Flow, Part, Parts, Receiver, Rest, Stop, tell_end, tell_subtask};

/// The code of the event of an end.
fn event_code(kind: EndKind, side: Side) -> u32
    ensures { result ≡ event_code kind side }
{
    match (kind, side) {
        (EndKind::Stream, Side::Reader) => 2,
        (EndKind::Stream, Side::Writer) => 3,
        (EndKind::Future, Side::Reader) => 4,
        (EndKind::Future, Side::Writer) => 5,
    }
}

/// The bytes of an event.
fn event_bytes(alloc: Global, index: u32, payload: u32) -> Result<Vec<u8>, Memory>
    ensures { IfOk result (λ bytes. bytes.items ≡ event_bytes index payload) }
{
    let Ok(mut bytes) = Vec::from_slice(alloc, &index.to_le_bytes()) else {
        return Err(Memory);
    };
    match bytes.extend_from_slice(&payload.to_le_bytes()) {
        Ok(()) => Ok(bytes),
        Err(_) => Err(Memory),
    }
}

/// The three words with which a callback starts.
fn callback_words(alloc: Global, code: u32, index: u32, payload: u32) -> Result<Words, Memory>
    ensures { IfOk result (λ words. words ≡ code ∷ index ∷ payload ∷ []) }
{
    let words = [u64::from(code), u64::from(index), u64::from(payload)];
    match Vec::from_slice(alloc, &words) {
        Ok(words) => Ok(Words::from_vec(words)),
        Err(_) => Err(Memory),
    }
}

/// The callback of a function starts with an event.
fn start_callback(
    alloc: Global,
    parts: &mut Parts,
    lift: Option<Lift>,
    code: u32,
    index: u32,
    payload: u32,
) -> Part<Flow>
    ensures { Does (callback_of lift code index payload) parts.old result parts.new }
{
    let Some(lift) = lift else {
        return Err(Stop::Stuck);
    };
    let Some(callback) = lift.options.callback else {
        return Err(Stop::Stuck);
    };
    let Ok(words) = callback_words(alloc, code, index, payload) else {
        return Err(Stop::Memory);
    };
    parts.rest = Rest::Runs;
    Ok(Flow::Starts(callback, words))
}

/// The callback of a task starts with an event.
#[tactic(auto, unfolding(world_parts::specs::Events::callback_started), using(world_parts::proofs::Thens::thens))]
fn callback_starts(
    alloc: Global,
    graph: &Graph<'_>,
    parts: &mut Parts,
    task: u32,
    code: u32,
    index: u32,
    payload: u32,
) -> Part<Flow>
    ensures { Does (callback_started (seen graph.now) task code index payload) parts.old result parts.new }
{
    let callee = parts.callee_of(task)?;
    start_callback(alloc, parts, lift_of(graph, callee), code, index, payload)
}

/// A wait answers an event, whose bytes stand at a place.
#[tactic(auto, unfolding(world_parts::specs::Events::wait_answered), using(world_parts::proofs::Thens::thens))]
fn answer_wait(
    alloc: Global,
    graph: &Graph<'_>,
    parts: &mut Parts,
    task: u32,
    canon: u32,
    place: u32,
    code: u32,
    index: u32,
    payload: u32,
) -> Part<Flow>
    ensures { Does (wait_answered (seen graph.now) task canon place code index payload) parts.old result parts.new }
{
    let Ok(bytes) = event_bytes(alloc, index, payload) else {
        return Err(Stop::Memory);
    };
    let memory = parts.memory_of(&options_at(graph, canon));
    parts.put(memory, place, &bytes)?;
    parts.answer_one(alloc, task, u64::from(code))
}

/// An event that is told reaches its task.
fn receive(
    alloc: Global,
    graph: &Graph<'_>,
    parts: &mut Parts,
    task: u32,
    receiver: Receiver,
    code: u32,
    index: u32,
    payload: u32,
) -> Part<Flow>
    ensures { Does (received (seen graph.now) task receiver code index payload) parts.old result parts.new }
{
    match receiver {
        Receiver::InWait { canon, place } => answer_wait(
            alloc, graph, parts, task, canon, place, code, index, payload,
        ),
        Receiver::InCallback => callback_starts(alloc, graph, parts, task, code, index, payload),
    }
}

/// No event comes to a task.
#[tactic(auto, unfolding(world_parts::specs::Events::received_none), using(world_parts::proofs::Thens::thens))]
pub fn receive_none(
    alloc: Global,
    graph: &Graph<'_>,
    parts: &mut Parts,
    task: u32,
    receiver: Receiver,
) -> Part<Flow>
    ensures { Does (received_none (seen graph.now) task receiver) parts.old result parts.new }
{
    parts.tell(Label::Event {
        task,
        code: 0,
        index: 0,
        payload: 0,
    })?;
    receive(alloc, graph, parts, task, receiver, 0, 0, 0)
}

/// The event comes to a task that its cancellation is asked.
#[tactic(auto, unfolding(world_parts::specs::Events::received_cancel), using(world_parts::proofs::Thens::thens))]
pub fn receive_cancel(
    alloc: Global,
    graph: &Graph<'_>,
    parts: &mut Parts,
    task: u32,
    receiver: Receiver,
) -> Part<Flow>
    ensures { Does (received_cancel (seen graph.now) task receiver) parts.old result parts.new }
{
    parts.advance(task, TaskEvent::ToldCancel)?;
    parts.tell(Label::Event {
        task,
        code: 6,
        index: 0,
        payload: 0,
    })?;
    receive(alloc, graph, parts, task, receiver, 6, 0, 0)
}

/// The event of the subtask at an index comes to a task.
#[tactic(auto, unfolding(world_parts::specs::Events::subtask_delivered), using(world_parts::proofs::Thens::thens))]
fn deliver_subtask(
    alloc: Global,
    graph: &Graph<'_>,
    parts: &mut Parts,
    task: u32,
    at: usize,
    receiver: Receiver,
    index: u32,
    callee: u32,
) -> Part<Flow>
    ensures { Does (subtask_delivered (seen graph.now) task at receiver index callee) parts.old result parts.new }
{
    let payload = parts.payload(callee)?;
    parts.tell(Label::Event {
        task,
        code: 1,
        index,
        payload,
    })?;
    tell_subtask(alloc, parts, at, callee)?;
    receive(alloc, graph, parts, task, receiver, 1, index, payload)
}

/// The event of the end at an index comes to a task.
#[tactic(auto, unfolding(world_parts::specs::Events::end_delivered), using(world_parts::proofs::Thens::thens))]
fn deliver_end(
    alloc: Global,
    graph: &Graph<'_>,
    parts: &mut Parts,
    task: u32,
    at: usize,
    receiver: Receiver,
    index: u32,
    end: EndEntry,
) -> Part<Flow>
    ensures { Does (end_delivered (seen graph.now) task at receiver index end) parts.old result parts.new }
{
    let code = event_code(parts.kind_of_end(end), end.side);
    let payload = tell_end(parts, at, index, end)?;
    parts.tell(Label::Event {
        task,
        code,
        index,
        payload,
    })?;
    receive(alloc, graph, parts, task, receiver, code, index, payload)
}

/// The event of what stands at an index comes to a task.
fn deliver_member(
    alloc: Global,
    graph: &Graph<'_>,
    parts: &mut Parts,
    task: u32,
    at: usize,
    receiver: Receiver,
    index: u32,
    found: Option<WorldEntry>,
) -> Part<Flow>
    ensures { Does (member_delivered (seen graph.now) task at receiver index found) parts.old result parts.new }
{
    match found {
        Some(WorldEntry::Subtask(callee)) => {
            deliver_subtask(alloc, graph, parts, task, at, receiver, index, callee)
        }
        Some(WorldEntry::End(end)) => {
            deliver_end(alloc, graph, parts, task, at, receiver, index, end)
        }
        Some(WorldEntry::Handle(_)) => Err(Stop::Stuck),
        Some(WorldEntry::Set(_)) => Err(Stop::Stuck),
        None => Err(Stop::Stuck),
    }
}

/// The event of one of these members comes to a task. Where there are several one is chosen.
#[tactic(auto, unfolding(world_parts::specs::Events::delivered_among), using(world_parts::proofs::Thens::thens))]
pub(crate) fn deliver_among(
    alloc: Global,
    graph: &Graph<'_>,
    parts: &mut Parts,
    task: u32,
    at: usize,
    receiver: Receiver,
    members: &[u32],
) -> Part<Flow>
    ensures { Does (delivered_among (seen graph.now) task at receiver members.now) parts.old result parts.new }
{
    let number = parts.choose(members.len())?;
    let Some(index) = members.get(number as usize).copied() else {
        return Err(Stop::Stuck);
    };
    let found = parts.entry(at, index)?;
    deliver_member(alloc, graph, parts, task, at, receiver, index, found)
}

/// The event of a ready member of a set comes to a task.
#[tactic(auto, unfolding(world_parts::specs::Events::delivers), using(world_parts::proofs::Thens::thens))]
pub fn deliver(
    alloc: Global,
    graph: &Graph<'_>,
    parts: &mut Parts,
    task: u32,
    at: usize,
    receiver: Receiver,
    set: u64,
) -> Part<Flow>
    ensures { Does (delivers (seen graph.now) task at receiver set) parts.old result parts.new }
{
    let Ok(members) = ready(alloc, graph, parts, at, set) else {
        return Err(Stop::Memory);
    };
    deliver_among(alloc, graph, parts, task, at, receiver, members.as_slice())
}

/// The event of one of these members comes to a task, or none where there is no member.
#[tactic(auto, unfolding(world_parts::specs::Events::polled), using(world_parts::proofs::Thens::thens))]
fn poll_among(
    alloc: Global,
    graph: &Graph<'_>,
    parts: &mut Parts,
    task: u32,
    at: usize,
    receiver: Receiver,
    members: &[u32],
) -> Part<Flow>
    ensures { Does (polled (seen graph.now) task at receiver members.now) parts.old result parts.new }
{
    if members.len() == 0 {
        receive_none(alloc, graph, parts, task, receiver)
    } else {
        deliver_among(alloc, graph, parts, task, at, receiver, members)
    }
}

/// The event of a ready member of a set comes to a task, or none where no member is ready.
#[tactic(auto, unfolding(world_parts::specs::Events::polls), using(world_parts::proofs::Thens::thens))]
pub fn poll(
    alloc: Global,
    graph: &Graph<'_>,
    parts: &mut Parts,
    task: u32,
    at: usize,
    receiver: Receiver,
    set: u64,
) -> Part<Flow>
    ensures { Does (polls (seen graph.now) task at receiver set) parts.old result parts.new }
{
    let Ok(members) = ready(alloc, graph, parts, at, set) else {
        return Err(Stop::Memory);
    };
    poll_among(alloc, graph, parts, task, at, receiver, members.as_slice())
}
