//! What has news, and which members of sets are ready.

ghost use Rattle.std.specs.Prelude.{◌≡◌, IfOk, filter};
ghost use Rattle.std.specs.Option.{option_copied};
ghost use Rattle.std.specs.List.{slice_get, list_any};
ghost use Rattle.waitables.specs.Sets.{set_at};
ghost use Rattle.world_parts.specs.Held.{held};
ghost use Rattle.world_parts.specs.Channels.{channel_of};
ghost use Rattle.world_parts.specs.News.{slot_news, copy_is_async, channel_news, entry_news, entry_in, news_at, members_in, ready, some_ready, index_is_ready, slot_is_resolved, task_is_resolved, channel_is_pending, entry_is_pending, entry_is_resolved};
ghost use Rattle.event_replies.specs.Seen.{seen};

use channels::Channel;
use comp_graph::Graph;
use faults::Memory;
use graph_views::is_async;
use instances::{EndEntry, Instance, WorldEntry};
use std::alloc::Global;
use stream_ends::{OpenCopy, Side};
use task_table::TaskSlot;
use waitables::Nums;
use world_parts::{Parts, set_number};

/// What stands at an index of the table of an instance, where the instance is there.
fn entry_in(parts: &Parts, at: usize, index: u32) -> Option<WorldEntry>
    ensures { result ≡ entry_in (slice_get (held parts.now).instances at) index }
{
    match parts.instances.get(at) {
        Some(instance) => instance.entry(index),
        None => None,
    }
}

/// Whether a task that is there has news for its caller.
fn slot_news(slot: Option<&TaskSlot>) -> bool
    ensures { result ≡ slot_news (option_copied slot.entry) }
{
    match slot {
        Some(slot) => slot.has_news(),
        None => false,
    }
}

/// Whether a copy is one of a call that did not wait.
fn copy_is_async(graph: &Graph<'_>, copy: Option<OpenCopy>) -> bool
    ensures { result ≡ copy_is_async (seen graph.now) copy }
{
    match copy {
        Some(copy) => is_async(graph, copy.canon),
        None => false,
    }
}

/// Whether an end has news.
fn channel_news(graph: &Graph<'_>, side: Side, channel: Option<&Channel>) -> bool
    ensures { result ≡ channel_news (seen graph.now) side (option_copied channel.entry) }
{
    match channel {
        Some(channel) => channel.pending(side) && copy_is_async(graph, channel.open_copy(side)),
        None => false,
    }
}

/// Whether an end of a table has news.
fn end_has_news(graph: &Graph<'_>, parts: &Parts, end: EndEntry) -> bool
    ensures { result ≡ channel_news (seen graph.now) end.side (channel_of end (held parts.now)) }
{
    channel_news(graph, end.side, parts.channel_of(end))
}

/// Whether an entry has news.
fn entry_news(graph: &Graph<'_>, parts: &Parts, entry: Option<WorldEntry>) -> bool
    ensures { result ≡ entry_news (seen graph.now) entry (held parts.now) }
{
    match entry {
        Some(WorldEntry::Subtask(callee)) => slot_news(parts.tasks.slot(callee)),
        Some(WorldEntry::End(end)) => end_has_news(graph, parts, end),
        Some(WorldEntry::Handle(_)) => false,
        Some(WorldEntry::Set(_)) => false,
        None => false,
    }
}

/// Whether what stands at an index has an event for which no task waits directly.
fn has_news(graph: &Graph<'_>, parts: &Parts, at: usize, index: u32) -> bool
    ensures { result ≡ news_at (seen graph.now) (held parts.now) at index }
{
    entry_news(graph, parts, entry_in(parts, at, index))
}

/// The members of a set, by the time of joining. One that is not there has none.
fn members_in(alloc: Global, parts: &Parts, at: usize, set: u64) -> Result<Nums, Memory>
    ensures { IfOk result (λ members. members ≡ members_in (slice_get (held parts.now).instances at) set) }
{
    match parts.instances.get(at) {
        Some(instance) => members_of(alloc, instance, set),
        None => Ok(Nums::new(alloc)),
    }
}

/// The members of a set of an instance, by the time of joining. One that is not there has none.
fn members_of(alloc: Global, instance: &Instance, set: u64) -> Result<Nums, Memory>
    ensures { IfOk result (λ members. members ≡ (set_at instance.now.sets set).members) }
{
    match instance.members(set) {
        Some(members) => members.list(alloc),
        None => Ok(Nums::new(alloc)),
    }
}

/// Those of these indices that have news.
fn ready_among(
    alloc: Global,
    graph: &Graph<'_>,
    parts: &Parts,
    at: usize,
    members: &[u32],
) -> Result<Nums, Memory>
    ensures { IfOk result (λ ready. ready ≡ filter (news_at (seen graph.now) (held parts.now) at) members.now) }
{
    let mut ready = Nums::new(alloc);
    for index in members {
        if has_news(graph, parts, at, *index) {
            match ready.push(*index) {
                Ok(()) => {}
                Err(_) => return Err(Memory),
            }
        }
    }
    Ok(ready)
}

/// The ready members of a set, by the time of joining.
pub(crate) fn ready(
    alloc: Global,
    graph: &Graph<'_>,
    parts: &Parts,
    at: usize,
    set: u64,
) -> Result<Nums, Memory>
    ensures { IfOk result (λ members. members ≡ ready (seen graph.now) at set (held parts.now)) }
{
    match members_in(alloc, parts, at, set) {
        Ok(members) => ready_among(alloc, graph, parts, at, members.as_slice()),
        Err(_) => Err(Memory),
    }
}

/// Whether one of these indices has news.
fn any_ready(graph: &Graph<'_>, parts: &Parts, at: usize, members: &[u32]) -> bool
    ensures { result ≡ list_any (news_at (seen graph.now) (held parts.now) at) members.now }
{
    for index in members {
        if has_news(graph, parts, at, *index) {
            return true;
        }
    }
    false
}

/// Whether a member of a set is ready.
fn some_ready(
    alloc: Global,
    graph: &Graph<'_>,
    parts: &Parts,
    at: usize,
    set: u64,
) -> Result<bool, Memory>
    ensures { IfOk result (λ is. is ≡ some_ready (seen graph.now) at set (held parts.now)) }
{
    match members_in(alloc, parts, at, set) {
        Ok(members) => Ok(any_ready(graph, parts, at, members.as_slice())),
        Err(_) => Err(Memory),
    }
}

/// Whether a member of the set at an index is ready.
pub(crate) fn index_is_ready(
    alloc: Global,
    graph: &Graph<'_>,
    parts: &Parts,
    at: usize,
    index: u32,
) -> Result<bool, Memory>
    ensures { IfOk result (λ is. is ≡ index_is_ready (seen graph.now) at index (held parts.now)) }
{
    match set_number(entry_in(parts, at, index)) {
        Some(set) => some_ready(alloc, graph, parts, at, set),
        None => Ok(false),
    }
}

/// Whether a task that is there has resolved.
fn slot_is_resolved(slot: Option<&TaskSlot>) -> bool
    ensures { result ≡ slot_is_resolved (option_copied slot.entry) }
{
    match slot {
        Some(slot) => slot.is_resolved(),
        None => false,
    }
}

/// Whether a task is there and has resolved.
pub(crate) fn task_is_resolved(parts: &Parts, task: u32) -> bool
    ensures { result ≡ task_is_resolved task (held parts.now) }
{
    slot_is_resolved(parts.tasks.slot(task))
}

/// Whether what came of the copy at an end is to be told.
fn channel_is_pending(side: Side, channel: Option<&Channel>) -> bool
    ensures { result ≡ channel_is_pending side (option_copied channel.entry) }
{
    match channel {
        Some(channel) => channel.pending(side),
        None => false,
    }
}

/// Whether an end stands at an index, and what came of its copy is to be told.
pub(crate) fn is_pending_at(parts: &Parts, at: usize, index: u32) -> bool
    ensures { result ≡ entry_is_pending (entry_in (slice_get (held parts.now).instances at) index) (held parts.now) }
{
    match entry_in(parts, at, index) {
        Some(WorldEntry::End(end)) => channel_is_pending(end.side, parts.channel_of(end)),
        Some(WorldEntry::Handle(_)) => false,
        Some(WorldEntry::Subtask(_)) => false,
        Some(WorldEntry::Set(_)) => false,
        None => false,
    }
}

/// Whether a subtask stands at an index, and its task has resolved.
pub(crate) fn is_resolved_at(parts: &Parts, at: usize, index: u32) -> bool
    ensures { result ≡ entry_is_resolved (entry_in (slice_get (held parts.now).instances at) index) (held parts.now) }
{
    match entry_in(parts, at, index) {
        Some(WorldEntry::Subtask(callee)) => task_is_resolved(parts, callee),
        Some(WorldEntry::Handle(_)) => false,
        Some(WorldEntry::Set(_)) => false,
        Some(WorldEntry::End(_)) => false,
        None => false,
    }
}
