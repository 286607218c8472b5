//! Built-ins of the ends of streams and futures, but for reads and writes.

ghost use Rattle.std.specs.Prelude.{◌≡◌};
ghost use Rattle.world_parts.specs.Held.{Does};
ghost use Rattle.world_parts.specs.News.{copy_is_async};
ghost use Rattle.world_parts.specs.Copies.{new_end, channel_new, is_unwritten, dropped_end, end_drop, copy_given_up, copy_cancel};
ghost use Rattle.copy_replies.specs.Seen.{seen};

use crate::ends::{drop_end, make_channel};
use builtin_kinds::EndKind;
use comp_graph::Graph;
use graph_views::is_async;
use instances::{EndEntry, WorldEntry};
use std::alloc::Global;
use stream_ends::{OpenCopy, Side};
use trace_labels::TrapName;
use world_parts::{Flow, Part, Parts, Stop, word_in};

/// An end of a new stream or future.
fn new_end(side: Side, end_type: usize, number: u32) -> WorldEntry
    ensures { result ≡ new_end side end_type number }
{
    WorldEntry::End(EndEntry {
        side,
        end_type,
        number,
        is_idle: true,
    })
}

/// `stream.new` and `future.new`, of the type of a number: the trap is `TableFull`.
#[tactic(auto, unfolding(world_parts::specs::Copies::channel_new), using(world_parts::proofs::Thens::thens))]
pub fn channel_new(
    alloc: Global,
    parts: &mut Parts,
    task: u32,
    at: usize,
    kind: EndKind,
    end_type: usize,
) -> Part<Flow>
    ensures { Does (channel_new task at kind end_type) parts.old result parts.new }
{
    let number = make_channel(parts, kind, end_type)?;
    let readable = parts.add_entry(at, new_end(Side::Reader, end_type, number))?;
    let writable = parts.add_entry(at, new_end(Side::Writer, end_type, number))?;
    parts.answer_one(
        alloc,
        task,
        u64::from(readable) + 4_294_967_296 * u64::from(writable),
    )
}

/// Whether an end is the writable one of a future that is not done.
fn is_unwritten(kind: EndKind, side: Side, is_done: bool) -> bool
    ensures { result ≡ is_unwritten kind side is_done }
{
    match kind {
        EndKind::Stream => false,
        EndKind::Future => match side {
            Side::Reader => false,
            Side::Writer => !is_done,
        },
    }
}

/// The end at an index is dropped, which may be.
#[tactic(auto, unfolding(world_parts::specs::Copies::dropped_end), using(world_parts::proofs::Thens::thens))]
fn dropped(
    alloc: Global,
    parts: &mut Parts,
    task: u32,
    at: usize,
    index: u32,
    kind: EndKind,
    side: Side,
    number: u32,
) -> Part<Flow>
    ensures { Does (dropped_end task at index kind side number) parts.old result parts.new }
{
    parts.leave_set(at, index)?;
    parts.remove_entry(at, index)?;
    drop_end(parts, kind, side, number)?;
    parts.answer_none(alloc, task)
}

/// `stream.drop-readable` and its fellows, of the type of a number: the traps are `Absent`, `OtherKind`, `OtherType`, `Busy` and
/// `UnwrittenFuture`.
#[tactic(auto, unfolding(world_parts::specs::Copies::end_drop), using(world_parts::proofs::Thens::thens))]
pub fn end_drop(
    alloc: Global,
    parts: &mut Parts,
    task: u32,
    at: usize,
    kind: EndKind,
    side: Side,
    end_type: usize,
    words: &[u64],
) -> Part<Flow>
    ensures { Does (end_drop task at kind side end_type words.now) parts.old result parts.new }
{
    let Some(index) = word_in(words, 0) else {
        return Err(Stop::Stuck);
    };
    let end = parts.end_at(at, side, end_type, index)?;
    let Some(channel) = parts.channel(kind, end.number) else {
        return Err(Stop::Stuck);
    };
    let is_copying = channel.is_copying(side);
    let is_done = channel.is_done(side);
    if is_copying {
        return Err(Stop::Trap(TrapName::Busy));
    }
    if is_unwritten(kind, side, is_done) {
        return Err(Stop::Trap(TrapName::UnwrittenFuture));
    }
    dropped(alloc, parts, task, at, index, kind, side, end.number)
}

/// Whether a copy is one of a call that did not wait.
fn copy_is_async(graph: &Graph<'_>, copy: Option<OpenCopy>) -> bool
    ensures { result ≡ copy_is_async (seen graph.now) copy }
{
    match copy {
        Some(copy) => is_async(graph, copy.canon),
        None => false,
    }
}

/// The copy at the end at an index is told, or given up.
#[tactic(auto, unfolding(world_parts::specs::Copies::copy_given_up), using(world_parts::proofs::Thens::thens))]
fn give_up_copy(
    alloc: Global,
    parts: &mut Parts,
    task: u32,
    at: usize,
    index: u32,
    kind: EndKind,
    side: Side,
    number: u32,
) -> Part<Flow>
    ensures { Does (copy_given_up task at index kind side number) parts.old result parts.new }
{
    let payload = parts.conclude(kind, side, number)?;
    let is_idle = parts.is_idle(kind, side, number)?;
    parts.set_idle(at, index, is_idle)?;
    parts.answer_one(alloc, task, u64::from(payload))
}

/// `stream.cancel-read` and its fellows, of the type of a number: the traps are `Absent`, `OtherKind`, `OtherType` and `NotCopying`.
#[tactic(auto, unfolding(world_parts::specs::Copies::copy_cancel), using(world_parts::proofs::Thens::thens))]
pub fn copy_cancel(
    alloc: Global,
    graph: &Graph<'_>,
    parts: &mut Parts,
    task: u32,
    at: usize,
    kind: EndKind,
    side: Side,
    end_type: usize,
    words: &[u64],
) -> Part<Flow>
    ensures { Does (copy_cancel (seen graph.now) task at kind side end_type words.now) parts.old result parts.new }
{
    let Some(index) = word_in(words, 0) else {
        return Err(Stop::Stuck);
    };
    let end = parts.end_at(at, side, end_type, index)?;
    let Some(channel) = parts.channel(kind, end.number) else {
        return Err(Stop::Stuck);
    };
    if !copy_is_async(graph, channel.open_copy(side)) {
        return Err(Stop::Trap(TrapName::NotCopying));
    }
    give_up_copy(alloc, parts, task, at, index, kind, side, end.number)
}
