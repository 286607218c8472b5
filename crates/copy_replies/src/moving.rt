//! Elements that go over.

ghost use Rattle.std.specs.Prelude.{◌≡◌};
ghost use Rattle.instances.specs.Entries.{any_end_in};
ghost use Rattle.world_parts.specs.Held.{Does, Tells, held};
ghost use Rattle.copy_replies.specs.Moves.{task_by, side_by, side_found, read_of, write_of, moving_by, sides_found, other_offer, moving_in, moving, channel_named, completed_payload, completed};

use crate::elements::{element_at, next_place};
use crate::ends::count_copied;
use crate::reading::{other_side, standing};
use builtin_kinds::EndKind;
use channels::Channel;
use comp_graph::{CanonFunc, Graph, Options};
use graph_views::{canon_at, instance_of, options_of};
use instances::{EndEntry, WorldEntry};
use laid_types::LaidType;
use std::alloc::Global;
use stream_ends::{By, OpenCopy, Side};
use trace_labels::{Copied, Label};
use world_parts::{Copying, Flow, Part, Parts, Stop};

/// One side of a copy.
#[derive(Clone, Copy)]
pub struct CopySide {
    /// The task that reads or writes.
    pub task: u32,
    /// The number of its canonical function.
    pub canon: u32,
    /// The number of the component instance that made that.
    pub instance: u32,
    /// What else it uses.
    pub options: Options,
    /// The address of its memory, where it uses one.
    pub memory: Option<usize>,
    /// The place of the next element, behind what is copied already. Of elements that hold nothing it means nothing.
    pub place: u32,
}

/// What goes over, from where to where.
#[derive(Clone, Copy)]
pub struct Moving {
    /// Whether it goes over a stream or a future.
    pub kind: EndKind,
    /// The side of the call that meets an offer.
    pub side: Side,
    /// The number of the stream or the future.
    pub number: u32,
    /// The task that calls.
    pub task: u32,
    /// The number of the instance in whose table its end stands.
    pub at: usize,
    /// The index of its end.
    pub index: u32,
    /// How many elements go over, at least one.
    pub count: u32,
    /// The side to which they go. The lowering acts for its task.
    pub reader: CopySide,
    /// The side from which they come.
    pub writer: CopySide,
}

/// The task that reads or writes.
fn task_by(by: By) -> u32
    ensures { result ≡ task_by by }
{
    match by {
        By::Task(task) => task,
    }
}

/// One side of a copy, by its canonical function and the place of the next element.
fn side_by(parts: &Parts, copy: &OpenCopy, canon: &CanonFunc, place: u32) -> CopySide
    ensures { result ≡ side_by copy.now canon.now place (held parts.now) }
{
    let options = options_of(canon);
    CopySide {
        task: task_by(copy.by),
        canon: copy.canon,
        instance: instance_of(canon),
        options,
        memory: parts.memory_of(&options),
        place,
    }
}

/// One side of a copy.
fn find_side(
    graph: &Graph<'_>,
    parts: &Parts,
    element: &Option<LaidType<'_>>,
    copy: &OpenCopy,
) -> Part<CopySide>
    ensures { Tells (side_found graph.now element.now copy.now) parts.now result }
{
    let Some(canon) = canon_at(graph, copy.canon) else {
        return Err(Stop::Stuck);
    };
    let Some(place) = next_place(element, copy) else {
        return Err(Stop::Stuck);
    };
    Ok(side_by(parts, copy, canon, place))
}

/// Of a call at an end and the offer that it meets the read.
fn read_of(side: Side, call: OpenCopy, offer: OpenCopy) -> OpenCopy
    ensures { result ≡ read_of side call offer }
{
    match side {
        Side::Reader => call,
        Side::Writer => offer,
    }
}

/// Of a call at an end and the offer that it meets the write.
fn write_of(side: Side, call: OpenCopy, offer: OpenCopy) -> OpenCopy
    ensures { result ≡ write_of side call offer }
{
    match side {
        Side::Reader => offer,
        Side::Writer => call,
    }
}

/// What goes over between both sides.
fn moving_by(
    kind: EndKind,
    end: EndEntry,
    task: u32,
    at: usize,
    copying: Copying,
    reader: CopySide,
    writer: CopySide,
) -> Moving
    ensures { result ≡ moving_by kind end task at copying reader writer }
{
    Moving {
        kind,
        side: end.side,
        number: end.number,
        task,
        at,
        index: copying.index,
        count: copying.count,
        reader,
        writer,
    }
}

/// What goes over, between the call and the offer that it meets.
#[tactic(auto, unfolding(crate::specs::Moves::sides_found), using(world_parts::proofs::Thens::thens))]
fn find_sides(
    graph: &Graph<'_>,
    parts: &Parts,
    element: &Option<LaidType<'_>>,
    kind: EndKind,
    end: EndEntry,
    task: u32,
    at: usize,
    copying: Copying,
    offer: OpenCopy,
) -> Part<Moving>
    ensures { Tells (sides_found graph.now element.now kind end task at copying offer) parts.now result }
{
    let call = OpenCopy::new(By::Task(task), copying.canon, copying.place, copying.length);
    let reader = find_side(graph, parts, element, &read_of(end.side, call, offer))?;
    let writer = find_side(graph, parts, element, &write_of(end.side, call, offer))?;
    Ok(moving_by(kind, end, task, at, copying, reader, writer))
}

/// The offer that a call at an end meets.
fn other_offer(side: Side, channel: &Channel) -> Option<OpenCopy>
    ensures { result ≡ other_offer side channel.now }
{
    standing(channel.open_copy(other_side(side)))
}

/// An end of any type.
fn any_end(entry: Option<WorldEntry>) -> Option<EndEntry>
    ensures { result ≡ any_end_in entry }
{
    match entry {
        Some(WorldEntry::End(end)) => Some(end),
        Some(WorldEntry::Handle(_)) => None,
        Some(WorldEntry::Subtask(_)) => None,
        Some(WorldEntry::Set(_)) => None,
        None => None,
    }
}

/// What goes over for a call, in the instance that made its canonical function.
#[tactic(auto, unfolding(crate::specs::Moves::moving_in), using(world_parts::proofs::Thens::thens))]
fn moving_in(
    graph: &Graph<'_>,
    parts: &Parts,
    task: u32,
    at: usize,
    copying: Copying,
) -> Part<Moving>
    ensures { Tells (moving_in graph.now task at copying) parts.now result }
{
    let found = parts.entry(at, copying.index)?;
    let Some(end) = any_end(found) else {
        return Err(Stop::Stuck);
    };
    let Some(channel) = parts.channel_of(end) else {
        return Err(Stop::Stuck);
    };
    let Some(offer) = other_offer(end.side, channel) else {
        return Err(Stop::Stuck);
    };
    let element = element_at(graph, copying.canon);
    let kind = parts.kind_of_end(end);
    find_sides(graph, parts, &element, kind, end, task, at, copying, offer)
}

/// What goes over for the call of a task that answered `Flow::Copies`: from where to where, behind what is copied already.
#[tactic(auto, unfolding(crate::specs::Moves::moving), using(world_parts::proofs::Thens::thens))]
pub fn moving_of(graph: &Graph<'_>, parts: &Parts, task: u32, copying: Copying) -> Part<Moving>
    ensures { Tells (moving graph.now task copying) parts.now result }
{
    let Some(canon) = canon_at(graph, copying.canon) else {
        return Err(Stop::Stuck);
    };
    moving_in(graph, parts, task, instance_of(canon) as usize, copying)
}

/// The stream or future of a number, in a line.
fn channel_named(kind: EndKind, number: u32) -> trace_labels::Channel
    ensures { result ≡ channel_named kind number }
{
    match kind {
        EndKind::Stream => trace_labels::Channel::Stream(number),
        EndKind::Future => trace_labels::Channel::Future(number),
    }
}

/// The payload of a call that so many elements complete.
fn completed_payload(kind: EndKind, count: u32) -> u64
    ensures { result ≡ completed_payload kind count }
{
    match kind {
        EndKind::Stream => 16 * u64::from(count),
        EndKind::Future => 0,
    }
}

/// Completes a call once its elements stand at the reader: the copy is counted and told, the offer has an event from now on, and the call is
/// answered.
#[tactic(auto, unfolding(crate::specs::Moves::completed), using(world_parts::proofs::Thens::thens))]
pub fn complete(alloc: Global, parts: &mut Parts, moving: Moving, copied: Copied) -> Part<Flow>
    ensures { Does (completed moving copied) parts.old result parts.new }
{
    count_copied(parts, moving.kind, moving.number, moving.count)?;
    parts.tell(Label::Copy {
        channel: channel_named(moving.kind, moving.number),
        copied,
    })?;
    let is_idle = parts.is_idle(moving.kind, moving.side, moving.number)?;
    parts.set_idle(moving.at, moving.index, is_idle)?;
    parts.answer_one(
        alloc,
        moving.task,
        completed_payload(moving.kind, moving.count),
    )
}
