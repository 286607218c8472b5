//! Reads and writes, and what they meet.

ghost use Rattle.std.specs.Prelude.{◌≡◌};
ghost use Rattle.stream_ends.specs.Ends.{other_side, standing_of};
ghost use Rattle.world_parts.specs.Held.{Does};
ghost use Rattle.copy_replies.specs.Reads.{is_offer_of, is_within, idle_said, answered_at_once, left_standing, offer_stands, copying_of, met, meets, placed_and_met, read_or_write, length_in, copy_asked};
ghost use Rattle.copy_replies.specs.Seen.{seen};

use crate::elements::{is_none_or_integer, place_well};
use crate::ends::{Begun, offer};
use builtin_kinds::EndKind;
use channels::Channel;
use comp_graph::Graph;
use graph_views::{flag_at, is_async, is_made_in, options_at};
use laid_types::LaidType;
use std::alloc::Global;
use stream_ends::{By, Meet, OpenCopy, Side};
use tasks::BlockedAt;
use trace_labels::{BlockReason, TrapName};
use world_parts::{Copying, Flow, Part, Parts, Stop, block_in, word_in};

/// How many elements a read or write is of at most.
const MOST: u32 = 268_435_455;

/// What a call that does not wait answers where it would block.
const BLOCKED: u64 = 4_294_967_295;

/// A read or write that a task calls.
#[derive(Clone, Copy)]
pub struct CopyCall {
    /// The task.
    pub task: u32,
    /// The number of the instance in whose table the end stands.
    pub at: usize,
    /// The canonical function.
    pub canon: u32,
    /// Whether the end is of a stream or of a future.
    pub kind: EndKind,
    /// The end: the readable one reads, and the writable one writes.
    pub side: Side,
    /// The number of the type of the stream or future.
    pub end_type: usize,
    /// The index of the end.
    pub index: u32,
    /// The place in memory.
    pub place: u32,
    /// How many elements there is room for or are offered; of a future one.
    pub length: u32,
}

/// The other end's side.
pub(crate) fn other_side(side: Side) -> Side
    ensures { result ≡ other_side side }
{
    match side {
        Side::Reader => Side::Writer,
        Side::Writer => Side::Reader,
    }
}

/// A copy, where the other end can meet it.
pub(crate) fn standing(copy: Option<OpenCopy>) -> Option<OpenCopy>
    ensures { result ≡ standing_of copy }
{
    match copy {
        None => None,
        Some(copy) => { if copy.standing { Some(copy) } else { None } }
    }
}

/// Whether an offer is one of a component instance.
fn is_offer_of(graph: &Graph<'_>, at: usize, offer: Option<OpenCopy>) -> bool
    ensures { result ≡ is_offer_of (seen graph.now) at offer }
{
    match offer {
        None => false,
        Some(offer) => is_made_in(graph, offer.canon, at),
    }
}

/// Whether elements that hold anything but an integer would go over inside an instance.
fn is_within(
    graph: &Graph<'_>,
    at: usize,
    side: Side,
    element: &Option<LaidType<'_>>,
    channel: &Channel,
) -> bool
    ensures { result ≡ is_within (seen graph.now) at side element.now channel.now.ends }
{
    let other = other_side(side);
    let is_plain = is_none_or_integer(element);
    let is_dropped = channel.is_dropped(other);
    let is_own = is_offer_of(graph, at, standing(channel.open_copy(other)));
    !is_plain && !is_dropped && is_own
}

/// Says beside its index whether the end of a call is idle.
#[tactic(auto, unfolding(crate::specs::Reads::idle_said), using(world_parts::proofs::Thens::thens))]
fn say_idle(parts: &mut Parts, call: CopyCall, number: u32) -> Part<()>
    ensures { Does (idle_said call number) parts.old result parts.new }
{
    let is_idle = parts.is_idle(call.kind, call.side, number)?;
    parts.set_idle(call.at, call.index, is_idle)
}

/// Answers a call at once.
#[tactic(auto, unfolding(crate::specs::Reads::answered_at_once), using(world_parts::proofs::Thens::thens))]
fn answer_at_once(
    alloc: Global,
    parts: &mut Parts,
    call: CopyCall,
    number: u32,
    payload: u64,
) -> Part<Flow>
    ensures { Does (answered_at_once call number payload) parts.old result parts.new }
{
    say_idle(parts, call, number)?;
    parts.answer_one(alloc, call.task, payload)
}

/// A call whose offer stands answers so, or blocks.
fn leave_standing(alloc: Global, graph: &Graph<'_>, parts: &mut Parts, call: CopyCall) -> Part<Flow>
    ensures { Does (left_standing (seen graph.now) call) parts.old result parts.new }
{
    if is_async(graph, call.canon) {
        parts.answer_one(alloc, call.task, BLOCKED)
    } else {
        block_in(
            parts,
            call.task,
            call.canon,
            flag_at(graph, call.canon),
            BlockedAt::Copy(call.index),
            BlockReason::Copy(call.index),
        )
    }
}

/// The offer of a call stands.
#[tactic(auto, unfolding(crate::specs::Reads::offer_stands), using(world_parts::proofs::Thens::thens))]
fn stand(
    alloc: Global,
    graph: &Graph<'_>,
    parts: &mut Parts,
    call: CopyCall,
    number: u32,
) -> Part<Flow>
    ensures { Does (offer_stands (seen graph.now) call number) parts.old result parts.new }
{
    say_idle(parts, call, number)?;
    leave_standing(alloc, graph, parts, call)
}

/// What is to go over for a call.
fn copying_of(call: CopyCall, count: u32) -> Copying
    ensures { result ≡ copying_of call count }
{
    Copying {
        canon: call.canon,
        index: call.index,
        place: call.place,
        length: call.length,
        count,
    }
}

/// Goes on by what a call meets.
fn by_meet(
    alloc: Global,
    graph: &Graph<'_>,
    parts: &mut Parts,
    call: CopyCall,
    number: u32,
    meet: Meet,
) -> Part<Flow>
    ensures { Does (met (seen graph.now) call number meet) parts.old result parts.new }
{
    match meet {
        Meet::Stands => stand(alloc, graph, parts, call, number),
        Meet::Copies(count) => Ok(Flow::Copies(copying_of(call, count))),
        Meet::Dropped => answer_at_once(alloc, parts, call, number, 1),
        Meet::Displaces => stand(alloc, graph, parts, call, number),
        Meet::ZeroDone => answer_at_once(alloc, parts, call, number, 0),
        Meet::NothingNow => answer_at_once(alloc, parts, call, number, 0),
    }
}

/// A call meets the other end.
#[tactic(auto, unfolding(crate::specs::Reads::meets), using(world_parts::proofs::Thens::thens))]
fn meet(
    alloc: Global,
    graph: &Graph<'_>,
    parts: &mut Parts,
    call: CopyCall,
    number: u32,
) -> Part<Flow>
    ensures { Does (meets (seen graph.now) call number) parts.old result parts.new }
{
    let begun = Begun {
        by: By::Task(call.task),
        canon: call.canon,
        place: call.place,
        length: call.length,
    };
    let met = offer(parts, call.kind, call.side, number, begun)?;
    by_meet(alloc, graph, parts, call, number, met)
}

/// The elements of a call are tested, and it meets the other end, unless that is inside an instance that keeps them.
#[tactic(auto, unfolding(crate::specs::Reads::placed_and_met), using(world_parts::proofs::Thens::thens))]
fn place_and_meet(
    alloc: Global,
    graph: &Graph<'_>,
    parts: &mut Parts,
    element: &Option<LaidType<'_>>,
    call: CopyCall,
    number: u32,
    is_inside: bool,
) -> Part<Flow>
    ensures { Does (placed_and_met (seen graph.now) element.now call number is_inside) parts.old result parts.new }
{
    let memory = parts.memory_of(&options_at(graph, call.canon));
    place_well(parts, element, memory, call.place, call.length)?;
    if is_inside {
        return Err(Stop::Trap(TrapName::SameInstance));
    }
    meet(alloc, graph, parts, call, number)
}

/// A read or write, of elements of this type where they hold anything. The traps are `Absent`, `OtherKind`, `OtherType`, `Busy`, `DoneEnd`,
/// `TooLong`, `Misaligned`, `Bounds` and `SameInstance`.
#[tactic(auto, unfolding(crate::specs::Reads::read_or_write), using(world_parts::proofs::Thens::thens))]
pub fn read_or_write(
    alloc: Global,
    graph: &Graph<'_>,
    parts: &mut Parts,
    element: &Option<LaidType<'_>>,
    call: CopyCall,
) -> Part<Flow>
    ensures { Does (read_or_write (seen graph.now) element.now call) parts.old result parts.new }
{
    let end = parts.end_at(call.at, call.side, call.end_type, call.index)?;
    let Some(channel) = parts.channel(call.kind, end.number) else {
        return Err(Stop::Stuck);
    };
    let is_copying = channel.is_copying(call.side);
    let is_done = channel.is_done(call.side);
    let is_inside = is_within(graph, call.at, call.side, element, channel);
    if is_copying {
        return Err(Stop::Trap(TrapName::Busy));
    }
    if is_done {
        return Err(Stop::Trap(TrapName::DoneEnd));
    }
    if MOST < call.length {
        return Err(Stop::Trap(TrapName::TooLong));
    }
    place_and_meet(alloc, graph, parts, element, call, end.number, is_inside)
}

/// How many elements a call is of: the third word of one of a stream.
fn length_in(kind: EndKind, words: &[u64]) -> Option<u32>
    ensures { result ≡ length_in kind words.now }
{
    match kind {
        EndKind::Stream => word_in(words, 2),
        EndKind::Future => Some(1),
    }
}

/// `stream.read` and its fellows, by the words of the call, of the type of a number.
#[tactic(auto, unfolding(crate::specs::Reads::copy_asked), using(world_parts::proofs::Thens::thens))]
pub(crate) fn copy_asked(
    alloc: Global,
    graph: &Graph<'_>,
    parts: &mut Parts,
    element: &Option<LaidType<'_>>,
    task: u32,
    at: usize,
    canon: u32,
    kind: EndKind,
    side: Side,
    end_type: usize,
    words: &[u64],
) -> Part<Flow>
    ensures { Does (copy_asked (seen graph.now) element.now task at canon kind side end_type words.now) parts.old result parts.new }
{
    let Some(index) = word_in(words, 0) else {
        return Err(Stop::Stuck);
    };
    let Some(place) = word_in(words, 1) else {
        return Err(Stop::Stuck);
    };
    let Some(length) = length_in(kind, words) else {
        return Err(Stop::Stuck);
    };
    let call = CopyCall {
        task,
        at,
        canon,
        kind,
        side,
        end_type,
        index,
        place,
        length,
    };
    read_or_write(alloc, graph, parts, element, call)
}
