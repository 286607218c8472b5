//! Streams and futures that are made, read and written, and dropped: what happens at their ends.

ghost use Rattle.std.specs.Prelude.{◌≡◌};
ghost use Rattle.builtin_kinds.specs.declared.EndKind.TheVariants.{Stream, Future};
ghost use Rattle.world_parts.specs.Held.{Does};
ghost use Rattle.world_parts.specs.Channels.{channel_made, offered, offered_at, copied, copied_at, end_dropped, end_dropped_at};

use builtin_kinds::EndKind;
use channels::Channel;
use stream_ends::{By, Meet, Side};
use world_parts::{Part, Parts, Stop, number_behind, place_of};

/// A read or write, as it begins.
#[derive(Clone, Copy)]
pub(crate) struct Begun {
    /// Who reads or writes.
    pub by: By,
    /// The canonical function by which.
    pub canon: u32,
    /// The place in memory.
    pub place: u32,
    /// How many elements there is room for or are offered.
    pub length: u32,
}

/// Makes a stream or a future of the type of a number, and answers its own number.
pub(crate) fn make_channel(parts: &mut Parts, kind: EndKind, end_type: usize) -> Part<u32>
    ensures { Does (channel_made kind end_type) parts.old result parts.new }
{
    match kind {
        EndKind::Stream => make_stream(parts, end_type),
        EndKind::Future => make_future(parts, end_type),
    }
}

/// Makes a stream of the type of a number.
pub(crate) fn make_stream(parts: &mut Parts, end_type: usize) -> Part<u32>
    ensures { Does (channel_made Stream end_type) parts.old result parts.new }
{
    let Some(number) = number_behind(parts.streams.len()) else {
        return Err(Stop::Memory);
    };
    match parts.streams.push(Channel::new(EndKind::Stream, end_type)) {
        Ok(()) => Ok(number),
        Err(_) => Err(Stop::Memory),
    }
}

/// Makes a future of the type of a number.
pub(crate) fn make_future(parts: &mut Parts, end_type: usize) -> Part<u32>
    ensures { Does (channel_made Future end_type) parts.old result parts.new }
{
    let Some(number) = number_behind(parts.futures.len()) else {
        return Err(Stop::Memory);
    };
    match parts.futures.push(Channel::new(EndKind::Future, end_type)) {
        Ok(()) => Ok(number),
        Err(_) => Err(Stop::Memory),
    }
}

/// Begins a read or write at an end, and answers what it meets.
pub(crate) fn offer(
    parts: &mut Parts,
    kind: EndKind,
    side: Side,
    number: u32,
    call: Begun,
) -> Part<Meet>
    ensures { Does (offered kind side number call.by call.canon call.place call.length) parts.old result parts.new }
{
    let Some(at) = place_of(number) else {
        return Err(Stop::Stuck);
    };
    match kind {
        EndKind::Stream => offer_stream(parts, at, side, call),
        EndKind::Future => offer_future(parts, at, side, call),
    }
}

/// Begins a read or write at an end of a stream at a place.
pub(crate) fn offer_stream(parts: &mut Parts, at: usize, side: Side, call: Begun) -> Part<Meet>
    ensures { Does (offered_at Stream at side call.by call.canon call.place call.length) parts.old result parts.new }
{
    if at >= parts.streams.len() {
        return Err(Stop::Stuck);
    }
    match parts.streams[at].offer(side, call.by, call.canon, call.place, call.length) {
        Some(meet) => Ok(meet),
        None => Err(Stop::Stuck),
    }
}

/// Begins a read or write at an end of a future at a place.
pub(crate) fn offer_future(parts: &mut Parts, at: usize, side: Side, call: Begun) -> Part<Meet>
    ensures { Does (offered_at Future at side call.by call.canon call.place call.length) parts.old result parts.new }
{
    if at >= parts.futures.len() {
        return Err(Stop::Stuck);
    }
    match parts.futures[at].offer(side, call.by, call.canon, call.place, call.length) {
        Some(meet) => Ok(meet),
        None => Err(Stop::Stuck),
    }
}

/// Counts elements that went over.
pub(crate) fn count_copied(parts: &mut Parts, kind: EndKind, number: u32, count: u32) -> Part<()>
    ensures { Does (copied kind number count) parts.old result parts.new }
{
    let Some(at) = place_of(number) else {
        return Err(Stop::Stuck);
    };
    match kind {
        EndKind::Stream => count_copied_stream(parts, at, count),
        EndKind::Future => count_copied_future(parts, at, count),
    }
}

/// Counts elements that went over of a stream at a place.
pub(crate) fn count_copied_stream(parts: &mut Parts, at: usize, count: u32) -> Part<()>
    ensures { Does (copied_at Stream at count) parts.old result parts.new }
{
    if at >= parts.streams.len() {
        return Err(Stop::Stuck);
    }
    if parts.streams[at].copied(count) {
        Ok(())
    } else {
        Err(Stop::Stuck)
    }
}

/// Counts elements that went over of a future at a place.
pub(crate) fn count_copied_future(parts: &mut Parts, at: usize, count: u32) -> Part<()>
    ensures { Does (copied_at Future at count) parts.old result parts.new }
{
    if at >= parts.futures.len() {
        return Err(Stop::Stuck);
    }
    if parts.futures[at].copied(count) {
        Ok(())
    } else {
        Err(Stop::Stuck)
    }
}

/// Drops an end.
pub(crate) fn drop_end(parts: &mut Parts, kind: EndKind, side: Side, number: u32) -> Part<()>
    ensures { Does (end_dropped kind side number) parts.old result parts.new }
{
    let Some(at) = place_of(number) else {
        return Err(Stop::Stuck);
    };
    match kind {
        EndKind::Stream => drop_end_stream(parts, at, side),
        EndKind::Future => drop_end_future(parts, at, side),
    }
}

/// Drops an end of a stream at a place.
pub(crate) fn drop_end_stream(parts: &mut Parts, at: usize, side: Side) -> Part<()>
    ensures { Does (end_dropped_at Stream at side) parts.old result parts.new }
{
    if at >= parts.streams.len() {
        return Err(Stop::Stuck);
    }
    if parts.streams[at].drop_end(side) {
        Ok(())
    } else {
        Err(Stop::Stuck)
    }
}

/// Drops an end of a future at a place.
pub(crate) fn drop_end_future(parts: &mut Parts, at: usize, side: Side) -> Part<()>
    ensures { Does (end_dropped_at Future at side) parts.old result parts.new }
{
    if at >= parts.futures.len() {
        return Err(Stop::Stuck);
    }
    if parts.futures[at].drop_end(side) {
        Ok(())
    } else {
        Err(Stop::Stuck)
    }
}
