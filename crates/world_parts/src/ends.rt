//! Streams and futures: what is told of their ends, and what happens at them.

ghost use Rattle.std.specs.Prelude.{◌≡◌, ◌+◌, IfSome};
ghost use Rattle.builtin_kinds.specs.declared.EndKind.TheVariants.{Stream, Future};
ghost use Rattle.std.specs.Option.{option_copied};
ghost use Rattle.world_parts.specs.Held.{Does, Tells, held};
ghost use Rattle.world_parts.specs.Channels.{place_of, numbered, is_of_type, channel_at, channel_of, kind_of_end, idle_seen, concluded, concluded_at};

use crate::parts::{Part, Parts, Stop};
use builtin_kinds::EndKind;
use channels::Channel;
use instances::EndEntry;
use stream_ends::Side;

/// The place of what has a number, counted from 1.
pub fn place_of(number: u32) -> Option<usize>
    ensures { result ≡ place_of number }
{
    if number == 0 {
        return None;
    }
    Some(number as usize - 1)
}

/// The stream or the future of a number, counted from 1.
pub fn numbered(channels: &[Channel], number: u32) -> Option<&Channel>
    ensures { option_copied result ≡ numbered channels.now number }
{
    match place_of(number) {
        Some(place) => channels.get(place),
        None => None,
    }
}

/// The number of what stands behind so many others, counted from 1.
pub fn number_behind(count: usize) -> Option<u32>
    ensures { IfSome result (λ number. number ≡ count + 1) }
{
    match u32::try_from(count) {
        Ok(before) => before.checked_add(1),
        Err(_) => None,
    }
}

/// Whether a stream or a future is there, and is of the type of a number.
fn is_of_type(channel: Option<&Channel>, end_type: usize) -> bool
    ensures { result ≡ is_of_type end_type (option_copied channel.entry) }
{
    match channel {
        Some(channel) => channel.end_type == end_type,
        None => false,
    }
}

impl Parts {
    /// The stream or the future of a number.
    pub fn channel(&self, kind: EndKind, number: u32) -> Option<&Channel>
        ensures { option_copied result ≡ channel_at kind number (held self.now) }
    {
        match kind {
            EndKind::Stream => numbered(&self.streams, number),
            EndKind::Future => numbered(&self.futures, number),
        }
    }

    /// What an end belongs to.
    pub fn kind_of_end(&self, end: EndEntry) -> EndKind
        ensures { result ≡ kind_of_end end (held self.now) }
    {
        if is_of_type(self.channel(EndKind::Stream, end.number), end.end_type) {
            EndKind::Stream
        } else {
            EndKind::Future
        }
    }

    /// The stream or the future that an end belongs to.
    pub fn channel_of(&self, end: EndEntry) -> Option<&Channel>
        ensures { option_copied result ≡ channel_of end (held self.now) }
    {
        let kind = self.kind_of_end(end);
        self.channel(kind, end.number)
    }

    /// Whether a read or write may begin at an end.
    pub fn is_idle(&self, kind: EndKind, side: Side, number: u32) -> Part<bool>
        ensures { Tells (idle_seen kind side number) self.now result }
    {
        match self.channel(kind, number) {
            Some(channel) => Ok(channel.is_idle(side)),
            None => Err(Stop::Stuck),
        }
    }

    /// Tells the copy that is open at an end, or gives it up, and answers the payload.
    pub fn conclude(&mut self, kind: EndKind, side: Side, number: u32) -> Part<u32>
        ensures { Does (concluded kind side number) self.old result self.new }
    {
        let Some(at) = place_of(number) else {
            return Err(Stop::Stuck);
        };
        match kind {
            EndKind::Stream => self.conclude_stream(at, side),
            EndKind::Future => self.conclude_future(at, side),
        }
    }

    /// Tells or gives up the copy that is open at an end of a stream at a place.
    fn conclude_stream(&mut self, at: usize, side: Side) -> Part<u32>
        ensures { Does (concluded_at Stream at side) self.old result self.new }
    {
        if at >= self.streams.len() {
            return Err(Stop::Stuck);
        }
        match self.streams[at].cancel(side) {
            Some(payload) => Ok(payload),
            None => Err(Stop::Stuck),
        }
    }

    /// Tells or gives up the copy that is open at an end of a future at a place.
    fn conclude_future(&mut self, at: usize, side: Side) -> Part<u32>
        ensures { Does (concluded_at Future at side) self.old result self.new }
    {
        if at >= self.futures.len() {
            return Err(Stop::Stuck);
        }
        match self.futures[at].cancel(side) {
            Some(payload) => Ok(payload),
            None => Err(Stop::Stuck),
        }
    }
}
