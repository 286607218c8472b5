//! An entry of a table, as it is shown.

ghost use Rattle.std.specs.Prelude.{◌≡◌, IfOk};
ghost use Rattle.std.specs.Option.{option_copied};
ghost use Rattle.world_parts.specs.Held.{held};
ghost use Rattle.world_dumps.specs.Entries.{side_of, end_state, state_in, handle_shown, channel_named, members_of, end_shown, entry_shown};

use builtin_kinds::EndKind;
use channels::Channel;
use faults::Memory;
use instances::{EndEntry, Instance, WorldEntry};
use res_handles::{Handle, Ownership};
use std::alloc::Global;
use syntax_trees::Seq;
use trace_labels::{EndState, Entry};
use world_parts::Parts;

/// Which end it is.
fn side_of(side: stream_ends::Side) -> trace_labels::Side
    ensures { result ≡ side_of side }
{
    match side {
        stream_ends::Side::Reader => trace_labels::Side::Readable,
        stream_ends::Side::Writer => trace_labels::Side::Writable,
    }
}

/// How an end stands; idle where its stream or future is not there.
fn end_state(channel: Option<&Channel>, side: stream_ends::Side) -> EndState
    ensures { result ≡ end_state (option_copied channel.entry) side }
{
    match channel {
        Some(channel) => {
            if channel.is_copying(side) {
                EndState::Copying
            } else if channel.is_done(side) {
                EndState::Done
            } else {
                EndState::Idle
            }
        }
        None => EndState::Idle,
    }
}

/// The stream or future of a number.
fn channel_named(kind: EndKind, number: u32) -> trace_labels::Channel
    ensures { result ≡ channel_named kind number }
{
    match kind {
        EndKind::Stream => trace_labels::Channel::Stream(number),
        EndKind::Future => trace_labels::Channel::Future(number),
    }
}

/// The end of a stream or a future.
fn end_shown(parts: &Parts, end: EndEntry) -> Entry
    ensures { result ≡ end_shown end (held parts.now) }
{
    Entry::End {
        channel: channel_named(parts.kind_of_end(end), end.number),
        side: side_of(end.side),
        state: end_state(parts.channel_of(end), end.side),
    }
}

/// A handle.
fn handle_shown(handle: Handle) -> Entry
    ensures { result ≡ handle_shown handle }
{
    match handle.ownership {
        Ownership::Own => Entry::Own {
            resource: handle.resource,
            rep: handle.rep,
            lends: handle.lends,
        },
        Ownership::Borrow(task) => Entry::Borrow {
            resource: handle.resource,
            rep: handle.rep,
            task,
            lends: handle.lends,
        },
    }
}

/// The number of the state of the subtask that a task is for its caller; 0 where there is none.
fn state_in(parts: &Parts, task: u32) -> u32
    ensures { result ≡ state_in task (held parts.now) }
{
    match parts.tasks.slot(task) {
        Some(slot) => slot.task.state().code(),
        None => 0,
    }
}

/// The members of a set, by time of joining; none where it is not there.
fn members_of(alloc: Global, instance: &Instance, set: u64) -> Result<Seq<u32>, Memory>
    ensures { IfOk result (λ members. members ≡ members_of set instance.now) }
{
    match instance.members(set) {
        Some(members) => members.list(alloc),
        None => Ok(Seq::new(alloc)),
    }
}

/// An entry of the table of an instance.
pub(crate) fn entry_shown(
    alloc: Global,
    parts: &Parts,
    instance: &Instance,
    entry: WorldEntry,
) -> Result<Entry, Memory>
    ensures { IfOk result (λ shown. shown ≡ entry_shown entry instance.now (held parts.now)) }
{
    match entry {
        WorldEntry::Handle(handle) => Ok(handle_shown(handle)),
        WorldEntry::Subtask(task) => Ok(Entry::Subtask {
            task,
            state: state_in(parts, task),
        }),
        WorldEntry::Set(set) => Ok(Entry::Set {
            members: members_of(alloc, instance, set)?,
        }),
        WorldEntry::End(end) => Ok(end_shown(parts, end)),
    }
}
