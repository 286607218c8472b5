//! What a run leaves in the tables of its instances and in its memories.

use crate::label::Channel;
use std::alloc::Global;
use std::fmt;
use syntax_trees::Seq;

/// An end of a stream or a future.
#[derive(Clone, Copy)]
pub enum Side {
    /// The one that is read.
    Readable,
    /// The one that is written.
    Writable,
}

/// How an end stands.
#[derive(Clone, Copy)]
pub enum EndState {
    /// It has no open copy.
    Idle,
    /// It has an open copy.
    Copying,
    /// It can't copy any more.
    Done,
}

impl fmt::Display for EndState {
    ghost use Rattle.std.specs.Prelude.{Some};
    ghost use Rattle.trace_labels.specs.Parts.{state_text};

    ghost output = { λ state. Some (state_text state) };

    fn fmt<W: fmt::Write>(&self, f: &mut fmt::Formatter<W>) -> fmt::Result {
        match self {
            EndState::Idle => write!(f, "idle"),
            EndState::Copying => write!(f, "copying"),
            EndState::Done => write!(f, "done"),
        }
    }
}

/// An entry of an instance's table.
#[derive(Drop)]
pub enum Entry {
    /// An owning handle.
    Own {
        /// The number of the resource's type.
        resource: u32,
        /// The resource's representation.
        rep: u32,
        /// How often it is lent.
        lends: u64,
    },
    /// A borrowing handle.
    Borrow {
        /// The number of the resource's type.
        resource: u32,
        /// The resource's representation.
        rep: u32,
        /// The task that it was lent to.
        task: u32,
        /// How often it is lent on.
        lends: u64,
    },
    /// A subtask.
    Subtask {
        /// The task that it stands for.
        task: u32,
        /// The number of its state (CanonicalABI.md, `Subtask.State`), 0 to 4.
        state: u32,
    },
    /// A waitable set.
    Set {
        /// The indices of its members, by time of joining.
        members: Seq<u32>,
    },
    /// An end of a stream or a future.
    End {
        /// The stream or future.
        channel: Channel,
        /// Which end.
        side: Side,
        /// How it stands.
        state: EndState,
    },
}

/// A live entry with its index.
#[derive(Drop)]
pub struct LiveEntry {
    /// The index.
    pub index: u32,
    /// The entry.
    pub entry: Entry,
}

/// What a run leaves.
#[derive(Drop)]
pub struct Dump<'a> {
    /// The live entries of each instance, by index. The first instance has the number 1.
    pub instances: Seq<Seq<LiveEntry>>,
    /// The bytes of each memory, which are whole pages. The first memory has the number 1.
    pub memories: Seq<&'a [u8]>,
}
