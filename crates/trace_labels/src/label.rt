//! The lines of a trace.

use crate::builtin::Builtin;
use crate::trap::TrapName;
use crate::typed::{TypedValue, TypedValues};
use std::alloc::Global;
use std::fmt;
use syntax_trees::{Name, Seq};

/// A stream or a future, by its number.
#[derive(Clone, Copy)]
pub enum Channel {
    /// The stream with this number.
    Stream(u32),
    /// The future with this number.
    Future(u32),
}

impl fmt::Display for Channel {
    ghost use Rattle.std.specs.Prelude.{Some};
    ghost use Rattle.trace_labels.specs.Parts.{channel_text};

    ghost output = { λ channel. Some (channel_text channel) };

    fn fmt<W: fmt::Write>(&self, f: &mut fmt::Formatter<W>) -> fmt::Result {
        match self {
            Channel::Stream(number) => write!(f, "S{number}"),
            Channel::Future(number) => write!(f, "F{number}"),
        }
    }
}

/// Why a task blocks.
#[derive(Clone, Copy)]
pub enum BlockReason {
    /// It waits to enter its instance.
    Entry,
    /// It lets others run.
    Yield,
    /// It waits for an event of the set with this index.
    Wait(u32),
    /// It lets others run before it looks for an event of the set with this index.
    Poll(u32),
    /// It waits for the task with this number, which it called.
    Call(u32),
    /// It waits for the copy of the end with this index.
    Copy(u32),
    /// It waits for the cancelled subtask with this index.
    Cancel(u32),
}

impl fmt::Display for BlockReason {
    ghost use Rattle.std.specs.Prelude.{Some};
    ghost use Rattle.trace_labels.specs.Parts.{reason_text};

    ghost output = { λ reason. Some (reason_text reason) };

    fn fmt<W: fmt::Write>(&self, f: &mut fmt::Formatter<W>) -> fmt::Result {
        match self {
            BlockReason::Entry => write!(f, "entry"),
            BlockReason::Yield => write!(f, "yield"),
            BlockReason::Wait(set) => write!(f, "wait {set}"),
            BlockReason::Poll(set) => write!(f, "poll {set}"),
            BlockReason::Call(callee) => write!(f, "call T{callee}"),
            BlockReason::Copy(end) => write!(f, "copy {end}"),
            BlockReason::Cancel(subtask) => write!(f, "cancel {subtask}"),
        }
    }
}

/// What one copy moved from a stream or a future to its reader.
#[derive(Drop)]
pub enum Copied {
    /// So many elements that hold nothing.
    Units(u32),
    /// The elements, in order.
    Values(TypedValues),
}

/// A line of a trace. Instances, tasks, streams, futures and calls of the script stand by their numbers.
#[derive(Drop)]
pub enum Label {
    /// A call of the script is taken: it makes a task that runs a function with arguments.
    Take {
        /// The number of the call, counted from 1.
        call: u32,
        /// The task that it makes.
        task: u32,
        /// The name of the function.
        name: Name,
        /// The arguments.
        args: Seq<TypedValue>,
    },
    /// A cancel line of the script is taken.
    Cancel {
        /// The number of the call that is cancelled.
        call: u32,
    },
    /// One of several alternatives is chosen.
    Choose {
        /// How many there are, at least 2.
        alternatives: u32,
        /// The chosen one, counted from 0.
        chosen: u32,
    },
    /// A task calls a function of an instance, which makes a task.
    Call {
        /// The task that calls.
        caller: u32,
        /// The task that is made.
        callee: u32,
        /// The instance of the callee.
        instance: u32,
    },
    /// A task enters its instance.
    Enter {
        /// The task.
        task: u32,
    },
    /// A task exits.
    Exit {
        /// The task.
        task: u32,
    },
    /// A task calls a built-in.
    Do {
        /// The task.
        task: u32,
        /// The built-in.
        builtin: Builtin,
        /// The words that it is called with.
        words: Seq<u64>,
    },
    /// A built-in answers a task.
    Got {
        /// The task.
        task: u32,
        /// The words of the answer.
        words: Seq<u64>,
    },
    /// A task blocks.
    Block {
        /// The task.
        task: u32,
        /// Why.
        reason: BlockReason,
    },
    /// A task that was blocked goes on.
    Go {
        /// The task.
        task: u32,
    },
    /// An event is delivered to a task.
    Event {
        /// The task.
        task: u32,
        /// The event's code (CanonicalABI.md, `EventCode`).
        code: u32,
        /// The index of the subtask or end in the task's table.
        index: u32,
        /// The event's payload.
        payload: u32,
    },
    /// Elements are copied from a stream or a future to its reader.
    Copy {
        /// The stream or future.
        channel: Channel,
        /// The elements.
        copied: Copied,
    },
    /// A handle is lent for a call.
    Lend {
        /// The instance whose handle it is.
        instance: u32,
        /// The handle's index.
        handle: u32,
        /// The task that is called.
        task: u32,
    },
    /// A lent handle is given back.
    Unlend {
        /// The instance whose handle it is.
        instance: u32,
        /// The handle's index.
        handle: u32,
        /// The task that was called.
        task: u32,
    },
    /// A task resolves with its result.
    Return {
        /// The task.
        task: u32,
        /// The result, where the task's function has one.
        value: Option<TypedValue>,
    },
    /// A task resolves as cancelled.
    Cancelled {
        /// The task.
        task: u32,
    },
    /// The run ends: all tasks have exited.
    Done,
    /// The run ends by a trap.
    Trap {
        /// The task that traps.
        task: u32,
        /// Why.
        name: TrapName,
    },
    /// The run ends: tasks haven't exited, and none can go on.
    Deadlock {
        /// These tasks, by rising number.
        tasks: Seq<u32>,
    },
    /// The run ends for want of fuel.
    Fuel,
}
