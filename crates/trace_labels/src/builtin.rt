//! The names of built-ins.

ghost use Rattle.std.specs.Prelude.{◌≡◌};
ghost use Rattle.trace_labels.specs.Names.{builtin_text};

use std::fmt;

/// A built-in of the Canonical ABI, or a lowered import (Component Model, CanonicalABI.md, "Canonical Definitions").
#[derive(Clone, Copy)]
pub enum Builtin {
    /// A lowered import.
    Lower,
    /// `resource.new`
    ResourceNew,
    /// `resource.drop`
    ResourceDrop,
    /// `resource.rep`
    ResourceRep,
    /// `task.return`
    TaskReturn,
    /// `task.cancel`
    TaskCancel,
    /// `subtask.cancel`
    SubtaskCancel,
    /// `subtask.drop`
    SubtaskDrop,
    /// `backpressure.set`
    BackpressureSet,
    /// `backpressure.inc`
    BackpressureInc,
    /// `backpressure.dec`
    BackpressureDec,
    /// `context.get`
    ContextGet,
    /// `context.set`
    ContextSet,
    /// `yield`
    Yield,
    /// `waitable-set.new`
    WaitableSetNew,
    /// `waitable-set.wait`
    WaitableSetWait,
    /// `waitable-set.poll`
    WaitableSetPoll,
    /// `waitable-set.drop`
    WaitableSetDrop,
    /// `waitable.join`
    WaitableJoin,
    /// `stream.new`
    StreamNew,
    /// `stream.read`
    StreamRead,
    /// `stream.write`
    StreamWrite,
    /// `stream.cancel-read`
    StreamCancelRead,
    /// `stream.cancel-write`
    StreamCancelWrite,
    /// `stream.drop-readable`
    StreamDropReadable,
    /// `stream.drop-writable`
    StreamDropWritable,
    /// `future.new`
    FutureNew,
    /// `future.read`
    FutureRead,
    /// `future.write`
    FutureWrite,
    /// `future.cancel-read`
    FutureCancelRead,
    /// `future.cancel-write`
    FutureCancelWrite,
    /// `future.drop-readable`
    FutureDropReadable,
    /// `future.drop-writable`
    FutureDropWritable,
}

impl Builtin {
    /// The whole name, as `stream.cancel-read`.
    pub fn as_str(self) -> &'static str
        ensures { result.now ≡ builtin_text self }
    {
        match self {
            Builtin::Lower => "lower",
            Builtin::ResourceNew => "resource.new",
            Builtin::ResourceDrop => "resource.drop",
            Builtin::ResourceRep => "resource.rep",
            Builtin::TaskReturn => "task.return",
            Builtin::TaskCancel => "task.cancel",
            Builtin::SubtaskCancel => "subtask.cancel",
            Builtin::SubtaskDrop => "subtask.drop",
            Builtin::BackpressureSet => "backpressure.set",
            Builtin::BackpressureInc => "backpressure.inc",
            Builtin::BackpressureDec => "backpressure.dec",
            Builtin::ContextGet => "context.get",
            Builtin::ContextSet => "context.set",
            Builtin::Yield => "yield",
            Builtin::WaitableSetNew => "waitable-set.new",
            Builtin::WaitableSetWait => "waitable-set.wait",
            Builtin::WaitableSetPoll => "waitable-set.poll",
            Builtin::WaitableSetDrop => "waitable-set.drop",
            Builtin::WaitableJoin => "waitable.join",
            Builtin::StreamNew => "stream.new",
            Builtin::StreamRead => "stream.read",
            Builtin::StreamWrite => "stream.write",
            Builtin::StreamCancelRead => "stream.cancel-read",
            Builtin::StreamCancelWrite => "stream.cancel-write",
            Builtin::StreamDropReadable => "stream.drop-readable",
            Builtin::StreamDropWritable => "stream.drop-writable",
            Builtin::FutureNew => "future.new",
            Builtin::FutureRead => "future.read",
            Builtin::FutureWrite => "future.write",
            Builtin::FutureCancelRead => "future.cancel-read",
            Builtin::FutureCancelWrite => "future.cancel-write",
            Builtin::FutureDropReadable => "future.drop-readable",
            Builtin::FutureDropWritable => "future.drop-writable",
        }
    }
}

impl fmt::Display for Builtin {
    ghost use Rattle.std.specs.Prelude.{Some};
    ghost use Rattle.trace_labels.specs.Names.{builtin_text};

    ghost output = { λ b. Some (builtin_text b) };

    fn fmt<W: fmt::Write>(&self, f: &mut fmt::Formatter<W>) -> fmt::Result {
        let name = self.as_str();
        write!(f, "{name}")
    }
}
