//! The names of traps.

ghost use Rattle.std.specs.Prelude.{◌≡◌};
ghost use Rattle.trace_labels.specs.Names.{trap_text};

use std::fmt;

/// Why a task traps.
#[derive(Clone, Copy, Debug)]
pub enum TrapName {
    /// An `unreachable` was run (Core 2.0, section 4.4.8).
    Unreachable,
    /// A division by 0 (Core 2.0, section 4.3.2).
    DivideByZero,
    /// A quotient that no value of its type is (Core 2.0, section 4.3.2).
    DivideOverflow,
    /// A core access outside its memory.
    MemoryBounds,
    /// An index outside its table.
    TableBounds,
    /// A call through an empty table entry.
    NullElement,
    /// A call through a table of a function of another type.
    OtherSignature,
    /// More frames than a stack has room for.
    StackLimit,
    /// A segment outside its table or memory.
    SegmentBounds,
    /// A place that its type's alignment doesn't divide.
    Misaligned,
    /// A value outside its memory.
    Bounds,
    /// A word that is no Unicode scalar value.
    BadChar,
    /// A string that isn't UTF-8.
    BadUtf8,
    /// A discriminant past the last case.
    BadCase,
    /// More values and bytes than one lifting may have.
    TooLarge,
    /// An index that no entry has.
    Absent,
    /// An entry of another kind.
    OtherKind,
    /// An entry of another type.
    OtherType,
    /// A borrow handle where an own handle is asked.
    NotOwn,
    /// A handle that is lent.
    Lent,
    /// An end whose copy is open, or which is done.
    NotIdle,
    /// A table that has no room for one more entry.
    TableFull,
    /// A task that has resolved already.
    Resolved,
    /// A cancellation that the task wasn't told of.
    NotAsked,
    /// A call that a sync task may not make.
    SyncTask,
    /// A borrow handle of the task that is still live.
    BorrowLives,
    /// A task that ends without a resolution.
    Unresolved,
    /// Backpressure at its greatest value.
    PressureLimit,
    /// Backpressure at 0.
    PressureZero,
    /// A callback's word without a meaning.
    BadCode,
    /// A call into an instance that is among its callers.
    Reentrant,
    /// A built-in where the instance may not be left.
    CannotLeave,
    /// A result of another type than the task's.
    WrongResult,
    /// Options that differ from those of the task's lift.
    WrongOptions,
    /// A subtask whose resolution was delivered.
    Delivered,
    /// A subtask whose cancellation was asked for already.
    Asked,
    /// A subtask whose resolution wasn't delivered.
    NotDelivered,
    /// A set that still has members.
    Members,
    /// A set on which a task waits.
    Waiters,
    /// An end whose copy is open.
    Busy,
    /// An end that is done.
    DoneEnd,
    /// More elements than one copy may have.
    TooLong,
    /// Both ends in one instance, for elements that are neither absent nor integers.
    SameInstance,
    /// An end without an open async copy.
    NotCopying,
    /// A writable end of a future whose value wasn't written.
    UnwrittenFuture,
}

impl TrapName {
    /// The name.
    pub fn as_str(self) -> &'static str
        ensures { result.now ≡ trap_text self }
    {
        match self {
            TrapName::Unreachable => "Unreachable",
            TrapName::DivideByZero => "DivideByZero",
            TrapName::DivideOverflow => "DivideOverflow",
            TrapName::MemoryBounds => "MemoryBounds",
            TrapName::TableBounds => "TableBounds",
            TrapName::NullElement => "NullElement",
            TrapName::OtherSignature => "OtherSignature",
            TrapName::StackLimit => "StackLimit",
            TrapName::SegmentBounds => "SegmentBounds",
            TrapName::Misaligned => "Misaligned",
            TrapName::Bounds => "Bounds",
            TrapName::BadChar => "BadChar",
            TrapName::BadUtf8 => "BadUtf8",
            TrapName::BadCase => "BadCase",
            TrapName::TooLarge => "TooLarge",
            TrapName::Absent => "Absent",
            TrapName::OtherKind => "OtherKind",
            TrapName::OtherType => "OtherType",
            TrapName::NotOwn => "NotOwn",
            TrapName::Lent => "Lent",
            TrapName::NotIdle => "NotIdle",
            TrapName::TableFull => "TableFull",
            TrapName::Resolved => "Resolved",
            TrapName::NotAsked => "NotAsked",
            TrapName::SyncTask => "SyncTask",
            TrapName::BorrowLives => "BorrowLives",
            TrapName::Unresolved => "Unresolved",
            TrapName::PressureLimit => "PressureLimit",
            TrapName::PressureZero => "PressureZero",
            TrapName::BadCode => "BadCode",
            TrapName::Reentrant => "Reentrant",
            TrapName::CannotLeave => "CannotLeave",
            TrapName::WrongResult => "WrongResult",
            TrapName::WrongOptions => "WrongOptions",
            TrapName::Delivered => "Delivered",
            TrapName::Asked => "Asked",
            TrapName::NotDelivered => "NotDelivered",
            TrapName::Members => "Members",
            TrapName::Waiters => "Waiters",
            TrapName::Busy => "Busy",
            TrapName::DoneEnd => "DoneEnd",
            TrapName::TooLong => "TooLong",
            TrapName::SameInstance => "SameInstance",
            TrapName::NotCopying => "NotCopying",
            TrapName::UnwrittenFuture => "UnwrittenFuture",
        }
    }
}

impl fmt::Display for TrapName {
    ghost use Rattle.std.specs.Prelude.{Some};
    ghost use Rattle.trace_labels.specs.Names.{trap_text};

    ghost output = { λ name. Some (trap_text name) };

    fn fmt<W: fmt::Write>(&self, f: &mut fmt::Formatter<W>) -> fmt::Result {
        let name = self.as_str();
        write!(f, "{name}")
    }
}
