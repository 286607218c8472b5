//! Built-ins and traps by the names of their variants.

use trace_labels::{Builtin, TrapName};

/// The lowered import, a built-in of resources, tasks and subtasks, or another one.
pub fn builtin_of(word: &str) -> Option<Builtin> {
    match word {
        "Lower" => Some(Builtin::Lower),
        "ResourceNew" => Some(Builtin::ResourceNew),
        "ResourceRep" => Some(Builtin::ResourceRep),
        "ResourceDrop" => Some(Builtin::ResourceDrop),
        "TaskReturn" => Some(Builtin::TaskReturn),
        "TaskCancel" => Some(Builtin::TaskCancel),
        "SubtaskCancel" => Some(Builtin::SubtaskCancel),
        "SubtaskDrop" => Some(Builtin::SubtaskDrop),
        _ => set_builtin(word),
    }
}

/// A built-in of gates, contexts and waitable sets.
fn set_builtin(word: &str) -> Option<Builtin> {
    match word {
        "BackpressureInc" => Some(Builtin::BackpressureInc),
        "BackpressureDec" => Some(Builtin::BackpressureDec),
        "BackpressureSet" => Some(Builtin::BackpressureSet),
        "ContextGet" => Some(Builtin::ContextGet),
        "ContextSet" => Some(Builtin::ContextSet),
        "Yield" => Some(Builtin::Yield),
        "WaitableSetNew" => Some(Builtin::WaitableSetNew),
        "WaitableSetWait" => Some(Builtin::WaitableSetWait),
        "WaitableSetPoll" => Some(Builtin::WaitableSetPoll),
        "WaitableSetDrop" => Some(Builtin::WaitableSetDrop),
        "WaitableJoin" => Some(Builtin::WaitableJoin),
        _ => stream_builtin(word),
    }
}

/// A built-in of streams.
fn stream_builtin(word: &str) -> Option<Builtin> {
    match word {
        "StreamNew" => Some(Builtin::StreamNew),
        "StreamRead" => Some(Builtin::StreamRead),
        "StreamWrite" => Some(Builtin::StreamWrite),
        "StreamCancelRead" => Some(Builtin::StreamCancelRead),
        "StreamCancelWrite" => Some(Builtin::StreamCancelWrite),
        "StreamDropReadable" => Some(Builtin::StreamDropReadable),
        "StreamDropWritable" => Some(Builtin::StreamDropWritable),
        _ => future_builtin(word),
    }
}

/// A built-in of futures.
fn future_builtin(word: &str) -> Option<Builtin> {
    match word {
        "FutureNew" => Some(Builtin::FutureNew),
        "FutureRead" => Some(Builtin::FutureRead),
        "FutureWrite" => Some(Builtin::FutureWrite),
        "FutureCancelRead" => Some(Builtin::FutureCancelRead),
        "FutureCancelWrite" => Some(Builtin::FutureCancelWrite),
        "FutureDropReadable" => Some(Builtin::FutureDropReadable),
        "FutureDropWritable" => Some(Builtin::FutureDropWritable),
        _ => None,
    }
}

/// A trap of core modules, or another one.
pub fn trap_of(word: &str) -> Option<TrapName> {
    match word {
        "Unreachable" => Some(TrapName::Unreachable),
        "DivideByZero" => Some(TrapName::DivideByZero),
        "DivideOverflow" => Some(TrapName::DivideOverflow),
        "MemoryBounds" => Some(TrapName::MemoryBounds),
        "TableBounds" => Some(TrapName::TableBounds),
        "NullElement" => Some(TrapName::NullElement),
        "OtherSignature" => Some(TrapName::OtherSignature),
        "StackLimit" => Some(TrapName::StackLimit),
        "SegmentBounds" => Some(TrapName::SegmentBounds),
        _ => value_trap(word),
    }
}

/// A trap of values.
fn value_trap(word: &str) -> Option<TrapName> {
    match word {
        "Misaligned" => Some(TrapName::Misaligned),
        "Bounds" => Some(TrapName::Bounds),
        "BadChar" => Some(TrapName::BadChar),
        "BadUtf8" => Some(TrapName::BadUtf8),
        "BadCase" => Some(TrapName::BadCase),
        "TooLarge" => Some(TrapName::TooLarge),
        _ => handle_trap(word),
    }
}

/// A trap of handles.
fn handle_trap(word: &str) -> Option<TrapName> {
    match word {
        "Absent" => Some(TrapName::Absent),
        "OtherKind" => Some(TrapName::OtherKind),
        "OtherType" => Some(TrapName::OtherType),
        "NotOwn" => Some(TrapName::NotOwn),
        "Lent" => Some(TrapName::Lent),
        "NotIdle" => Some(TrapName::NotIdle),
        "TableFull" => Some(TrapName::TableFull),
        _ => task_trap(word),
    }
}

/// A trap of tasks and gates.
fn task_trap(word: &str) -> Option<TrapName> {
    match word {
        "Resolved" => Some(TrapName::Resolved),
        "NotAsked" => Some(TrapName::NotAsked),
        "SyncTask" => Some(TrapName::SyncTask),
        "BorrowLives" => Some(TrapName::BorrowLives),
        "Unresolved" => Some(TrapName::Unresolved),
        "PressureLimit" => Some(TrapName::PressureLimit),
        "PressureZero" => Some(TrapName::PressureZero),
        "BadCode" => Some(TrapName::BadCode),
        _ => call_trap(word),
    }
}

/// A trap of calls, subtasks and sets.
fn call_trap(word: &str) -> Option<TrapName> {
    match word {
        "Reentrant" => Some(TrapName::Reentrant),
        "CannotLeave" => Some(TrapName::CannotLeave),
        "WrongResult" => Some(TrapName::WrongResult),
        "WrongOptions" => Some(TrapName::WrongOptions),
        "Delivered" => Some(TrapName::Delivered),
        "Asked" => Some(TrapName::Asked),
        "NotDelivered" => Some(TrapName::NotDelivered),
        "Members" => Some(TrapName::Members),
        "Waiters" => Some(TrapName::Waiters),
        _ => end_trap(word),
    }
}

/// A trap of ends.
fn end_trap(word: &str) -> Option<TrapName> {
    match word {
        "Busy" => Some(TrapName::Busy),
        "DoneEnd" => Some(TrapName::DoneEnd),
        "TooLong" => Some(TrapName::TooLong),
        "SameInstance" => Some(TrapName::SameInstance),
        "NotCopying" => Some(TrapName::NotCopying),
        "UnwrittenFuture" => Some(TrapName::UnwrittenFuture),
        _ => None,
    }
}
