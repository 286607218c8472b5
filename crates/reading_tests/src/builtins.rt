//! Canonical functions of components as text.

use crate::texts::write_behind;
use crate::value_types::write_held;
use builtin_kinds::{ContextOp, EndKind, EndSide, PlainBuiltin, ResourceOp, WaitOp};
use comp_tree::{Canon, CanonBuiltin, CanonEndOp, CanonOption};
use std::alloc::AllocError;

/// Writes an option of a canonical function.
fn write_option(text: &mut String, option: CanonOption) -> Result<(), AllocError> {
    match option {
        CanonOption::Utf8 => text.push_str(", utf8"),
        CanonOption::Memory(index) => write_behind(text, ", memory ", index),
        CanonOption::Realloc(index) => write_behind(text, ", realloc ", index),
        CanonOption::PostReturn(index) => write_behind(text, ", post-return ", index),
        CanonOption::Async => text.push_str(", async"),
        CanonOption::Callback(index) => write_behind(text, ", callback ", index),
    }
}

/// Writes the options of a canonical function.
fn write_options(text: &mut String, options: &[CanonOption]) -> Result<(), AllocError> {
    for option in options {
        write_option(text, *option)?;
    }
    Ok(())
}

/// Writes a word where a flag is set.
fn write_flag(text: &mut String, flag: bool, word: &str) -> Result<(), AllocError> {
    if flag {
        return text.push_str(word);
    }
    Ok(())
}

/// The name of a built-in of a resource.
fn resource_name(op: ResourceOp) -> &'static str {
    match op {
        ResourceOp::New => "resource.new",
        ResourceOp::Drop => "resource.drop",
        ResourceOp::Rep => "resource.rep",
    }
}

/// The name of a built-in of a word of the task.
fn context_name(op: ContextOp) -> &'static str {
    match op {
        ContextOp::Get => "context.get",
        ContextOp::Set => "context.set",
    }
}

/// The name of a built-in that asks for an event.
fn wait_name(op: WaitOp) -> &'static str {
    match op {
        WaitOp::Wait => "waitable-set.wait",
        WaitOp::Poll => "waitable-set.poll",
    }
}

/// Writes a built-in that names nothing.
fn write_plain(text: &mut String, plain: PlainBuiltin) -> Result<(), AllocError> {
    match plain {
        PlainBuiltin::TaskCancel => text.push_str("task.cancel"),
        PlainBuiltin::BackpressureSet => text.push_str("backpressure.set"),
        PlainBuiltin::BackpressureInc => text.push_str("backpressure.inc"),
        PlainBuiltin::BackpressureDec => text.push_str("backpressure.dec"),
        PlainBuiltin::SubtaskCancel { is_async } => {
            text.push_str("subtask.cancel")?;
            write_flag(text, is_async, " async")
        }
        PlainBuiltin::SubtaskDrop => text.push_str("subtask.drop"),
        PlainBuiltin::Yield { cancellable } => {
            text.push_str("yield")?;
            write_flag(text, cancellable, " cancellable")
        }
        PlainBuiltin::WaitableSetNew => text.push_str("waitable-set.new"),
        PlainBuiltin::WaitableSetDrop => text.push_str("waitable-set.drop"),
        PlainBuiltin::WaitableJoin => text.push_str("waitable.join"),
    }
}

/// Writes what streams or futures are.
fn write_kind(text: &mut String, kind: EndKind) -> Result<(), AllocError> {
    match kind {
        EndKind::Stream => text.push_str("stream"),
        EndKind::Future => text.push_str("future"),
    }
}

/// The word of an end, of the readable one and of the writable one.
fn by_side(side: EndSide, readable: &'static str, writable: &'static str) -> &'static str {
    match side {
        EndSide::Readable => readable,
        EndSide::Writable => writable,
    }
}

/// Writes what is done with ends.
fn write_end_op(text: &mut String, op: &CanonEndOp) -> Result<(), AllocError> {
    match op {
        CanonEndOp::New => text.push_str(".new"),
        CanonEndOp::Copy { side, options } => {
            text.push_str(by_side(*side, ".read", ".write"))?;
            write_options(text, options.as_slice())
        }
        CanonEndOp::Cancel { side, is_async } => {
            text.push_str(by_side(*side, ".cancel-read", ".cancel-write"))?;
            write_flag(text, *is_async, " async")
        }
        CanonEndOp::Drop { side } => {
            text.push_str(by_side(*side, ".drop-readable", ".drop-writable"))
        }
    }
}

/// Writes a built-in of ends.
fn write_end(
    text: &mut String,
    kind: EndKind,
    end_type: u32,
    op: &CanonEndOp,
) -> Result<(), AllocError> {
    write_behind(text, "of type ", end_type)?;
    text.push_str(": ")?;
    write_kind(text, kind)?;
    write_end_op(text, op)
}

/// Writes a built-in.
fn write_builtin(text: &mut String, builtin: &CanonBuiltin) -> Result<(), AllocError> {
    match builtin {
        CanonBuiltin::Resource { op, resource } => {
            text.push_str(resource_name(*op))?;
            write_behind(text, " of type ", *resource)
        }
        CanonBuiltin::TaskReturn { result, options } => {
            text.push_str("task.return of ")?;
            write_held(text, *result)?;
            write_options(text, options.as_slice())
        }
        CanonBuiltin::Plain(plain) => write_plain(text, *plain),
        CanonBuiltin::Context { op, slot } => {
            text.push_str(context_name(*op))?;
            write_behind(text, " ", *slot)
        }
        CanonBuiltin::Wait {
            op,
            cancellable,
            memory,
        } => {
            text.push_str(wait_name(*op))?;
            write_behind(text, " into memory ", *memory)?;
            write_flag(text, *cancellable, " cancellable")
        }
        CanonBuiltin::End { kind, end_type, op } => write_end(text, *kind, *end_type, op),
    }
}

/// Writes a canonical function.
pub(crate) fn write_canon(text: &mut String, canon: &Canon) -> Result<(), AllocError> {
    match canon {
        Canon::Lift {
            core_func,
            options,
            func_type,
        } => {
            write_behind(text, "lift of core function ", *core_func)?;
            write_behind(text, " at type ", *func_type)?;
            write_options(text, options.as_slice())
        }
        Canon::Lower { func, options } => {
            write_behind(text, "lowered function ", *func)?;
            write_options(text, options.as_slice())
        }
        Canon::Builtin(builtin) => write_builtin(text, builtin),
    }
}
