//! Canonical built-ins.

ghost use Rattle.ca_base.specs.Grammar.{Reads, MayRead};
ghost use Rattle.part_reader.specs.Builtins.{resource_builtin, task_return, word_builtin, wait_builtin, copied, cancelled, done_with_end, end_builtin, plain_builtin, end_or_plain, builtin};

use crate::fault::{ComponentWhy, unsupported};
use crate::func_types::read_result;
use crate::options::{CanonOptions, read_flag};
use builtin_kinds::{ContextOp, EndKind, EndSide, PlainBuiltin, ResourceOp, WaitOp};
use ca_base::{ReadError, Refusal, Window, read_vec};
use comp_tree::{CanonBuiltin, CanonEndOp};
use std::alloc::Global;

/// Reads a `task.return` behind its first byte (Component Model, Binary.md, `canon`).
#[tactic(auto, unfolding(crate::specs::Builtins::task_return))]
fn read_task_return(
    alloc: Global,
    window: &mut Window<ComponentWhy>,
) -> Result<CanonBuiltin, ReadError<ComponentWhy>>
    ensures { MayRead (λ read. read) task_return window.old window.new result }
{
    let returned = read_result(window)?;
    let options = read_vec::<CanonOptions>(alloc, window)?;
    Ok(CanonBuiltin::TaskReturn {
        result: returned,
        options,
    })
}

/// Reads a built-in of a word of the task behind its first byte (Component Model, Binary.md, `canon`).
#[tactic(auto, unfolding(crate::specs::Builtins::word_builtin))]
fn read_word_builtin(
    op: ContextOp,
    window: &mut Window<ComponentWhy>,
) -> Result<CanonBuiltin, Refusal<ComponentWhy>>
    ensures { Reads (λ read. read) (word_builtin op) window.old window.new result }
{
    window.marker(0x7F)?;
    let slot = window.u32()?;
    Ok(CanonBuiltin::Context { op, slot })
}

/// Reads a built-in that asks for an event behind its first byte (Component Model, Binary.md, `canon`).
#[tactic(auto, unfolding(crate::specs::Builtins::wait_builtin))]
fn read_wait_builtin(
    op: WaitOp,
    window: &mut Window<ComponentWhy>,
) -> Result<CanonBuiltin, Refusal<ComponentWhy>>
    ensures { Reads (λ read. read) (wait_builtin op) window.old window.new result }
{
    let cancellable = read_flag(window)?;
    let memory = window.u32()?;
    Ok(CanonBuiltin::Wait {
        op,
        cancellable,
        memory,
    })
}

/// Reads a read or a write of an end behind the type of its streams or futures (Component Model, Binary.md, `canon`).
#[tactic(auto, unfolding(crate::specs::Builtins::copied))]
fn read_copied(
    alloc: Global,
    side: EndSide,
    window: &mut Window<ComponentWhy>,
) -> Result<CanonEndOp, ReadError<ComponentWhy>>
    ensures { MayRead (λ read. read) (copied side) window.old window.new result }
{
    let options = read_vec::<CanonOptions>(alloc, window)?;
    Ok(CanonEndOp::Copy { side, options })
}

/// Reads the cancellation of a read or a write, likewise (Component Model, Binary.md, `canon`).
#[tactic(auto, unfolding(crate::specs::Builtins::cancelled))]
fn read_cancelled(
    side: EndSide,
    window: &mut Window<ComponentWhy>,
) -> Result<CanonEndOp, ReadError<ComponentWhy>>
    ensures { MayRead (λ read. read) (cancelled side) window.old window.new result }
{
    let is_async = read_flag(window)?;
    Ok(CanonEndOp::Cancel { side, is_async })
}

/// Reads what is done with the ends of streams or futures, by its number (Component Model, Binary.md, `canon`).
#[tactic(auto, unfolding(crate::specs::Builtins::done_with_end))]
fn read_done_with_end(
    alloc: Global,
    number: u8,
    window: &mut Window<ComponentWhy>,
) -> Result<CanonEndOp, ReadError<ComponentWhy>>
    ensures { MayRead (λ read. read) (done_with_end number) window.old window.new result }
{
    match number {
        0 => Ok(CanonEndOp::New),
        1 => read_copied(alloc, EndSide::Readable, window),
        2 => read_copied(alloc, EndSide::Writable, window),
        3 => read_cancelled(EndSide::Readable, window),
        4 => read_cancelled(EndSide::Writable, window),
        5 => Ok(CanonEndOp::Drop {
            side: EndSide::Readable,
        }),
        _ => Ok(CanonEndOp::Drop {
            side: EndSide::Writable,
        }),
    }
}

/// Reads a built-in of ends behind its first byte, which has the number of what is done with them (Component Model, Binary.md,
/// `canon`).
#[tactic(auto, unfolding(crate::specs::Builtins::end_builtin))]
fn read_end_builtin(
    alloc: Global,
    kind: EndKind,
    number: u8,
    window: &mut Window<ComponentWhy>,
) -> Result<CanonBuiltin, ReadError<ComponentWhy>>
    ensures { MayRead (λ read. read) (end_builtin kind number) window.old window.new result }
{
    let end_type = window.u32()?;
    let op = read_done_with_end(alloc, number, window)?;
    Ok(CanonBuiltin::End { kind, end_type, op })
}

/// Reads the built-in that a byte at this place begins, of those that name nothing (Component Model, Binary.md, `canon`).
#[tactic(auto, unfolding(crate::specs::Builtins::plain_builtin))]
fn read_plain_builtin(
    place: usize,
    byte: u8,
    window: &mut Window<ComponentWhy>,
) -> Result<PlainBuiltin, Refusal<ComponentWhy>>
    ensures { Reads (λ read. read) (plain_builtin place byte) window.old window.new result }
{
    match byte {
        0x05 => Ok(PlainBuiltin::TaskCancel),
        0x06 => Ok(PlainBuiltin::SubtaskCancel {
            is_async: read_flag(window)?,
        }),
        0x08 => Ok(PlainBuiltin::BackpressureSet),
        0x0C => Ok(PlainBuiltin::Yield {
            cancellable: read_flag(window)?,
        }),
        0x0D => Ok(PlainBuiltin::SubtaskDrop),
        0x1F => Ok(PlainBuiltin::WaitableSetNew),
        0x22 => Ok(PlainBuiltin::WaitableSetDrop),
        0x23 => Ok(PlainBuiltin::WaitableJoin),
        0x24 => Ok(PlainBuiltin::BackpressureInc),
        0x25 => Ok(PlainBuiltin::BackpressureDec),
        _ => Err(unsupported(place, byte)),
    }
}

/// Reads the built-in that a byte at this place begins, of those of ends, or that name nothing (Component Model, Binary.md, `canon`).
#[tactic(auto, unfolding(crate::specs::Builtins::end_or_plain))]
fn read_end_or_plain(
    alloc: Global,
    place: usize,
    byte: u8,
    window: &mut Window<ComponentWhy>,
) -> Result<CanonBuiltin, ReadError<ComponentWhy>>
    ensures { MayRead (λ read. read) (end_or_plain place byte) window.old window.new result }
{
    if 0x0E <= byte && byte <= 0x14 {
        return read_end_builtin(alloc, EndKind::Stream, byte - 0x0E, window);
    }
    if 0x15 <= byte && byte <= 0x1B {
        return read_end_builtin(alloc, EndKind::Future, byte - 0x15, window);
    }
    let plain = read_plain_builtin(place, byte, window)?;
    Ok(CanonBuiltin::Plain(plain))
}

/// Reads a built-in of a resource behind its first byte (Component Model, Binary.md, `canon`).
#[tactic(auto, unfolding(crate::specs::Builtins::resource_builtin))]
fn read_resource_builtin(
    op: ResourceOp,
    window: &mut Window<ComponentWhy>,
) -> Result<CanonBuiltin, Refusal<ComponentWhy>>
    ensures { Reads (λ read. read) (resource_builtin op) window.old window.new result }
{
    let resource = window.u32()?;
    Ok(CanonBuiltin::Resource { op, resource })
}

/// Reads the built-in that a byte at this place begins (Component Model, Binary.md, `canon`).
///
/// Its refusals are those of `builtin` in `specs/Builtins`.
#[tactic(auto, unfolding(crate::specs::Builtins::builtin))]
pub(crate) fn read_builtin(
    alloc: Global,
    place: usize,
    byte: u8,
    window: &mut Window<ComponentWhy>,
) -> Result<CanonBuiltin, ReadError<ComponentWhy>>
    ensures { MayRead (λ read. read) (builtin place byte) window.old window.new result }
{
    match byte {
        0x02 => Ok(read_resource_builtin(ResourceOp::New, window)?),
        0x03 => Ok(read_resource_builtin(ResourceOp::Drop, window)?),
        0x04 => Ok(read_resource_builtin(ResourceOp::Rep, window)?),
        0x09 => read_task_return(alloc, window),
        0x0A => Ok(read_word_builtin(ContextOp::Get, window)?),
        0x0B => Ok(read_word_builtin(ContextOp::Set, window)?),
        0x20 => Ok(read_wait_builtin(WaitOp::Wait, window)?),
        0x21 => Ok(read_wait_builtin(WaitOp::Poll, window)?),
        _ => read_end_or_plain(alloc, place, byte, window),
    }
}
