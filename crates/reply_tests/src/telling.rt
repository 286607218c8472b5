//! Answers, lines and what stands in a world, as cases write them.

use builtin_kinds::EndKind;
use comp_graph::{CoreRef, FuncRef};
use copy_replies::{CopySide, Moving};
use instances::{EndEntry, WorldEntry};
use res_handles::{Handle, Ownership};
use std::alloc::{AllocError, Global};
use std::fmt::Write;
use stream_ends::{By, Side};
use tasks::{Cancellation, Phase, Resolution};
use trace_labels::Label;
use trace_show::label_text;
use world_parts::{Copying, Flow, Part, Parts, Rest, Stop, Turned};

/// Why nothing is answered.
fn stopped(why: Stop) -> &'static str {
    match why {
        Stop::Trap(name) => name.as_str(),
        Stop::NoFuel => "no-fuel",
        Stop::Stuck => "stuck",
        Stop::Memory => "memory",
    }
}

/// Writes a text, and a number behind it.
pub(crate) fn write_behind(text: &mut String, front: &str, number: u64) -> Result<(), AllocError> {
    text.push_str(front)?;
    write!(text, "{number}")
}

/// Writes a text, and a number of 32 bits behind it.
pub(crate) fn write_after(text: &mut String, front: &str, number: u32) -> Result<(), AllocError> {
    write_behind(text, front, u64::from(number))
}

/// Writes words, with a space before each.
fn write_words(text: &mut String, words: &[u64]) -> Result<(), AllocError> {
    for word in words {
        write_behind(text, " ", *word)?;
    }
    Ok(())
}

/// Writes numbers in parentheses.
pub(crate) fn write_numbers(text: &mut String, numbers: &[u32]) -> Result<(), AllocError> {
    text.push('(')?;
    for (place, number) in numbers.iter().enumerate() {
        if place > 0 {
            text.push_str(", ")?;
        }
        write_after(text, "", *number)?;
    }
    text.push(')')
}

/// Writes a core function, as the number of its instance and its index.
fn write_func(text: &mut String, func: FuncRef) -> Result<(), AllocError> {
    match func {
        FuncRef::Instance(CoreRef { instance, index }) => {
            write_after(text, "core ", instance)?;
            write_after(text, ".", index)
        }
        FuncRef::Canon(number) => write_after(text, "canon ", number),
    }
}

/// Writes what is to be done.
fn write_flow(text: &mut String, flow: &Flow) -> Result<(), AllocError> {
    match flow {
        Flow::Now(words) => {
            text.push_str("now")?;
            write_words(text, words.as_slice())
        }
        Flow::Rests => text.push_str("rests"),
        Flow::Starts(func, words) => {
            text.push_str("starts ")?;
            write_func(text, *func)?;
            write_words(text, words.as_slice())
        }
        Flow::Enters => text.push_str("enters"),
        Flow::Returns => text.push_str("returns"),
        Flow::Copies(Copying { count, .. }) => write_after(text, "copies ", *count),
        Flow::Delivers(_, set) => write_behind(text, "delivers of set ", *set),
        Flow::Polls(_, set) => write_behind(text, "polls set ", *set),
        Flow::HearsNone(_) => text.push_str("hears none"),
        Flow::HearsCancel(_) => text.push_str("hears cancel"),
    }
}

/// Writes what a part that goes on came to.
pub(crate) fn write_flowed(text: &mut String, came: Part<Flow>) -> Result<(), AllocError> {
    match came {
        Ok(flow) => write_flow(text, &flow),
        Err(why) => text.push_str(stopped(why)),
    }
}

/// Writes what a part without an answer came to.
pub(crate) fn write_done(text: &mut String, came: Part<()>) -> Result<(), AllocError> {
    match came {
        Ok(()) => text.push_str("ok"),
        Err(why) => text.push_str(stopped(why)),
    }
}

/// Writes what a turn came to.
pub(crate) fn write_turned(text: &mut String, came: Part<Turned>) -> Result<(), AllocError> {
    match came {
        Ok(Turned::Ends) => text.push_str("ends"),
        Ok(Turned::TakesItem) => text.push_str("item"),
        Ok(Turned::GoesOn) => text.push_str("goes"),
        Err(why) => text.push_str(stopped(why)),
    }
}

/// Writes a number, or why there is none.
pub(crate) fn write_came(text: &mut String, came: Part<u32>) -> Result<(), AllocError> {
    match came {
        Ok(number) => write_after(text, "", number),
        Err(why) => text.push_str(stopped(why)),
    }
}

/// Where a run is.
fn rest_name(rest: Rest) -> &'static str {
    match rest {
        Rest::Instantiates(_) => "instantiates",
        Rest::Free => "free",
        Rest::Arrives => "arrives",
        Rest::Goes => "goes",
        Rest::Resumes => "resumes",
        Rest::Back => "back",
        Rest::Runs => "runs",
        Rest::Calls(_) => "calls",
        Rest::Leaves => "leaves",
    }
}

/// Writes where a run is, and its running tasks.
pub(crate) fn write_rest(text: &mut String, parts: &Parts) -> Result<(), AllocError> {
    text.push_str(rest_name(parts.rest))?;
    for task in &parts.chain {
        write_after(text, " T", *task)?;
    }
    Ok(())
}

/// Writes a line behind a semicolon.
fn write_line(alloc: Global, text: &mut String, label: &Label) -> Result<(), AllocError> {
    let Ok(line) = label_text(alloc, label) else {
        return Err(AllocError);
    };
    text.push_str("; ")?;
    for byte in line.as_slice() {
        if *byte != b'\n' {
            text.push(char::from(*byte))?;
        }
    }
    Ok(())
}

/// Writes lines, each behind a semicolon.
pub(crate) fn write_lines(
    alloc: Global,
    text: &mut String,
    labels: &[Label],
) -> Result<(), AllocError> {
    for label in labels {
        write_line(alloc, text, label)?;
    }
    Ok(())
}

/// Writes a handle.
fn write_handle(text: &mut String, handle: Handle) -> Result<(), AllocError> {
    let Handle {
        resource,
        rep,
        lends,
        ownership,
    } = handle;
    match ownership {
        Ownership::Own => {
            write_after(text, "own R", resource)?;
            write_after(text, " ", rep)?;
        }
        Ownership::Borrow(task) => {
            write_after(text, "borrow R", resource)?;
            write_after(text, " ", rep)?;
            write_after(text, " T", task)?;
        }
    }
    write_behind(text, " ", lends)
}

/// Writes the indices of the members of a set.
fn write_set(
    alloc: Global,
    text: &mut String,
    parts: &Parts,
    at: usize,
    set: u64,
) -> Result<(), AllocError> {
    text.push_str("set ")?;
    let Some(instance) = parts.instances.get(at) else {
        return text.push_str("of no instance");
    };
    let Some(members) = instance.members(set) else {
        return text.push_str("of no number");
    };
    match members.list(alloc) {
        Ok(members) => write_numbers(text, members.as_slice()),
        Err(_) => Err(AllocError),
    }
}

/// How an end stands.
fn end_state(parts: &Parts, end: EndEntry) -> &'static str {
    match parts.channel_of(end) {
        None => "nowhere",
        Some(channel) => {
            if channel.is_copying(end.side) {
                "copying"
            } else if channel.is_done(end.side) {
                "done"
            } else {
                "idle"
            }
        }
    }
}

/// Writes an end, and whether its entry says so where it is idle.
fn write_end(text: &mut String, parts: &Parts, end: EndEntry) -> Result<(), AllocError> {
    let (kind, letter) = match parts.kind_of_end(end) {
        EndKind::Stream => ("stream-", " S"),
        EndKind::Future => ("future-", " F"),
    };
    let side = match end.side {
        Side::Reader => "readable",
        Side::Writer => "writable",
    };
    let state = end_state(parts, end);
    text.push_str(kind)?;
    text.push_str(side)?;
    write_after(text, letter, end.number)?;
    text.push(' ')?;
    text.push_str(state)?;
    if end.is_idle != (state == "idle") {
        text.push_str(" unlike its entry")?;
    }
    Ok(())
}

/// Writes an entry, if there is one.
fn write_there(
    alloc: Global,
    text: &mut String,
    parts: &Parts,
    at: usize,
    entry: Option<WorldEntry>,
) -> Result<(), AllocError> {
    match entry {
        None => text.push_str("none"),
        Some(WorldEntry::Handle(handle)) => write_handle(text, handle),
        Some(WorldEntry::Subtask(callee)) => {
            write_after(text, "subtask T", callee)?;
            text.push(' ')?;
            write_came(text, parts.payload(callee))
        }
        Some(WorldEntry::Set(set)) => write_set(alloc, text, parts, at, set),
        Some(WorldEntry::End(end)) => write_end(text, parts, end),
    }
}

/// Writes what stands at an index of an instance.
pub(crate) fn write_entry(
    alloc: Global,
    text: &mut String,
    parts: &Parts,
    at: usize,
    index: u32,
) -> Result<(), AllocError> {
    match parts.entry(at, index) {
        Ok(entry) => write_there(alloc, text, parts, at, entry),
        Err(why) => text.push_str(stopped(why)),
    }
}

/// How far a task is.
fn phase_name(phase: Phase) -> &'static str {
    match phase {
        Phase::New => "new",
        Phase::Acting => "acting",
        Phase::Blocked(_, _) => "blocked",
        Phase::Exited => "exited",
    }
}

/// How a task is resolved.
fn resolution_name(resolution: Option<Resolution>) -> &'static str {
    match resolution {
        None => "open",
        Some(Resolution::Returned) => "returned",
        Some(Resolution::Cancelled) => "cancelled",
    }
}

/// How far its cancellation is.
fn cancellation_name(cancellation: Cancellation) -> &'static str {
    match cancellation {
        Cancellation::NotAsked => "unasked",
        Cancellation::Asked => "asked",
        Cancellation::Delivered => "told",
    }
}

/// Writes how far a task is, how it is resolved, how far its cancellation is, and how many borrow handles it has.
pub(crate) fn write_task(text: &mut String, parts: &Parts, task: u32) -> Result<(), AllocError> {
    let Some(slot) = parts.tasks.slot(task) else {
        return text.push_str("none");
    };
    text.push_str(phase_name(slot.task.phase()))?;
    text.push(' ')?;
    text.push_str(resolution_name(slot.task.resolution()))?;
    text.push(' ')?;
    text.push_str(cancellation_name(slot.task.cancellation()))?;
    write_behind(text, " ", slot.task.borrows())
}

/// Writes the offer that stands at a stream or a future: its side, its task, its place, and how many of its elements are copied.
pub(crate) fn write_offer(
    text: &mut String,
    parts: &Parts,
    kind: EndKind,
    number: u32,
) -> Result<(), AllocError> {
    let Some(channel) = parts.channel(kind, number) else {
        return text.push_str("no channel");
    };
    let Some(offer) = channel.standing() else {
        return text.push_str("none");
    };
    let By::Task(task) = offer.by;
    let side = match offer.side {
        Side::Reader => "read T",
        Side::Writer => "write T",
    };
    write_after(text, side, task)?;
    write_after(text, " at ", offer.place)?;
    write_after(text, ": ", offer.copied)?;
    write_after(text, " of ", offer.length)
}

/// Writes one side of what goes over.
fn write_side(text: &mut String, side: CopySide) -> Result<(), AllocError> {
    write_after(text, "T", side.task)?;
    write_behind(text, " in I", side.instance.saturating_add(1) as u64)?;
    match side.memory {
        Some(address) => {
            write_behind(text, " memory ", address as u64)?;
            write_after(text, " at ", side.place)
        }
        None => Ok(()),
    }
}

/// Writes what goes over.
pub(crate) fn write_moving(text: &mut String, moving: Part<Moving>) -> Result<(), AllocError> {
    let moving = match moving {
        Ok(moving) => moving,
        Err(why) => return text.push_str(stopped(why)),
    };
    let letter = match moving.kind {
        EndKind::Stream => "S",
        EndKind::Future => "F",
    };
    write_after(text, letter, moving.number)?;
    write_after(text, " ", moving.count)?;
    text.push_str(" from ")?;
    write_side(text, moving.writer)?;
    text.push_str(" to ")?;
    write_side(text, moving.reader)
}
