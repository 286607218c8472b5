//! Traces that go to a sink.

ghost use Rattle.std.specs.Prelude.{◌≡◌, OnOk};
ghost use Rattle.ca_io.specs.Bytes.{grown};
ghost use Rattle.trace_show.specs.LabelText.{label_text};

use crate::values::of_one_type;
use ca_io::{Failed, MemSink, NullSink, Sink};
use cases::Answers;
use faults::{Memory, MemoryOr};
use std::alloc::{AllocError, Global};
use std::str::from_utf8;
use std::test::Fail;
use syntax_trees::Seq;
use trace_labels::{Channel, Copied, Label};
use trace_show::{ROOM, Trace};

/// Writes a label's line to a sink. That the sink took it all, and nothing else, follows from the clauses of a trace.
fn write_label<K: Sink>(alloc: Global, label: &Label, sink: &mut K) -> Result<(), MemoryOr<Failed>>
    ensures { OnOk result (K.taken sink.new ≡ grown (K.taken sink.old) (label_text label.now)) }
{
    let mut kept = Vec::new(alloc);
    let mut last = Vec::new(alloc);
    let mut trace = Trace::new(sink, &mut kept, &mut last);
    trace.put(alloc, label)?;
    match trace.flush() {
        Ok(()) => Ok(()),
        Err(failed) => Err(MemoryOr::Fault(failed)),
    }
}

/// A sink with so much room, of which a write takes so much, and one fails.
fn sink_of(alloc: Global, room: usize, most: usize, failing: u64) -> Result<MemSink, Fail> {
    Ok(MemSink::new(alloc, room, most.max(1), &[failing])?)
}

/// Puts a label's line to a trace.
fn put<K: Sink>(
    alloc: Global,
    trace: &mut Trace<'_, K>,
    label: &Label,
) -> Result<(), MemoryOr<Failed>> {
    trace.put(alloc, label)
}

/// Flushes a trace.
fn flush<K: Sink>(trace: &mut Trace<'_, K>) -> Result<(), MemoryOr<Failed>> {
    match trace.flush() {
        Ok(()) => Ok(()),
        Err(failed) => Err(MemoryOr::Fault(failed)),
    }
}

/// Puts the lines of a task that enters and exits, and of the end, and flushes the trace.
fn run_to<K: Sink>(alloc: Global, trace: &mut Trace<'_, K>) -> Result<(), MemoryOr<Failed>> {
    put(alloc, trace, &Label::Enter { task: 1 })?;
    put(alloc, trace, &Label::Exit { task: 1 })?;
    put(alloc, trace, &Label::Done)?;
    flush(trace)
}

/// Writes a run, or the line of the end for want of fuel.
fn write_to<K: Sink>(alloc: Global, what: &str, sink: &mut K) -> Result<(), MemoryOr<Failed>> {
    if what == "fuel" {
        return write_label(alloc, &Label::Fuel, sink);
    }
    let mut kept = Vec::new(alloc);
    let mut last = Vec::new(alloc);
    run_to(alloc, &mut Trace::new(sink, &mut kept, &mut last))
}

/// How calls end, and what a sink took, with semicolons in place of line feeds.
fn taken_told(
    alloc: Global,
    outcome: Result<(), MemoryOr<Failed>>,
    taken: &[u8],
) -> Result<String, Fail> {
    let taken = from_utf8(taken)?.replace(alloc, "\n", ";")?;
    let between = if taken.is_empty() { "" } else { " " };
    Ok(format!(in alloc; "{outcome:?}{between}{taken}")?)
}

/// How the writing to a sink ends.
fn told(alloc: Global, what: &str, mut sink: MemSink) -> Result<String, Fail> {
    let outcome = write_to(alloc, what, &mut sink);
    taken_told(alloc, outcome, sink.taken())
}

/// Sinks to which traces go.
pub struct SinksTold;

impl Answers for SinksTold {
    fn answer(alloc: Global, given: &str) -> Result<String, Fail> {
        let (what, rest) = given.split_once(' ').ok_or("no bytes of a write")?;
        let (most, failing) = rest.split_once(' ').ok_or("no number of a write")?;
        let sink = sink_of(alloc, 100, most.parse()?, failing.parse()?)?;
        told(alloc, what, sink)
    }
}

/// The label of a deadlock of so many tasks. Its line has 9 bytes, and 3 more for each task.
fn deadlock_of(alloc: Global, tasks: u32) -> Result<Label, Memory> {
    let mut stuck = Seq::new(alloc);
    for _ in 0..tasks {
        stuck.push(1)?;
    }
    Ok(Label::Deadlock { tasks: stuck })
}

/// Puts a line so many times, or as often as it goes before the first put that fails, and answers how often that is and how the
/// last put ends.
fn put_often<K: Sink>(
    alloc: Global,
    trace: &mut Trace<'_, K>,
    label: &Label,
    times: u32,
) -> (u32, Result<(), MemoryOr<Failed>>) {
    for before in 0..times {
        let last = put(alloc, trace, label);
        if last.is_err() {
            return (before, last);
        }
    }
    (times, Ok(()))
}

/// How many lines were put, how the last put ended, and what was taken.
fn counts_told(
    alloc: Global,
    put: u32,
    last: Result<(), MemoryOr<Failed>>,
    taken: usize,
) -> Result<String, AllocError> {
    let room = ROOM;
    format!(in alloc; "room {room}, {put} put, {last:?}, {taken} taken")
}

/// How the putting of a line to a sink, so many times, ends.
fn puts_told(alloc: Global, label: &Label, times: u32, mut sink: MemSink) -> Result<String, Fail> {
    let mut kept = Vec::new(alloc);
    let mut line = Vec::new(alloc);
    let mut trace = Trace::new(&mut sink, &mut kept, &mut line);
    let (put, last) = put_often(alloc, &mut trace, label, times);
    Ok(counts_told(alloc, put, last, sink.taken().len())?)
}

/// How long traces go out: how many lines are put, the tasks of each, and the number of the write that fails.
pub fn put_answer(alloc: Global, given: &str) -> Result<String, Fail> {
    let (times, rest) = given.split_once(' ').ok_or("no tasks of a line")?;
    let (tasks, failing) = rest.split_once(' ').ok_or("no number of a write")?;
    let label = deadlock_of(alloc, tasks.parse()?)?;
    let sink = sink_of(alloc, 200_000, 200_000, failing.parse()?)?;
    puts_told(alloc, &label, times.parse()?, sink)
}

/// The label of elements that are copied from stream 1.
fn copied(copied: Copied) -> Label {
    let channel = Channel::Stream(1);
    Label::Copy { channel, copied }
}

/// The label of a text: elements that hold nothing, with how many; a deadlock, with of how many tasks; the end; or elements of
/// one type.
fn label_in(alloc: Global, text: &str) -> Result<Label, Fail> {
    match text.split_once(' ') {
        Some(("units", count)) => Ok(copied(Copied::Units(count.parse()?))),
        Some(("deadlock", tasks)) => Ok(deadlock_of(alloc, tasks.parse()?)?),
        Some(_) => Ok(copied(Copied::Values(of_one_type(alloc, text)?))),
        None => Ok(Label::Done),
    }
}

/// Puts the labels of a text, with a plus between them.
fn put_each(alloc: Global, trace: &mut Trace<'_, NullSink>, text: &str) -> Result<(), Fail> {
    for part in text.split(" + ") {
        let label = label_in(alloc, part)?;
        if put(alloc, trace, &label).is_err() {
            return Err(Fail::new("a line was not put"));
        }
    }
    Ok(())
}

/// What a trace tells that counted lines.
fn counts_of(alloc: Global, trace: &Trace<'_, NullSink>) -> Result<String, Fail> {
    let (elements, sum) = (trace.elements(), trace.sum());
    let last = from_utf8(trace.last())?;
    Ok(format!(in alloc; "{elements} elements, sum {sum}, last {last}")?)
}

/// What a trace tells of the labels of a text, when all was written.
pub fn tally_answer(alloc: Global, given: &str) -> Result<String, Fail> {
    let (mut kept, mut last) = (Vec::new(alloc), Vec::new(alloc));
    let mut sink = NullSink;
    let mut trace = Trace::new(&mut sink, &mut kept, &mut last);
    put_each(alloc, &mut trace, given)?;
    if flush(&mut trace).is_err() {
        return Err(Fail::new("a trace was not written"));
    }
    counts_of(alloc, &trace)
}
