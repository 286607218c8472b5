//! A trace over a sink.

ghost use Rattle.std.specs.Prelude.{◌≡◌, ℕ, ◌+◌, ◌-◌, ◌*◌, ◌++◌, ◌<◌, ◌≤◌, [], length, take, IfOk, OnOk, OnErr, IsErrOf};
ghost use Rattle.ca_io.specs.Bytes.{grown, TookFront};
ghost use Rattle.ca_io.specs.Causes.{HasCause};
ghost use Rattle.trace_show.specs.LabelText.{label_text};
ghost use Rattle.trace_show.specs.Tally.{tally_of, with_line, nothing, without_feed};
ghost use Rattle.trace_show.specs.Trace.{put_so_far, HasPutCause};

use crate::lines::push_label;
use crate::tally::{with_count, with_sum};
use ca_io::{Failed, Sink, write_all};
use faults::{Memory, MemoryOr};
use std::alloc::Global;
use trace_labels::Label;

/// How many bytes a trace writes at a time, and each time so many are kept back.
pub const ROOM: usize = 4_096;

/// Writes bytes to a sink, `ROOM` of them a write, while so many are left, and answers how many it wrote.
///
/// `Failed` comes where a write to the sink fails: it has then taken some front of the bytes, and nothing after it.
#[tactic(auto, using(crate::proofs::Puts::room_more, crate::proofs::Puts::rooms_more))]
fn write_rooms<K: Sink>(sink: &mut K, bytes: &[u8]) -> Result<usize, Failed>
    ensures within { IfOk result (λ done. done ≤ length bytes.now) }
    ensures rooms { IfOk result (λ done. (rooms : ℕ) × (done ≡ rooms * ROOM)) }
    ensures left { IfOk result (λ done. length bytes.now - done < ROOM) }
    ensures ok { IfOk result (λ done. K.taken sink.new ≡ grown (K.taken sink.old) (take done bytes.now)) }
    ensures failed { OnErr result (TookFront (K.taken sink.old) (K.taken sink.new) bytes.now) }
    ensures cause { HasCause (K.faults sink.old) (K.faults sink.new) result }
{
    let mut done = 0;
    while bytes.len() - done >= ROOM {
        write_all(sink, &bytes[done..done + ROOM])?;
        done += ROOM;
    }
    Ok(done)
}

/// Writes a label's line in place of one text and behind another.
///
/// `Memory` comes where memory runs out.
fn push_line(
    alloc: Global,
    label: &Label,
    line: &mut Vec<u8>,
    text: &mut Vec<u8>,
) -> Result<(), Memory>
    ensures line { OnOk result (line.new.items ≡ label_text label.now) }
    ensures text { OnOk result (text.new.items ≡ text.old.items ++ label_text label.now) }
{
    line.clear();
    push_label(alloc, label, line)?;
    text.extend_from_slice(line.as_slice())?;
    Ok(())
}

/// A trace that goes to a sink line by line. It keeps lines back in a buffer and writes each time they fill `ROOM` bytes,
/// so that a long trace goes out as the run goes. Besides it counts what the lines tell of copies, and keeps the last line in
/// a second buffer. The buffers are its caller's: a trace owns no memory, so the caller knows what its sink took once the
/// trace is gone.
///
/// What the sink took and what is kept back are together the text put so far. After a call that failed or found no memory
/// a trace can only be dropped.
#[derive(Drop)]
pub struct Trace<'a, K: Sink> {
    sink: &'a mut K,
    kept: &'a mut Vec<u8>,
    last: &'a mut Vec<u8>,
    elements: u64,
    sum: u64,
}

impl<'a, K: Sink> Trace<'a, K> {
    /// A trace to which nothing was put, over a sink, a buffer for what it keeps back and one for the last line, which it
    /// empties. It takes no memory.
    pub fn new(sink: &'a mut K, kept: &'a mut Vec<u8>, last: &'a mut Vec<u8>) -> Trace<'a, K>
        ensures same_sink { result.sink.ghost_name ≡ sink.entry.ghost_name }
        ensures untouched { result.sink.now ≡ sink.old }
        ensures empty { result.kept.now.items ≡ [] }
        ensures tally { tally_of result.elements result.sum result.last.now.items ≡ nothing }
    {
        kept.clear();
        last.clear();
        Trace {
            sink,
            kept,
            last,
            elements: 0,
            sum: 0,
        }
    }

    /// How many elements the copies moved whose lines were put so far, modulo 2^64.
    pub fn elements(&self) -> u64
        ensures { result ≡ self.now.elements }
    {
        self.elements
    }

    /// The sum of those of these elements that are unsigned 32-bit integers, modulo 2^64.
    pub fn sum(&self) -> u64
        ensures { result ≡ self.now.sum }
    {
        self.sum
    }

    /// The last line that was put, without its line feed. It is empty where none was.
    pub fn last(&self) -> &[u8]
        ensures { result.now ≡ without_feed self.now.last.now.items }
    {
        &self.last[..self.last.len().saturating_sub(1)]
    }

    /// Puts a label's line behind the text put so far, and writes while a whole room is kept back. So after an `Ok` the
    /// sink took all of the text put so far but its last bytes, fewer than `ROOM` of them, and took whole rooms in this
    /// call.
    ///
    /// - `Fault` comes where a write to the sink fails: it has then taken some front of the text put so far, this line
    ///   included, and nothing after it.
    /// - `Memory` comes where memory runs out, and then the sink took nothing in this call.
    pub fn put(&mut self, alloc: Global, label: &Label) -> Result<(), MemoryOr<Failed>>
        ensures same_sink { self.new.sink.ghost_name ≡ self.old.sink.ghost_name }
        ensures ok { OnOk result (put_so_far (K.taken self.new.sink.now) self.new.kept.now.items ≡ grown (put_so_far (K.taken self.old.sink.now) self.old.kept.now.items) (label_text label.now)) }
        ensures bound { OnOk result (length self.new.kept.now.items < ROOM) }
        ensures rooms { OnOk result ((rooms : ℕ) × (length self.new.kept.now.items + rooms * ROOM ≡ length self.old.kept.now.items + length (label_text label.now))) }
        ensures failed { OnErr result (TookFront (K.taken self.old.sink.now) (K.taken self.new.sink.now) (self.old.kept.now.items ++ label_text label.now)) }
        ensures memory { IsErrOf result MemoryOr.Memory → self.new.sink.now ≡ self.old.sink.now }
        ensures cause { HasPutCause (K.faults self.old.sink.now) (K.faults self.new.sink.now) result }
        ensures tally { OnOk result (tally_of self.new.elements self.new.sum self.new.last.now.items ≡ with_line (tally_of self.old.elements self.old.sum self.old.last.now.items) label.now) }
    {
        push_line(alloc, label, self.last, self.kept)?;
        self.elements = with_count(self.elements, label);
        self.sum = with_sum(self.sum, label);
        match write_rooms(self.sink, self.kept.as_slice()) {
            Ok(done) => {
                self.kept.drain(..done);
                Ok(())
            }
            Err(failed) => Err(MemoryOr::Fault(failed)),
        }
    }

    /// Writes all that is kept back to the sink.
    ///
    /// `Failed` comes where a write to the sink fails: it has then taken some front of the text put so far, and nothing
    /// after it.
    pub fn flush(&mut self) -> Result<(), Failed>
        ensures same_sink { self.new.sink.ghost_name ≡ self.old.sink.ghost_name }
        ensures ok { OnOk result (K.taken self.new.sink.now ≡ put_so_far (K.taken self.old.sink.now) self.old.kept.now.items) }
        ensures empty { OnOk result (self.new.kept.now.items ≡ []) }
        ensures failed { OnErr result (TookFront (K.taken self.old.sink.now) (K.taken self.new.sink.now) self.old.kept.now.items) }
        ensures cause { HasCause (K.faults self.old.sink.now) (K.faults self.new.sink.now) result }
        ensures tally { tally_of self.new.elements self.new.sum self.new.last.now.items ≡ tally_of self.old.elements self.old.sum self.old.last.now.items }
    {
        write_all(self.sink, self.kept.as_slice())?;
        self.kept.clear();
        Ok(())
    }
}
