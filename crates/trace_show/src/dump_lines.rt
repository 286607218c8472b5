//! The text of a dump.

ghost use Rattle.std.specs.Prelude.{◌≡◌, ◌++◌, ◌*◌, ◌≤◌, ◌==◌, OnOk, IfOk, map, length, take};
ghost use Rattle.std.specs.List.{list_all};
ghost use Rattle.hex.specs.Hex.{encode_lower};
ghost use Rattle.trace_labels.specs.declared.dump.Entry.TheVariants.{Own, Borrow, Subtask, End};
ghost use Rattle.trace_show.specs.LabelText.{listed};
ghost use Rattle.std.specs.Fmt.{decimal};
ghost use Rattle.trace_show.specs.EntryText.{end_text, entry_text};
ghost use Rattle.trace_show.specs.DumpText.{numbered, instance_lines, memory_lines, row_text, row_of, rows_text, dump_text};

use crate::lines::push_str;
use faults::Memory;
use std::alloc::Global;
use syntax_trees::{Bytes, Seq};
use trace_labels::{Channel, Dump, EndState, Entry, LiveEntry, Side};
use value_texts::{Text, push_all, push_separated};

/// The bytes of a page of memory.
const PAGE: usize = 65_536;

/// The bytes of a row.
const ROW: usize = 32;

/// The indices of a set's members.
struct Members;

impl Text for Members {
    ghost use Rattle.std.specs.Fmt.{decimal};

    type Item = u32;

    ghost text = { decimal };

    fn push(alloc: Global, item: &u32, to: &mut Vec<u8>) -> Result<(), Memory> {
        let digits = item.to_string(alloc)?;
        push_str(digits.as_str(), to)
    }
}

/// Entries, a line for each.
struct Entries;

impl Text for Entries {
    ghost use Rattle.trace_show.specs.EntryText.{live_entry_text};

    type Item = LiveEntry;

    ghost text = { live_entry_text };

    fn push(alloc: Global, item: &LiveEntry, to: &mut Vec<u8>) -> Result<(), Memory> {
        let index = item.index;
        let text = format!(in alloc; "entry {index} ")?;
        push_str(text.as_str(), to)?;
        push_entry(alloc, &item.entry, to)?;
        to.push(b'\n')?;
        Ok(())
    }
}

/// Which end of what.
fn end_text(channel: Channel, side: Side) -> &'static str
    ensures { result.now ≡ end_text channel side }
{
    match (channel, side) {
        (Channel::Stream(_), Side::Readable) => "stream-readable",
        (Channel::Stream(_), Side::Writable) => "stream-writable",
        (Channel::Future(_), Side::Readable) => "future-readable",
        (Channel::Future(_), Side::Writable) => "future-writable",
    }
}

/// Appends the members of a set in parentheses.
fn push_members(alloc: Global, members: &[u32], to: &mut Vec<u8>) -> Result<(), Memory>
    ensures { OnOk result (to.new.items ≡ to.old.items ++ listed decimal members.now) }
{
    to.push(b'(')?;
    push_separated::<Members>(alloc, b", ", members, to)?;
    to.push(b')')?;
    Ok(())
}

/// Appends an owning handle.
fn push_own(
    alloc: Global,
    resource: u32,
    rep: u32,
    lends: u64,
    to: &mut Vec<u8>,
) -> Result<(), Memory>
    ensures { OnOk result (to.new.items ≡ to.old.items ++ entry_text (Own resource rep lends)) }
{
    let text = format!(in alloc; "own R{resource} {rep} {lends}")?;
    push_str(text.as_str(), to)?;
    Ok(())
}

/// Appends a borrowing handle.
fn push_borrow(
    alloc: Global,
    resource: u32,
    rep: u32,
    task: u32,
    lends: u64,
    to: &mut Vec<u8>,
) -> Result<(), Memory>
    ensures { OnOk result (to.new.items ≡ to.old.items ++ entry_text (Borrow resource rep task lends)) }
{
    let text = format!(in alloc; "borrow R{resource} {rep} T{task} {lends}")?;
    push_str(text.as_str(), to)?;
    Ok(())
}

/// Appends a subtask.
fn push_subtask(alloc: Global, task: u32, state: u32, to: &mut Vec<u8>) -> Result<(), Memory>
    ensures { OnOk result (to.new.items ≡ to.old.items ++ entry_text (Subtask task state)) }
{
    let text = format!(in alloc; "subtask T{task} {state}")?;
    push_str(text.as_str(), to)?;
    Ok(())
}

/// Appends an end.
fn push_end(
    alloc: Global,
    channel: Channel,
    side: Side,
    state: EndState,
    to: &mut Vec<u8>,
) -> Result<(), Memory>
    ensures { OnOk result (to.new.items ≡ to.old.items ++ entry_text (End channel side state)) }
{
    let end = end_text(channel, side);
    let text = format!(in alloc; "{end} {channel} {state}")?;
    push_str(text.as_str(), to)?;
    Ok(())
}

/// Appends an entry.
fn push_entry(alloc: Global, entry: &Entry, to: &mut Vec<u8>) -> Result<(), Memory>
    ensures { OnOk result (to.new.items ≡ to.old.items ++ entry_text entry.now) }
{
    match entry {
        Entry::Own {
            resource,
            rep,
            lends,
        } => push_own(alloc, *resource, *rep, *lends, to),
        Entry::Borrow {
            resource,
            rep,
            task,
            lends,
        } => push_borrow(alloc, *resource, *rep, *task, *lends, to),
        Entry::Subtask { task, state } => push_subtask(alloc, *task, *state, to),
        Entry::Set { members } => {
            push_str("set ", to)?;
            push_members(alloc, members.as_slice(), to)?;
            Ok(())
        }
        Entry::End {
            channel,
            side,
            state,
        } => push_end(alloc, *channel, *side, *state, to),
    }
}

/// Appends an instance with its entries.
fn push_instance(
    alloc: Global,
    number: usize,
    entries: &[LiveEntry],
    to: &mut Vec<u8>,
) -> Result<(), Memory>
    ensures { OnOk result (to.new.items ≡ to.old.items ++ instance_lines number entries.now) }
{
    let text = format!(in alloc; "instance I{number}\n")?;
    push_str(text.as_str(), to)?;
    push_all::<Entries>(alloc, entries, to)?;
    Ok(())
}

/// Appends bytes in hexadecimal digits.
fn push_hex(alloc: Global, bytes: &[u8], to: &mut Vec<u8>) -> Result<(), Memory>
    ensures { OnOk result (to.new.items ≡ to.old.items ++ encode_lower bytes.now) }
{
    let digits = hex::encode(alloc, bytes)?;
    push_str(digits.as_str(), to)?;
    Ok(())
}

/// Whether all bytes are 0.
fn is_blank(row: &[u8]) -> bool
    ensures { result ≡ list_all (λ b. b == 0) row.now }
{
    row.iter().all(|byte| *byte == 0)
}

/// Appends the row of the bytes at an address, or nothing where all are 0.
fn push_row(alloc: Global, at: usize, row: &[u8], to: &mut Vec<u8>) -> Result<(), Memory>
    ensures { OnOk result (to.new.items ≡ to.old.items ++ row_text at row.now) }
{
    if is_blank(row) {
        return Ok(());
    }
    let address = (at % (1 << 32)) as u32;
    push_hex(alloc, &address.to_be_bytes(), to)?;
    to.push(b' ')?;
    push_hex(alloc, row, to)?;
    to.push(b'\n')?;
    Ok(())
}

/// The first row of bytes, of as many as there are.
fn first_row(bytes: &[u8]) -> &[u8]
    ensures { result.now ≡ take 32 bytes.now }
{
    &bytes[..ROW.min(bytes.len())]
}

/// Appends the row of a memory with this number.
fn push_row_of(alloc: Global, memory: &[u8], row: usize, to: &mut Vec<u8>) -> Result<(), Memory>
    requires { 32 * row ≤ length memory.now }
    ensures { OnOk result (to.new.items ≡ to.old.items ++ row_of memory.now row) }
{
    let at = ROW * row;
    push_row(alloc, at, first_row(&memory[at..]), to)?;
    Ok(())
}

/// Appends the rows of a memory.
#[tactic(auto, using(crate::proofs::Rows::row_more))]
fn push_rows(alloc: Global, memory: &[u8], to: &mut Vec<u8>) -> Result<(), Memory>
    ensures { OnOk result (to.new.items ≡ to.old.items ++ rows_text memory.now) }
{
    for row in 0..memory.len().div_ceil(ROW) {
        push_row_of(alloc, memory, row, to)?;
    }
    Ok(())
}

/// Appends a memory with its rows.
fn push_memory(alloc: Global, number: usize, memory: &[u8], to: &mut Vec<u8>) -> Result<(), Memory>
    ensures { OnOk result (to.new.items ≡ to.old.items ++ memory_lines number memory.now) }
{
    let pages = memory.len() / PAGE;
    let text = format!(in alloc; "memory M{number} {pages}\n")?;
    push_str(text.as_str(), to)?;
    push_rows(alloc, memory, to)?;
    Ok(())
}

/// Appends instances, numbered from 1 on.
fn push_instances(
    alloc: Global,
    instances: &[Seq<LiveEntry>],
    to: &mut Vec<u8>,
) -> Result<(), Memory>
    ensures { OnOk result (to.new.items ≡ to.old.items ++ numbered instance_lines 1 instances.now) }
{
    for (before, entries) in instances.iter().enumerate() {
        push_instance(alloc, before + 1, entries.as_slice(), to)?;
    }
    Ok(())
}

/// Appends memories, numbered from 1 on.
fn push_memories(alloc: Global, memories: &[&[u8]], to: &mut Vec<u8>) -> Result<(), Memory>
    ensures { OnOk result (to.new.items ≡ to.old.items ++ numbered memory_lines 1 (map (λ m. m.now) memories.now)) }
{
    for (before, memory) in memories.iter().enumerate() {
        push_memory(alloc, before + 1, memory, to)?;
    }
    Ok(())
}

/// Appends a dump. It fails for want of memory alone.
pub(crate) fn push_dump(alloc: Global, dump: &Dump, to: &mut Vec<u8>) -> Result<(), Memory>
    ensures { OnOk result (to.new.items ≡ to.old.items ++ dump_text dump.now.instances (map (λ m. m.now) dump.now.memories)) }
{
    push_instances(alloc, dump.instances.as_slice(), to)?;
    push_memories(alloc, dump.memories.as_slice(), to)?;
    Ok(())
}

/// The text of a dump. It fails for want of memory alone.
pub fn dump_text(alloc: Global, dump: &Dump) -> Result<Bytes, Memory>
    ensures { IfOk result (λ text. text ≡ dump_text dump.now.instances (map (λ m. m.now) dump.now.memories)) }
{
    let mut text = Vec::new(alloc);
    push_dump(alloc, dump, &mut text)?;
    Ok(Seq::from_vec(text))
}
