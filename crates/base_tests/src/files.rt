//! Files that are read whole, and parts that are written.

use crate::texts::{byte, number, split, text_of, write_value};
use ca_io::{Failed, Files, MemFiles, MemSink, Sink, read_all, write_all};
use cases::{Acts, Answers, acted, check_lines};
use faults::Memory;
use std::alloc::{AllocError, Global};
use std::fmt::Write;
use std::test::Fail;

/// The bytes of the long file, of which one read asks for the first 4,096 at most.
const LONG: usize = 5000;

/// A line a reading: the file, the limit in bytes, the number of the read that fails (0: none does), and how it ends. The
/// file `short` has 5 bytes, which were written over others, and the file `long` has 5,000.
const READINGS: &str = "
short 5 0 | its 5 bytes
short 4 0 | Limit
long 5000 0 | its 5000 bytes
long 4999 0 | Limit
none 5 0 | Fault
long 18446744073709551615 1 | Fault
long 18446744073709551615 2 | Fault
long 18446744073709551615 3 | Fault
long 18446744073709551615 4 | its 5000 bytes
long 4095 2 | Limit
long 4999 3 | Limit
long 4999 2 | Fault
long 0 1 | Fault
";

/// Adds the long file.
fn add_long(alloc: Global, files: &mut MemFiles) -> Result<(), Memory> {
    let long = vec![in alloc; b'7'; LONG]?;
    files.add(alloc, "long", &long)
}

/// Adds the files.
fn add_files(alloc: Global, files: &mut MemFiles) -> Result<(), Memory> {
    files.add(alloc, "short", b"early")?;
    add_long(alloc, files)?;
    files.add(alloc, "short", b"later")
}

/// The files, of which one read fails.
fn files_of(alloc: Global, failing: u64) -> Result<MemFiles, Memory> {
    let mut files = MemFiles::new(alloc, &[failing])?;
    add_files(alloc, &mut files)?;
    Ok(files)
}

/// Whether a text is that of the file.
fn is_of(name: &str, text: &str) -> bool {
    if name == "short" {
        text == "later"
    } else {
        text.trim_matches('7').is_empty()
    }
}

/// Writes how many bytes were read, and whether they are those of the file.
fn write_found(text: &mut String, name: &str, found: &[u8]) -> Result<(), AllocError> {
    let count = found.len();
    let whose = if is_of(name, text_of(found)) {
        "its"
    } else {
        "other"
    };
    write!(text, "{whose} {count} bytes")
}

/// Writes how the reading of a file ends.
fn write_reading<F: Files>(
    alloc: Global,
    text: &mut String,
    files: &mut F,
    name: &str,
    limit: u64,
) -> Result<(), AllocError> {
    match read_all(alloc, files, name, limit) {
        Ok(found) => write_found(text, name, found.as_slice()),
        Err(error) => write_value(text, error),
    }
}

/// How the reading of a file ends.
fn reading_text(
    alloc: Global,
    mut files: MemFiles,
    name: &str,
    limit: u64,
) -> Result<String, Fail> {
    let mut text = String::new(alloc);
    write_reading(alloc, &mut text, &mut files, name, limit)?;
    Ok(text)
}

/// Files that are read whole.
struct WholeFiles;

impl Answers for WholeFiles {
    fn answer(alloc: Global, given: &str) -> Result<String, Fail> {
        let (name, rest) = split(given, " ");
        let (limit, failing) = split(rest, " ");
        let files = files_of(alloc, number(failing))?;
        reading_text(alloc, files, name, number(limit))
    }
}

#[test]
fn files_are_read_whole(rt: HostRuntime) -> Result<(), Fail> {
    check_lines::<WholeFiles>(rt.alloc(), READINGS, " | ", 13)
}

/// A line the places from which three bytes of a file with `hello` are read over three dots, where the first read fails, and
/// what each read gives, with what stands there then.
const PARTS: &str = "
0 1 = Err(Failed) ... Ok(3) ell
";

/// Files that are read in parts.
#[derive(Drop)]
struct InParts {
    files: MemFiles,
}

impl Acts for InParts {
    fn act(
        &mut self,
        _alloc: Global,
        name: &str,
        _rest: &str,
        text: &mut String,
    ) -> Result<(), Fail> {
        let mut into = *b"...";
        let read = self.files.read("short", number(name), &mut into);
        write_value(text, read)?;
        text.push(' ')?;
        text.push_str(text_of(into.as_slice()))?;
        Ok(())
    }
}

/// Files of which the first read fails.
fn first_fails(alloc: Global) -> Result<MemFiles, Memory> {
    let mut files = MemFiles::new(alloc, &[1])?;
    files.add(alloc, "short", b"hello")?;
    Ok(files)
}

/// Reads of these files.
struct PartReads;

impl Answers for PartReads {
    fn answer(alloc: Global, given: &str) -> Result<String, Fail> {
        let files = first_fails(alloc)?;
        acted(alloc, InParts { files }, given)
    }
}

#[test]
fn a_part_of_a_file_is_read(rt: HostRuntime) -> Result<(), Fail> {
    check_lines::<PartReads>(rt.alloc(), PARTS, " =", 1)
}

/// A line a writing of `hello` to a sink that takes three bytes at a time: its room, the number of the write that fails (0:
/// none does), and how it ends, with the bytes that were taken.
const WRITINGS: &str = "
10 0 | Ok(()) hello
10 2 | Err(Failed) hel
4 0 | Err(Failed) hell
0 0 | Err(Failed) -
5 3 | Ok(()) hello
";

/// Writes `hello`.
fn greet<K: Sink>(sink: &mut K) -> Result<(), Failed> {
    write_all(sink, b"hello")
}

/// Writes how a writing ended, and the bytes that were taken.
fn write_written(
    text: &mut String,
    written: Result<(), Failed>,
    taken: &[u8],
) -> Result<(), AllocError> {
    let taken = if taken.is_empty() {
        "-"
    } else {
        text_of(taken)
    };
    write!(text, "{written:?} {taken}")
}

/// How the writing to a sink ends, and the bytes that were taken.
fn writing_text(alloc: Global, mut sink: MemSink) -> Result<String, AllocError> {
    let mut text = String::new(alloc);
    let written = greet(&mut sink);
    write_written(&mut text, written, sink.taken())?;
    Ok(text)
}

/// Parts that are written whole.
struct WholeParts;

impl Answers for WholeParts {
    fn answer(alloc: Global, given: &str) -> Result<String, Fail> {
        let (room, failing) = split(given, " ");
        let room = usize::from(byte(room));
        let sink = MemSink::new(alloc, room, 3, &[number(failing)])?;
        Ok(writing_text(alloc, sink)?)
    }
}

#[test]
fn parts_are_written_whole(rt: HostRuntime) -> Result<(), Fail> {
    check_lines::<WholeParts>(rt.alloc(), WRITINGS, " | ", 5)
}
