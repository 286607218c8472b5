//! Numbers and names, with values and places worked out by hand from the rules of LEB128 and UTF-8, and what else a cursor
//! reads.

use crate::texts::{byte, split, write_read, write_refusal, write_value};
use ca_base::{ByteFault, Cursor};
use cases::{Acts, Answers, acted, bytes_of_lines, check_lines};
use std::alloc::{AllocError, Global};
use std::fmt::Write;
use std::test::Fail;

/// A line calls on a cursor: their names, with the number of bytes behind a colon, the bytes, and what each call gives, with
/// how many bytes are read then and left.
const CALLS: &str = "
u32 | 00 | 0, 1 read, 0 left
u32 | 7F | 127, 1 read, 0 left
u32 | 05 06 | 5, 1 read, 1 left
u32 | 80 00 | 0, 2 read, 0 left
u32 | 80 01 | 128, 2 read, 0 left
u32 | E5 8E 26 | 624485, 3 read, 0 left
u32 | 80 80 80 80 00 | 0, 5 read, 0 left
u32 | FF FF FF FF 0F | 4294967295, 5 read, 0 left
u32 | | 0 Truncated, 0 read, 0 left
u32 | 80 | 1 Truncated, 0 read, 1 left
u32 | 80 80 | 2 Truncated, 0 read, 2 left
u32 | 80 80 80 | 3 Truncated, 0 read, 3 left
u32 | 80 80 80 80 | 4 Truncated, 0 read, 4 left
u32 | 80 80 80 80 80 | 4 TooLong, 0 read, 5 left
u32 | 80 80 80 80 80 00 | 4 TooLong, 0 read, 6 left
u32 | FF FF FF FF 10 | 4 TooLong, 0 read, 5 left
u32 | 80 80 80 80 7F | 4 TooLong, 0 read, 5 left
s32 | 00 | 0, 1 read, 0 left
s32 | 3F | 63, 1 read, 0 left
s32 | 40 | -64, 1 read, 0 left
s32 | 7F | -1, 1 read, 0 left
s32 | C0 00 | 64, 2 read, 0 left
s32 | BF 7F | -65, 2 read, 0 left
s32 | 80 80 80 80 00 | 0, 5 read, 0 left
s32 | FF FF FF FF 7F | -1, 5 read, 0 left
s32 | FF FF FF FF 07 | 2147483647, 5 read, 0 left
s32 | 80 80 80 80 78 | -2147483648, 5 read, 0 left
s32 | | 0 Truncated, 0 read, 0 left
s32 | 80 | 1 Truncated, 0 read, 1 left
s32 | 80 80 80 80 | 4 Truncated, 0 read, 4 left
s32 | 80 80 80 80 80 | 4 TooLong, 0 read, 5 left
s32 | 80 80 80 80 F8 | 4 TooLong, 0 read, 5 left
s32 | FF FF FF FF 08 | 4 TooLong, 0 read, 5 left
s32 | 80 80 80 80 77 | 4 TooLong, 0 read, 5 left
s32 | 80 80 80 80 40 00 | 4 TooLong, 0 read, 6 left
s33 | 7F | -1, 1 read, 0 left
s33 | 40 | -64, 1 read, 0 left
s33 | C0 00 | 64, 2 read, 0 left
s33 | FF FF FF FF 0F | 4294967295, 5 read, 0 left
s33 | 80 80 80 80 70 | -4294967296, 5 read, 0 left
s33 | FF FF FF FF 10 | 4 TooLong, 0 read, 5 left
s33 | 80 80 80 80 6F | 4 TooLong, 0 read, 5 left
s33 | 80 80 80 80 80 | 4 TooLong, 0 read, 5 left
s33 | 80 80 80 80 | 4 Truncated, 0 read, 4 left
s64 | 00 | 0, 1 read, 0 left
s64 | 7F | -1, 1 read, 0 left
s64 | C0 00 | 64, 2 read, 0 left
s64 | 80 80 80 80 80 80 80 80 80 00 | 0, 10 read, 0 left
s64 | FF FF FF FF FF FF FF FF FF 7F | -1, 10 read, 0 left
s64 | FF FF FF FF FF FF FF FF FF 00 | 9223372036854775807, 10 read, 0 left
s64 | 80 80 80 80 80 80 80 80 80 7F | -9223372036854775808, 10 read, 0 left
s64 | | 0 Truncated, 0 read, 0 left
s64 | 80 | 1 Truncated, 0 read, 1 left
s64 | 80 80 | 2 Truncated, 0 read, 2 left
s64 | 80 80 80 | 3 Truncated, 0 read, 3 left
s64 | 80 80 80 80 | 4 Truncated, 0 read, 4 left
s64 | 80 80 80 80 80 | 5 Truncated, 0 read, 5 left
s64 | 80 80 80 80 80 80 | 6 Truncated, 0 read, 6 left
s64 | 80 80 80 80 80 80 80 | 7 Truncated, 0 read, 7 left
s64 | 80 80 80 80 80 80 80 80 | 8 Truncated, 0 read, 8 left
s64 | 80 80 80 80 80 80 80 80 80 | 9 Truncated, 0 read, 9 left
s64 | 80 80 80 80 80 80 80 80 80 80 | 9 TooLong, 0 read, 10 left
s64 | 80 80 80 80 80 80 80 80 80 80 00 | 9 TooLong, 0 read, 11 left
s64 | FF FF FF FF FF FF FF FF FF 01 | 9 TooLong, 0 read, 10 left
s64 | 80 80 80 80 80 80 80 80 80 7E | 9 TooLong, 0 read, 10 left
name | 00 | <>, 1 read, 0 left
name | 02 61 7A | <az>, 3 read, 0 left
name | 02 C3 A9 | <é>, 3 read, 0 left
name | 03 E2 82 AC | <€>, 4 read, 0 left
name | 04 F0 9F 98 80 | <😀>, 5 read, 0 left
name | 81 00 61 | <a>, 3 read, 0 left
name | | 0 Truncated, 0 read, 0 left
name | 80 | 1 Truncated, 0 read, 1 left
name | 80 80 80 80 80 | 4 TooLong, 0 read, 5 left
name | 05 61 62 | 3 Truncated, 0 read, 3 left
name | 02 C0 80 | 1 BadUtf8, 0 read, 3 left
name | 03 ED A0 80 | 1 BadUtf8, 0 read, 4 left
name | 02 61 C3 | 2 BadUtf8, 0 read, 3 left
name | 02 61 C3 A9 | 2 BadUtf8, 0 read, 4 left
name | 04 61 E2 82 62 | 2 BadUtf8, 0 read, 5 left
name | 03 C3 A9 80 | 3 BadUtf8, 0 read, 4 left
name | FF FF FF FF 0F 61 | 6 Truncated, 0 read, 6 left
byte take:3 next take:2 byte next | 07 08 09 | 7, 1 read, 2 left 3 Truncated, 1 read, 2 left Some(8), 1 read, 2 left [8, 9], 3 read, 0 left 3 Truncated, 3 read, 0 left None, 3 read, 0 left
";

/// Writes the text that a cursor read.
fn write_name(text: &mut String, read: Result<&str, ByteFault>) -> Result<(), AllocError> {
    match read {
        Ok(name) => write!(text, "<{name}>"),
        Err(fault) => write_refusal(text, fault),
    }
}

/// Writes what the call of a number or a name gives.
fn write_call(text: &mut String, cursor: &mut Cursor, name: &str) -> Result<(), AllocError> {
    match name {
        "u32" => write_read(text, cursor.u32()),
        "s32" => write_read(text, cursor.s32()),
        "s33" => write_read(text, cursor.s33()),
        "s64" => write_read(text, cursor.s64()),
        _ => write_name(text, cursor.name()),
    }
}

/// Writes what a call gives.
fn write_any(
    text: &mut String,
    cursor: &mut Cursor,
    name: &str,
    count: usize,
) -> Result<(), AllocError> {
    match name {
        "byte" => write_read(text, cursor.byte()),
        "take" => write_read(text, cursor.take(count)),
        "next" => write_value(text, cursor.next()),
        _ => write_call(text, cursor, name),
    }
}

/// Writes how many bytes a cursor read, and how many it left.
fn write_place(text: &mut String, cursor: &Cursor) -> Result<(), AllocError> {
    let read = cursor.at();
    let left = cursor.left();
    write!(text, ", {read} read, {left} left")
}

/// A cursor that calls read.
#[derive(Drop)]
struct Tried<'b> {
    cursor: Cursor<'b>,
}

impl<'b> Acts for Tried<'b> {
    fn act(
        &mut self,
        _alloc: Global,
        name: &str,
        rest: &str,
        text: &mut String,
    ) -> Result<(), Fail> {
        write_any(text, &mut self.cursor, name, usize::from(byte(rest)))?;
        write_place(text, &self.cursor)?;
        Ok(())
    }
}

/// Calls on new cursors.
struct CursorCalls;

impl Answers for CursorCalls {
    fn answer(alloc: Global, given: &str) -> Result<String, Fail> {
        let (calls, hex) = split(given, " |");
        let bytes = bytes_of_lines(alloc, hex)?;
        let cursor = Cursor::new(&bytes);
        acted(alloc, Tried { cursor }, calls)
    }
}

#[test]
fn numbers_and_names_are_read(rt: HostRuntime) -> Result<(), Fail> {
    check_lines::<CursorCalls>(rt.alloc(), CALLS, " |", 83)
}
