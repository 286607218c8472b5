//! The components of cases.

use cases::{bytes_of, bytes_of_lines};
use std::alloc::{AllocError, Global};
use std::test::Fail;

/// The component whose one function adds two numbers.
const ADD: &str = "
00 61 73 6D 0D 00 01 00 01 29 00 61 73 6D 01 00 00 00 01 07 01 60 02 7F 7F 01 7F 03 02 01 00 07
07 01 03 61 64 64 00 00 0A 09 01 07 00 20 00 20 01 6A 0B 02 04 01 00 00 00 06 09 01 00 00 01 00
03 61 64 64 07 0B 01 40 02 01 61 79 01 62 79 00 79 08 06 01 00 00 00 00 00 0B 09 01 00 03 61 64
64 01 00 00
";

/// Adds the bytes of hexadecimal text. What stands behind a `;` is left out.
fn add_code(alloc: Global, code: &str, bytes: &mut Vec<u8>) -> Result<(), Fail> {
    let part = bytes_of_lines(alloc, code)?;
    bytes.extend_from_slice(&part)?;
    Ok(())
}

/// Adds bytes so many times.
fn add_times(part: &[u8], count: u32, bytes: &mut Vec<u8>) -> Result<(), AllocError> {
    for _time in 0..count {
        bytes.extend_from_slice(part)?;
    }
    Ok(())
}

/// Adds the bytes of a number and a text, so many times.
fn add_repeated(alloc: Global, line: &str, bytes: &mut Vec<u8>) -> Result<(), Fail> {
    let (count, code) = line.split_once(' ').ok_or("no bytes")?;
    let count: u32 = count.parse()?;
    let part = bytes_of(alloc, code)?;
    add_times(&part, count, bytes)?;
    Ok(())
}

/// Leaves no more bytes than a number says.
fn leave_front(line: &str, bytes: &mut Vec<u8>) -> Result<(), Fail> {
    let count: usize = line.parse()?;
    bytes.truncate(count);
    Ok(())
}

/// Puts a byte at a place, by a number and a text.
fn change(alloc: Global, line: &str, bytes: &mut Vec<u8>) -> Result<(), Fail> {
    let (place, code) = line.split_once(' ').ok_or("no byte")?;
    let place: usize = place.parse()?;
    let byte = bytes_of(alloc, code)?.first().copied().ok_or("no byte")?;
    let at = bytes.get_mut(place).ok_or("no such place")?;
    *at = byte;
    Ok(())
}

/// Does what a line says of the bytes of a component.
pub fn add_line(alloc: Global, line: &str, bytes: &mut Vec<u8>) -> Result<(), Fail> {
    let (word, rest) = line.split_once(' ').unwrap_or((line, ""));
    match word {
        "add" => add_code(alloc, ADD, bytes),
        "times" => add_repeated(alloc, rest, bytes),
        "front" => leave_front(rest, bytes),
        "change" => change(alloc, rest, bytes),
        _ => add_code(alloc, line, bytes),
    }
}
