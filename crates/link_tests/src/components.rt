//! The components of cases.

use std::alloc::{AllocError, Global};
use std::test::Fail;

/// The section of a core module that exports a function `f` from two i32 to one, a function `g` from nothing to nothing, a
/// table `t` of 2 to 5 entries, a memory `m` of 1 to 3 pages, a global `c` of i32, and a global `v` of i64 that may be set.
const PROVIDER: &str = "
01 5C
00 61 73 6D 01 00 00 00 01 0A 02 60 02 7F 7F 01 7F 60 00 00 03 03 02 00
01 04 05 01 70 01 02 05 05 04 01 01 01 03 06 0B 02 7F 00 41 07 0B 7E 01
42 09 0B 07 19 06 01 66 00 00 01 67 00 01 01 74 01 00 01 6D 02 00 01 63
03 00 01 76 03 01 0A 0C 02 07 00 20 00 20 01 6A 0B 02 00 0B
";

/// An instance of `PROVIDER`, its `f` as core function 0, the function type of `a` and `b` to u32 as type 0, and the lift of the
/// one to the other as function 0.
const LIFTED: &str = "
02 04 01 00 00 00
06 07 01 00 00 01 00 01 66
07 0B 01 40 02 01 61 79 01 62 79 00 79
08 06 01 00 00 00 00 00
";

/// The front of the section of a component that has what `LIFTED` has.
const ADDER: &str = "04 93 01 00 61 73 6D 0D 00 01 00";

/// An export `f` of function 0.
const EXPORTED: &str = "0B 07 01 00 01 66 01 00 00";

/// The section of a core module that exports a memory `m` of one page, and functions, each under the name of its type: what it
/// takes, a `>`, and what it gives, `i` for i32 and `l` for i64, with a number behind it where there are more than four. The
/// body of each is `unreachable`. From 0 on they are `>`, `>i`, `>l`, `>ii`, `i>`, `i>i`, `l>`, `l>l`, `ii>`, `ii>i`, `il>`,
/// `li>`, `iii>i`, `ili>`, `ill>`, `iil>`, `lli>`, `iiii>i`, `iiii>`, `iiii>l`, `iiil>i`, `i5>i`, `i8>`, `i16>i` and `i17>i`.
const FUNCTIONS: &str = "
01 F5 03 00 61 73 6D 01 00 00 00 01 B3 01 19 60 00 00 60 00 01 7F 60 00 01 7E 60 00 02 7F 7F 60
01 7F 00 60 01 7F 01 7F 60 01 7E 00 60 01 7E 01 7E 60 02 7F 7F 00 60 02 7F 7F 01 7F 60 02 7F 7E
00 60 02 7E 7F 00 60 03 7F 7F 7F 01 7F 60 03 7F 7E 7F 00 60 03 7F 7E 7E 00 60 03 7F 7F 7E 00 60
03 7E 7E 7F 00 60 04 7F 7F 7F 7F 01 7F 60 04 7F 7F 7F 7F 00 60 04 7F 7F 7F 7F 01 7E 60 04 7F 7F
7F 7E 01 7F 60 05 7F 7F 7F 7F 7F 01 7F 60 08 7F 7F 7F 7F 7F 7F 7F 7F 00 60 10 7F 7F 7F 7F 7F 7F
7F 7F 7F 7F 7F 7F 7F 7F 7F 7F 01 7F 60 11 7F 7F 7F 7F 7F 7F 7F 7F 7F 7F 7F 7F 7F 7F 7F 7F 7F 01
7F 03 1A 19 00 01 02 03 04 05 06 07 08 09 0A 0B 0C 0D 0E 0F 10 11 12 13 14 15 16 17 18 05 03 01
00 01 07 AC 01 1A 01 3E 00 00 02 3E 69 00 01 02 3E 6C 00 02 03 3E 69 69 00 03 02 69 3E 00 04 03
69 3E 69 00 05 02 6C 3E 00 06 03 6C 3E 6C 00 07 03 69 69 3E 00 08 04 69 69 3E 69 00 09 03 69 6C
3E 00 0A 03 6C 69 3E 00 0B 05 69 69 69 3E 69 00 0C 04 69 6C 69 3E 00 0D 04 69 6C 6C 3E 00 0E 04
69 69 6C 3E 00 0F 04 6C 6C 69 3E 00 10 06 69 69 69 69 3E 69 00 11 05 69 69 69 69 3E 00 12 06 69
69 69 69 3E 6C 00 13 06 69 69 69 6C 3E 69 00 14 04 69 35 3E 69 00 15 03 69 38 3E 00 16 05 69 31
36 3E 69 00 17 05 69 31 37 3E 69 00 18 01 6D 02 00 0A 65 19 03 00 00 0B 03 00 00 0B 03 00 00 0B
03 00 00 0B 03 00 00 0B 03 00 00 0B 03 00 00 0B 03 00 00 0B 03 00 00 0B 03 00 00 0B 03 00 00 0B
03 00 00 0B 03 00 00 0B 03 00 00 0B 03 00 00 0B 03 00 00 0B 03 00 00 0B 03 00 00 0B 03 00 00 0B
03 00 00 0B 03 00 00 0B 03 00 00 0B 03 00 00 0B 03 00 00 0B 03 00 00 0B
";

/// An instance of `FUNCTIONS`, its `m` as core memory 0, and its `iiii>i`, of the type of a realloc, as core function 0.
const ALLOCATING: &str = "
02 04 01 00 00 00
06 12 02 00 02 01 00 01 6D 00 00 01 00 06 69 69 69 69 3E 69
";

/// The code of a word that stands for some lines.
fn lines_of(word: &str) -> [&str; 4] {
    match word {
        "provider" => [PROVIDER, "", "", ""],
        "lifted" => [PROVIDER, LIFTED, "", ""],
        "adder" => [ADDER, PROVIDER, LIFTED, EXPORTED],
        "functions" => [FUNCTIONS, "", "", ""],
        "allocating" => [FUNCTIONS, ALLOCATING, "", ""],
        _ => [word, "", "", ""],
    }
}

/// Adds the bytes of hexadecimal text.
fn add_code(alloc: Global, code: &str, bytes: &mut Vec<u8>) -> Result<(), Fail> {
    let part = cases::bytes_of(alloc, code)?;
    bytes.extend_from_slice(&part)?;
    Ok(())
}

/// Adds bytes so many times.
fn add_times(part: &[u8], count: u32, bytes: &mut Vec<u8>) -> Result<(), AllocError> {
    for _time in 0..count {
        bytes.extend_from_slice(part)?;
    }
    Ok(())
}

/// Adds the bytes of a number and a text, so many times.
fn add_repeated(alloc: Global, line: &str, bytes: &mut Vec<u8>) -> Result<(), Fail> {
    let (count, code) = line.split_once(' ').ok_or("no bytes")?;
    let count: u32 = count.parse()?;
    let part = cases::bytes_of(alloc, code)?;
    add_times(&part, count, bytes)?;
    Ok(())
}

/// Adds the bytes of the lines that a word stands for, or of hexadecimal text.
fn add_word(alloc: Global, word: &str, bytes: &mut Vec<u8>) -> Result<(), Fail> {
    for code in lines_of(word) {
        add_code(alloc, code, bytes)?;
    }
    Ok(())
}

/// Adds the bytes of a line.
fn add_line(alloc: Global, line: &str, bytes: &mut Vec<u8>) -> Result<(), Fail> {
    let (code, _remark) = line.split_once(';').unwrap_or((line, ""));
    match code.trim().strip_prefix("times ") {
        Some(repeated) => add_repeated(alloc, repeated, bytes),
        None => add_word(alloc, code.trim(), bytes),
    }
}

/// The bytes of lines.
pub fn bytes_of_lines(alloc: Global, lines: &str) -> Result<Vec<u8>, Fail> {
    let mut bytes = Vec::new(alloc);
    for line in lines.lines() {
        add_line(alloc, line, &mut bytes)?;
    }
    Ok(bytes)
}
