//! Calls of the program over files that are too long, and with traces that go out in parts.

use crate::status::Status;
use crate::top::run_words;
use crate::top_tests_cases::ADD;
use ca_io::{MemFiles, MemSink};
use std::alloc::Global;
use std::test::Fail;

/// How many cases of a long file there are.
pub const LONG_COUNT: u32 = 2;

/// Component files that are too long.
pub const LONG_CASES: &str = "
component none
zeros 16777217
status Refused
err refused at 16777216: Limit

component none
zeros 16777217
words wcm check add.wasm
status Refused
err refused at 16777216: Limit

";

/// The script of so many calls.
fn calls(alloc: Global, count: u32) -> Result<String, Fail> {
    let mut script = String::new(alloc);
    for _call in 0..count {
        script.push_str("call add (2, 3)\n")?;
    }
    Ok(script)
}

/// The trace of so many calls, but for its last line.
fn lines(alloc: Global, count: u32) -> Result<String, Fail> {
    let mut text = String::new(alloc);
    for call in 0..count {
        let task = call.wrapping_add(1);
        let told = format!(in alloc;
            "take {task} T{task} add (2, 3)\nenter T{task}\nreturn T{task} (5)\nexit T{task}\n"
        )?;
        text.push_str(told.as_str())?;
    }
    Ok(text)
}

/// An output that takes whole parts, and fails at its second write, behind the first 4,096 bytes.
#[test]
fn long_trace(rt: HostRuntime) -> Result<(), Fail> {
    let alloc = rt.alloc();
    let script = calls(alloc, 200)?;
    let wanted = lines(alloc, 200)?;
    let mut words = Vec::new(alloc);
    for word in ["wcm", "run", "add.wasm", "add.txt"] {
        words.push(String::from_str(alloc, word)?)?;
    }
    let mut files = MemFiles::new(alloc, &[])?;
    files.add(alloc, "add.wasm", &ADD)?;
    files.add(alloc, "add.txt", script.as_bytes())?;
    let mut out = MemSink::new(alloc, 16_384, 16_384, &[2])?;
    let mut err = MemSink::new(alloc, 4_096, 4_096, &[])?;
    let status = run_words(alloc, words.as_slice(), &mut files, &mut out, &mut err);
    assert!(rt; matches!(status, Status::WriteFault));
    assert!(rt; wanted.len() > 8_192);
    let front = wanted.as_bytes().get(..4_096).ok_or("a short trace")?;
    assert_eq!(rt; out.taken(), front);
    assert!(rt; err.taken().is_empty());
    Ok(())
}
