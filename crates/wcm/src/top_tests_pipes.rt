//! Pipes: what they tell, beside what a plain loop gives.

use crate::status::Status;
use crate::top::run_words;
use ca_io::{MemFiles, MemSink};
use std::alloc::Global;
use std::process::Abort;
use std::test::Fail;

/// The lines that a pipe is to tell, by the recurrence: `1103515245 x + 12345` modulo 2^31 follows x.
fn wanted_lines(alloc: Global, seed: u32, count: u32) -> Result<String, Fail> {
    let mut number: u64 = u64::from(seed);
    let mut sum: u64 = 0;
    for _number in 0..count {
        number = number.wrapping_mul(1_103_515_245).wrapping_add(12_345) % 2_147_483_648;
        sum = sum.wrapping_add(number);
    }
    Ok(format!(in alloc; "seed {seed}\nelements {count}\nsum {sum}\ndone\n")?)
}

/// Runs a pipe, over no files, and compares its four lines.
fn check_pipe(rt: &impl Abort, alloc: Global, seed: u32, count: u32) -> Result<(), Fail> {
    let mut words = Vec::new(alloc);
    words.push(String::from_str(alloc, "wcm")?)?;
    words.push(String::from_str(alloc, "pipe")?)?;
    words.push(format!(in alloc; "{seed}")?)?;
    words.push(format!(in alloc; "{count}")?)?;
    let mut files = MemFiles::new(alloc, &[])?;
    let mut out = MemSink::new(alloc, 4096, 4096, &[])?;
    let mut err = MemSink::new(alloc, 4096, 4096, &[])?;
    let status = run_words(alloc, words.as_slice(), &mut files, &mut out, &mut err);
    assert!(rt; matches!(status, Status::Done), "pipe {seed} {count}");
    let wanted = wanted_lines(alloc, seed, count)?;
    assert_eq!(rt; out.taken(), wanted.as_bytes(), "pipe {seed} {count}");
    assert!(rt; err.taken().is_empty(), "pipe {seed} {count}");
    Ok(())
}

#[test]
fn pipes(rt: HostRuntime) -> Result<(), Fail> {
    for seed in [0, 1, 2_147_483_647] {
        for count in 0..41 {
            check_pipe(&rt, rt.alloc(), seed, count)?;
        }
    }
    check_pipe(&rt, rt.alloc(), 7, 10_000)
}
