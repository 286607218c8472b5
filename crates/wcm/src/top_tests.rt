//! Calls of the program over files and outputs in memory, by the tables of `top_tests_cases`.

use crate::laws;
use crate::status::Status;
use crate::top::run_words;
use crate::top_tests_cases::{ADD, CASES, COUNT, TRAPPING, WORDS, WORDS_COUNT};
use crate::top_tests_long::{LONG_CASES, LONG_COUNT};
use ca_io::{MemFiles, MemSink};
use std::alloc::{AllocError, Global};
use std::process::Abort;
use std::test::Fail;

/// A call of the program, and what is wanted of it.
#[derive(Drop)]
struct Case {
    words: String,
    component: Vec<u8>,
    script: String,
    /// The numbers of the read, of the write to the output, and of the write to the error output that fails.
    read: u64,
    write: u64,
    error: u64,
    /// How many bytes the outputs take at once.
    most: u64,
    status: String,
    out: String,
    err: String,
}

/// Appends a line with its line feed.
fn push_line(line: &str, text: &mut String) -> Result<(), AllocError> {
    text.push_str(line)?;
    text.push('\n')
}

impl Case {
    /// A call over the component that adds, with nothing that fails.
    fn new(alloc: Global) -> Result<Case, Fail> {
        Ok(Case {
            words: String::from_str(alloc, "wcm run add.wasm add.txt")?,
            component: Vec::from_slice(alloc, &ADD)?,
            script: String::new(alloc),
            read: 0,
            write: 0,
            error: 0,
            most: 4096,
            status: String::new(alloc),
            out: String::new(alloc),
            err: String::new(alloc),
        })
    }

    /// Takes in a line of the table; behind the last one of a case checks it, and begins anew.
    fn take_line(
        &mut self,
        rt: &impl Abort,
        alloc: Global,
        line: &str,
        count: &mut u32,
    ) -> Result<(), Fail> {
        if !line.is_empty() {
            let (key, rest) = line.split_once(' ').unwrap_or((line, ""));
            return self.add_line(key, rest);
        }
        if !self.status.is_empty() {
            *count = count.saturating_add(1);
            self.check(rt, alloc, *count)?;
            *self = Case::new(alloc)?;
        }
        Ok(())
    }

    /// Takes in a line of a case.
    fn add_line(&mut self, key: &str, rest: &str) -> Result<(), Fail> {
        match key {
            "script" => push_line(rest, &mut self.script)?,
            "last" => self.script.push_str(rest)?,
            "status" => self.status.push_str(rest)?,
            "out" => push_line(rest, &mut self.out)?,
            "part" => self.out.push_str(rest)?,
            "err" => push_line(rest, &mut self.err)?,
            "err-part" => self.err.push_str(rest)?,
            "reads" => self.read = rest.parse()?,
            "writes" => self.write = rest.parse()?,
            "errors" => self.error = rest.parse()?,
            "most" => self.most = rest.parse()?,
            "words" => {
                self.words.clear();
                self.words.push_str(rest)?;
            }
            _ => self.add_bytes(key, rest)?,
        }
        Ok(())
    }

    /// Takes in a line of a case that tells of the component file.
    fn add_bytes(&mut self, key: &str, rest: &str) -> Result<(), Fail> {
        match key {
            "component" => {
                self.component.clear();
                if rest == "trapping" {
                    self.component.extend_from_slice(&TRAPPING)?;
                }
            }
            "front" => self.component.truncate(rest.parse()?),
            "zeros" => self.add_zeros(rest.parse()?)?,
            "change" => self.change(rest)?,
            _ => return Err("a line of another kind".into()),
        }
        Ok(())
    }

    /// The component file has so many zeros behind.
    fn add_zeros(&mut self, count: u32) -> Result<(), AllocError> {
        for _zero in 0..count {
            self.component.push(0)?;
        }
        Ok(())
    }

    /// The byte at a place of the component file is another one.
    fn change(&mut self, rest: &str) -> Result<(), Fail> {
        let (place, byte) = rest.split_once(' ').ok_or("change")?;
        let place: usize = place.parse()?;
        let at = self.component.get_mut(place).ok_or("place")?;
        *at = byte.parse()?;
        Ok(())
    }

    /// The words of the call.
    fn words(&self, alloc: Global) -> Result<Vec<String>, Fail> {
        let mut words = Vec::new(alloc);
        if !self.words.is_empty() {
            for word in self.words.as_str().split(' ') {
                words.push(String::from_str(alloc, word)?)?;
            }
        }
        Ok(words)
    }

    /// The files of the call.
    fn files(&self, alloc: Global) -> Result<MemFiles, Fail> {
        let mut files = MemFiles::new(alloc, &[self.read])?;
        files.add(alloc, "add.wasm", &self.component)?;
        files.add(alloc, "add.txt", self.script.as_bytes())?;
        Ok(files)
    }

    /// An output that fails at a write.
    fn sink(&self, alloc: Global, failing: u64) -> Result<MemSink, Fail> {
        Ok(MemSink::new(alloc, 4096, self.most.max(1) as usize, &[failing])?)
    }

    /// Makes the call and compares what it answers and writes.
    fn check(&self, rt: &impl Abort, alloc: Global, number: u32) -> Result<(), Fail> {
        let words = self.words(alloc)?;
        let mut files = self.files(alloc)?;
        let mut out = self.sink(alloc, self.write)?;
        let mut err = self.sink(alloc, self.error)?;
        let status = run_words(alloc, words.as_slice(), &mut files, &mut out, &mut err);
        self.compare(rt, alloc, number, status, out.taken(), err.taken())
    }

    /// Compares what a call answered and wrote.
    fn compare(
        &self,
        rt: &impl Abort,
        alloc: Global,
        number: u32,
        status: Status,
        out: &[u8],
        err: &[u8],
    ) -> Result<(), Fail> {
        let status = format!(in alloc; "{status:?}")?;
        assert_eq!(rt; status.as_str(), self.status.as_str(), "case {number}");
        assert_eq!(rt; out, self.out.as_bytes(), "case {number}");
        if self.status.as_str() == "Usage" {
            assert!(rt; !err.is_empty(), "case {number}");
        } else {
            assert_eq!(rt; err, self.err.as_bytes(), "case {number}");
        }
        Ok(())
    }
}

/// Checks the cases of a table, and that there are so many.
fn check_all(rt: &impl Abort, alloc: Global, cases: &str, wanted: u32) -> Result<(), Fail> {
    let mut count: u32 = 0;
    let mut case = Case::new(alloc)?;
    for line in cases.lines() {
        if !line.starts_with('#') {
            case.take_line(rt, alloc, line, &mut count)?;
        }
    }
    assert_eq!(rt; count, wanted);
    Ok(())
}

/// Checks that words are no command, over files whose first read fails.
fn check_words(rt: &impl Abort, alloc: Global, words: &str, number: u32) -> Result<(), Fail> {
    let mut case = Case::new(alloc)?;
    case.add_line("words", words)?;
    case.add_line("reads", "1")?;
    case.add_line("status", "Usage")?;
    case.check(rt, alloc, number)
}

#[test]
fn words_of_no_command(rt: HostRuntime) -> Result<(), Fail> {
    let mut count: u32 = 0;
    for words in WORDS.lines() {
        count = count.saturating_add(1);
        check_words(&rt, rt.alloc(), words, count)?;
    }
    assert_eq!(rt; count, WORDS_COUNT);
    Ok(())
}

#[test]
fn calls(rt: HostRuntime) -> Result<(), Fail> {
    check_all(&rt, rt.alloc(), CASES, COUNT)
}

#[test]
fn calls_over_a_long_file(rt: HostRuntime) -> Result<(), Fail> {
    check_all(&rt, rt.alloc(), LONG_CASES, LONG_COUNT)
}

#[test]
fn laws_hold() {
    laws::one_answer();
    laws::one_pipe();
    laws::statuses_have_causes();
    laws::traces_are_fronts();
    command_words::laws::plain_words_are_taken();
    command_words::laws::taken_words_are_read();
}
