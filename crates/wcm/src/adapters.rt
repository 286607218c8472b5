//! Real files and standard streams. What they hold and take is not told; their faults are counted.

ghost use Rattle.std.specs.Prelude.{◌≤◌, length, IfOk, None};

use ca_io::{Failed, Files, Sink};
use std::io::{Read, Seek, SeekFrom, Stderr, Stdout};
use std::{fs, io};

/// Files of the system, by path.
#[derive(Drop)]
pub struct SystemFiles<'a, R> {
    rt: &'a R,
    faults: u64,
}

impl<'a, R: std::rt::Files> SystemFiles<'a, R> {
    /// The files that the runtime reaches.
    pub fn new(rt: &'a R) -> Self {
        SystemFiles { rt, faults: 0 }
    }

    /// Opens a file and reads from a place on.
    fn read_at(&self, name: &str, at: u64, into: &mut [u8]) -> io::Result<usize>
        ensures { IfOk result (λ count. count ≤ length into.new) }
    {
        let mut file = fs::open(self.rt, name)?;
        if at > 0 {
            file.seek(SeekFrom::Start(at))?;
        }
        file.read(into)
    }
}

impl<R: std::rt::Files> Files for SystemFiles<'_, R> {
    ghost held = { λ _ _. None };

    ghost faults = { λ s. s.faults };

    fn read(&mut self, name: &str, at: u64, into: &mut [u8]) -> Result<usize, Failed> {
        match self.read_at(name, at, into) {
            Ok(count) => Ok(count),
            Err(_) => {
                self.faults = self.faults.saturating_add(1);
                Err(Failed)
            }
        }
    }
}

/// Which stream a sink writes to.
#[derive(Drop)]
enum Standard {
    Output(Stdout),
    Error(Stderr),
}

/// A standard stream.
#[derive(Drop)]
pub struct Stream {
    to: Standard,
    faults: u64,
}

impl Stream {
    /// Standard output.
    pub fn output(stream: Stdout) -> Self {
        Stream {
            to: Standard::Output(stream),
            faults: 0,
        }
    }

    /// Standard error.
    pub fn error(stream: Stderr) -> Self {
        Stream {
            to: Standard::Error(stream),
            faults: 0,
        }
    }

    fn write_some(&self, part: &[u8]) -> io::Result<usize>
        ensures { IfOk result (λ count. count ≤ length part.now) }
    {
        match &self.to {
            Standard::Output(stream) => stream.write_some(part),
            Standard::Error(stream) => stream.write_some(part),
        }
    }
}

impl Sink for Stream {
    ghost taken = { λ _. None };

    ghost faults = { λ s. s.faults };

    /// A write that takes nothing of a part with bytes is a fault.
    fn write(&mut self, part: &[u8]) -> Result<usize, Failed> {
        match self.write_some(part) {
            Ok(count) if count > 0 || part.is_empty() => Ok(count),
            _ => {
                self.faults = self.faults.saturating_add(1);
                Err(Failed)
            }
        }
    }
}
