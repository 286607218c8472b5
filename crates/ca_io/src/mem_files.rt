//! Files in memory.

ghost use Rattle.std.specs.Prelude.{◌≡◌, ◌≢◌, ◌⊎◌, ◌↔◌, ℕ, ◌≤◌, ◌-◌, List, [], length, take, drop, min, Option, Some, None, IfOk, IfSome, OnOk, OnErr, IsErr, option_copied};
ghost use Rattle.std.specs.Map.{lookup};
ghost use Rattle.std.specs.Str.{bytes_eq};
ghost use Rattle.ca_io.specs.Bytes.{ReadsAt};
ghost use Rattle.ca_io.specs.Calls.{NextFails};
ghost use Rattle.ca_io.specs.Causes.{HasCause};
ghost use Rattle.ca_io.specs.MemFiles.{held_in, with_file, after_read};

use crate::failed::Failed;
use crate::files::Files;
use faults::Memory;
use std::alloc::Global;
use std::marker::Model;

/// A file in memory, which contracts see as its name and its bytes.
#[derive(Drop)]
struct Entry {
    name: String,
    bytes: Vec<u8>,
}

impl Model for Entry {
    ghost use Rattle.std.specs.Prelude.{ℕ, List, string_bytes};

    ghost Value = { List ℕ × List ℕ };

    ghost view = { λ e. (string_bytes e.name, e.bytes.items) };
}

/// Files in memory, of which chosen reads fail.
#[derive(Drop)]
pub struct MemFiles {
    /// The newest first.
    entries: Vec<Entry>,
    calls: u64,
    faults: u64,
    fails: Vec<u64>,
}

impl Model for MemFiles {
    ghost use Rattle.ca_io.specs.MemFiles.{FilesInMemory};

    ghost Value = { FilesInMemory };

    ghost view = { λ f. record { entries = f.entries.items; calls = f.calls; faults = f.faults; fails = f.fails.items } };
}

impl MemFiles {
    /// No files yet. `fails` has the numbers of the reads that are to fail, where the first read is number 1.
    ///
    /// `Memory` comes where memory runs out.
    pub fn new(alloc: Global, fails: &[u64]) -> Result<MemFiles, Memory>
        ensures { IfOk result (λ files. files ≡ record { entries = []; calls = 0; faults = 0; fails = fails.now }) }
    {
        Ok(MemFiles {
            entries: Vec::new(alloc),
            calls: 0,
            faults: 0,
            fails: fails.to_vec(alloc)?,
        })
    }

    /// Puts bytes under a name, in place of those that were there.
    ///
    /// `Memory` comes where memory runs out, and then nothing has changed.
    pub fn add(&mut self, alloc: Global, name: &str, bytes: &[u8]) -> Result<(), Memory>
        ensures ok { OnOk result (self.new ≡ with_file self.old name.now bytes.now) }
        ensures held { OnOk result (held_in self.new name.now ≡ Some bytes.now) }
        ensures others { OnOk result ((other : List ℕ) → other ≢ name.now → held_in self.new other ≡ held_in self.old other) }
        ensures failed { OnErr result (self.new ≡ self.old) }
    {
        let entry = Entry {
            name: String::from_str(alloc, name)?,
            bytes: bytes.to_vec(alloc)?,
        };
        self.entries.insert(0, entry)?;
        Ok(())
    }
}

/// The bytes under a name.
fn find<'a>(entries: &'a [Entry], name: &str) -> Option<&'a [u8]>
    ensures { option_copied result ≡ lookup (bytes_eq name.now) entries.now }
{
    for entry in entries {
        if name == entry.name.as_str() {
            return Some(&entry.bytes);
        }
    }
    None
}

/// Copies the bytes from a place on into the front of a slice, as many as there are and as have room, and answers how
/// many that is.
fn copy_from(bytes: &[u8], at: u64, into: &mut [u8]) -> usize
    ensures count { result ≡ min (length into.new) (length bytes.now - at) }
    ensures front { take result into.new ≡ take result (drop at bytes.now) }
    ensures behind { drop result into.new ≡ drop result into.old }
{
    let rest = &bytes[bytes.len().min(at as usize)..];
    let count = into.len().min(rest.len());
    into[..count].copy_from_slice(&rest[..count]);
    count
}

impl Files for MemFiles {
    ghost held = { held_in };

    ghost faults = { λ f. f.faults };

    /// Fails where this read's number is to fail, and for a name that isn't there. Else it reads as many bytes as there
    /// are from the place on, and as have room.
    fn read(&mut self, name: &str, at: u64, into: &mut [u8]) -> Result<usize, Failed>
        ensures bound { IfOk result (λ count. count ≤ length into.new) }
        ensures bytes { IfSome (held_in self.old name.now) (λ bytes. IfOk result (λ count. ReadsAt bytes at count into.new)) }
        ensures same { (other : List ℕ) → held_in self.new other ≡ held_in self.old other }
        ensures cause { HasCause self.old.faults self.new.faults result }
        ensures fails { IsErr result ↔ (NextFails self.old.fails self.old.calls ⊎ (held_in self.old name.now ≡ None)) }
        ensures count { IfSome (held_in self.old name.now) (λ bytes. IfOk result (λ count. count ≡ min (length into.new) (length bytes - at))) }
        ensures behind { IfOk result (λ count. drop count into.new ≡ drop count into.old) }
        ensures failed { OnErr result (into.new ≡ into.old) }
        ensures after { self.new ≡ after_read self.old result }
    {
        self.calls = self.calls.saturating_add(1);
        match find(&self.entries, name) {
            Some(bytes) if !self.fails.contains(&self.calls) => Ok(copy_from(bytes, at, into)),
            _ => {
                self.faults = self.faults.saturating_add(1);
                Err(Failed)
            }
        }
    }
}
