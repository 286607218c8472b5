//! A sink in memory.

ghost use Rattle.std.specs.Prelude.{◌≡◌, ◌⊎◌, ◌↔◌, ◌≤◌, ◌<◌, ◌-◌, [], length, take, min, Some, IfOk, OnErr, IsErr};
ghost use Rattle.ca_io.specs.Bytes.{grown};
ghost use Rattle.ca_io.specs.Calls.{NextFails};
ghost use Rattle.ca_io.specs.Causes.{HasCause};
ghost use Rattle.ca_io.specs.MemSink.{IsFull, after_write};

use crate::failed::Failed;
use crate::sink::Sink;
use faults::Memory;
use std::alloc::Global;
use std::marker::Model;

/// A sink in memory, of which chosen writes fail.
#[derive(Drop)]
pub struct MemSink {
    bytes: Vec<u8>,
    room: usize,
    most: usize,
    calls: u64,
    faults: u64,
    fails: Vec<u64>,
}

impl Model for MemSink {
    ghost use Rattle.std.specs.Prelude.{◌≤◌, length, vec_capacity};
    ghost use Rattle.ca_io.specs.MemSink.{SinkInMemory};

    ghost Value = { SinkInMemory };

    ghost view = { λ s. record { bytes = s.bytes.items; room = s.room; most = s.most; calls = s.calls; faults = s.faults; fails = s.fails.items } };

    ghost invariant = { λ s. (length s.bytes.items ≤ s.room) × (s.room ≤ vec_capacity s.bytes) × (1 ≤ s.most) };
}

impl MemSink {
    /// An empty sink with room for `room` bytes, which it takes now, so that no write takes memory. A write takes at
    /// most `most` bytes. `fails` has the numbers of the writes that are to fail, where the first write is number 1.
    ///
    /// `Memory` comes where memory runs out.
    pub fn new(alloc: Global, room: usize, most: usize, fails: &[u64]) -> Result<MemSink, Memory>
        requires { 1 ≤ most }
        ensures { IfOk result (λ sink. sink ≡ record { bytes = []; room = room; most = most; calls = 0; faults = 0; fails = fails.now }) }
    {
        Ok(MemSink {
            bytes: Vec::with_capacity(alloc, room)?,
            room,
            most,
            calls: 0,
            faults: 0,
            fails: fails.to_vec(alloc)?,
        })
    }

    /// The bytes taken so far.
    pub fn taken(&self) -> &[u8]
        ensures { result.now ≡ self.now.bytes }
    {
        &self.bytes
    }
}

impl Sink for MemSink {
    ghost taken = { λ s. Some s.bytes };

    ghost faults = { λ s. s.faults };

    /// Fails where this write's number is to fail, and where no room is left. Else it takes as many bytes as the part
    /// has, as one write takes and as have room.
    fn write(&mut self, part: &[u8]) -> Result<usize, Failed>
        ensures bound { IfOk result (λ count. count ≤ length part.now) }
        ensures some { IfOk result (λ count. 0 < length part.now → 0 < count) }
        ensures ok { IfOk result (λ count. Some self.new.bytes ≡ grown (Some self.old.bytes) (take count part.now)) }
        ensures failed { OnErr result (Some self.new.bytes ≡ Some self.old.bytes) }
        ensures cause { HasCause self.old.faults self.new.faults result }
        ensures fails { IsErr result ↔ (NextFails self.old.fails self.old.calls ⊎ IsFull self.old) }
        ensures count { IfOk result (λ count. count ≡ min (min (length part.now) self.old.most) (self.old.room - length self.old.bytes)) }
        ensures after { self.new ≡ after_write self.old part.now result }
    {
        self.calls = self.calls.saturating_add(1);
        let left = self.room - self.bytes.len();
        if left == 0 || self.fails.contains(&self.calls) {
            self.faults = self.faults.saturating_add(1);
            return Err(Failed);
        }
        let count = part.len().min(self.most).min(left);
        self.bytes.extend_from_slice(&part[..count]).unwrap();
        Ok(count)
    }
}
