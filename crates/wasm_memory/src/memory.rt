//! A linear memory.

ghost use Rattle.std.specs.Prelude.{◌≡◌, ◌≤◌, ◌<◌, ◌^◌, ◌&&◌, ◌+◌, IfOk, IfSome, OnOk, OnErr, is_ok, length};
ghost use Rattle.std.specs.Borrow.{sem};
ghost use Rattle.wasm_memory.specs.Bytes.{is_inside, put, copied, filled};
ghost use mir.Val.{bits};
ghost use Rattle.wasm_memory.specs.Loads.{loaded, result_width};
ghost use Rattle.wasm_memory.specs.Stores.{stored_bytes};
ghost use Rattle.wasm_memory.specs.Memories.{IsMemory, page_count, most_pages, made, grown, growth, with_bytes};

use crate::bounds::{OutOfBounds, effective};
use crate::{bulk, loads, stores};
use faults::Memory;
use std::alloc::Global;
use std::marker::Model;
use syntax_trees::{LoadOp, StoreOp};

/// The bytes of a page.
pub const PAGE_SIZE: u32 = 65_536;

/// The most pages of a memory, whatever its maximum.
pub const MOST_PAGES: u32 = 1_024;

/// A linear memory (Core 2.0, section 4.2.8), which contracts see as its bytes and its maximum of pages. It has at most 1,024
/// pages, and at most its maximum.
#[derive(Drop)]
pub struct LinearMemory {
    bytes: Vec<u8>,
    max: Option<u32>,
}

impl Model for LinearMemory {
    ghost use Rattle.wasm_memory.specs.Memories.{MemoryState, IsMemory};

    ghost Value = { MemoryState };

    ghost view = { λ m. record { bytes = m.bytes.items; maximum = m.max } };

    ghost invariant = { λ m. IsMemory (record { bytes = m.bytes.items; maximum = m.max }) };
}

impl LinearMemory {
    ghost use Rattle.wasm_memory.specs.Lends.{lends_bytes};

    /// A memory of so many pages, all zeros, that may grow to `max` pages where that is said.
    ///
    /// `Memory` comes where memory runs out.
    pub fn new(alloc: Global, pages: u32, max: Option<u32>) -> Result<LinearMemory, Memory>
        requires { pages ≤ most_pages max }
        ensures made { IfOk result (λ memory. memory ≡ made pages max) }
    {
        let bytes = vec![in alloc; 0; pages as usize * PAGE_SIZE as usize]?;
        Ok(LinearMemory { bytes, max })
    }

    /// How many pages it has.
    pub fn pages(&self) -> u32
        ensures count { result ≡ page_count self.now }
        ensures sound { IsMemory self.now }
    {
        (self.bytes.len() / PAGE_SIZE as usize) as u32
    }

    /// The most pages that it may have, where that is said.
    pub fn max(&self) -> Option<u32>
        ensures { result ≡ self.now.maximum }
    {
        self.max
    }

    /// The most pages that it may have, said or not.
    fn most(&self) -> u32
        ensures { result ≡ most_pages self.now.maximum }
    {
        MOST_PAGES.min(self.max.unwrap_or(MOST_PAGES))
    }

    /// Grows it by so many pages of zeros, and answers how many it had, or `None` where it would have more than 1,024, or more
    /// than its maximum: then nothing changes.
    ///
    /// `Memory` comes where memory runs out, and then nothing changes. No growth that is refused takes memory.
    pub fn grow(&mut self, delta: u32) -> Result<Option<u32>, Memory>
        ensures answer { IfOk result (λ before. before ≡ growth self.old delta) }
        ensures grown { OnOk result (self.new ≡ grown self.old delta) }
        ensures err { OnErr result (self.new ≡ self.old) }
        ensures wanted { OnErr result (page_count self.old + delta ≤ most_pages self.old.maximum) }
    {
        let before = self.pages();
        if self.most() - before < delta {
            return Ok(None);
        }
        self.bytes
            .resize((before + delta) as usize * PAGE_SIZE as usize, 0)?;
        Ok(Some(before))
    }

    /// What a load gives whose operand is `address`: its bytes begin at the sum of address and offset, which may pass 2^32.
    /// `None` comes exactly where they are not all inside.
    pub fn load(&self, op: LoadOp, address: u32, offset: u32) -> Option<u64>
        ensures value { result ≡ loaded op (address + offset) self.now.bytes }
        ensures word { IfSome result (λ value. value < 2 ^ bits (result_width op)) }
    {
        loads::load(&self.bytes, op, effective(address, offset))
    }

    /// Stores a value, of which the bits that the instruction does not store are left out, as `load` loads one.
    ///
    /// `OutOfBounds` comes exactly where its bytes are not all inside, and then nothing changes.
    pub fn store(
        &mut self,
        op: StoreOp,
        address: u32,
        offset: u32,
        value: u64,
    ) -> Result<(), OutOfBounds>
        ensures inside { is_ok result ≡ is_inside (address + offset) (length (stored_bytes op value)) self.old.bytes }
        ensures memory { self.new ≡ with_bytes self.old (put (address + offset) (stored_bytes op value) self.old.bytes) }
    {
        let at = effective(address, offset);
        checked(stores::store(&mut self.bytes, op, at, value))
    }

    /// Copies bytes from one place to another, also where both overlap.
    ///
    /// `OutOfBounds` comes exactly where either is not all inside, and then nothing changes. No bytes are inside up to the end.
    pub fn copy(&mut self, to: u32, from: u32, count: u32) -> Result<(), OutOfBounds>
        ensures inside { is_ok result ≡ (is_inside to count self.old.bytes && is_inside from count self.old.bytes) }
        ensures memory { self.new ≡ with_bytes self.old (copied to from count self.old.bytes) }
    {
        checked(bulk::copy(
            &mut self.bytes,
            u64::from(to),
            u64::from(from),
            u64::from(count),
        ))
    }

    /// Makes so many bytes from a place on all one byte.
    ///
    /// `OutOfBounds` comes exactly where they are not all inside, and then nothing changes. No bytes are inside up to the end.
    pub fn fill(&mut self, at: u32, byte: u8, count: u32) -> Result<(), OutOfBounds>
        ensures inside { is_ok result ≡ is_inside at count self.old.bytes }
        ensures memory { self.new ≡ with_bytes self.old (filled at byte count self.old.bytes) }
    {
        checked(bulk::fill(&mut self.bytes, u64::from(at), byte, u64::from(count)))
    }

    /// Writes bytes from a place on.
    ///
    /// `OutOfBounds` comes exactly where they are not all inside, and then nothing changes. No bytes are inside up to the end.
    pub fn write(&mut self, at: u32, bytes: &[u8]) -> Result<(), OutOfBounds>
        ensures inside { is_ok result ≡ is_inside at (length bytes.now) self.old.bytes }
        ensures memory { self.new ≡ with_bytes self.old (put at bytes.now self.old.bytes) }
    {
        checked(bulk::put(&mut self.bytes, u64::from(at), bytes))
    }

    /// All bytes.
    pub fn bytes(&self) -> &[u8]
        ensures value { result.now ≡ self.now.bytes }
        ensures sound { IsMemory self.now }
    {
        &self.bytes
    }

    /// All bytes, for writing.
    pub fn bytes_mut(&mut self) -> &mut [u8]
        ensures* writes_back { sem 𝓛 (lends_bytes self.entry result) }
        ensures value { result.now ≡ self.old.bytes }
    {
        &mut self.bytes
    }
}

/// The answer of a call whose bytes are all inside, or not.
fn checked(inside: bool) -> Result<(), OutOfBounds>
    ensures { is_ok result ≡ inside }
{
    if inside { Ok(()) } else { Err(OutOfBounds) }
}
