//! Bounds.

ghost use Rattle.std.specs.Prelude.{◌≡◌, ◌+◌, length};
ghost use Rattle.wasm_memory.specs.Bytes.{is_inside};

use thiserror::Error;

/// Bytes that a call asks for are not all inside the memory.
#[derive(Clone, Copy, Debug, Error)]
#[error("bytes outside the memory")]
pub struct OutOfBounds;

/// Whether so many bytes from a place on are inside.
#[inline]
pub(crate) fn is_inside(memory: &[u8], at: u64, count: u64) -> bool
    ensures { result ≡ is_inside at count memory.now }
{
    let len = memory.len() as u64;
    count <= len && at <= len - count
}

/// The place that an instruction means: its offset is added to its operand, and the sum may pass 2^32.
#[inline]
pub(crate) fn effective(address: u32, offset: u32) -> u64
    ensures { result ≡ address + offset }
{
    u64::from(address) + u64::from(offset)
}
