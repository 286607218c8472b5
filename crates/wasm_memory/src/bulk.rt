//! Bytes that are put, copied and filled (Core 2.0, section 4.4.7).

ghost use Rattle.std.specs.Prelude.{◌≡◌, ◌&&◌, length};
ghost use Rattle.wasm_memory.specs.Bytes.{is_inside, put, copied, filled};

use crate::bounds::is_inside;

/// Puts bytes from a place on, where they are all inside, and answers whether they are.
pub(crate) fn put(memory: &mut [u8], at: u64, bytes: &[u8]) -> bool
    ensures inside { result ≡ is_inside at (length bytes.now) memory.old }
    ensures after { memory.new ≡ put at bytes.now memory.old }
{
    if !is_inside(memory, at, bytes.len() as u64) {
        return false;
    }
    let at = at as usize;
    memory[at..at + bytes.len()].copy_from_slice(bytes);
    true
}

/// Copies bytes from one place to another, where both are inside, as if they were read before any is written, and answers
/// whether they are.
pub(crate) fn copy(memory: &mut [u8], to: u64, from: u64, count: u64) -> bool
    ensures inside { result ≡ (is_inside to count memory.old && is_inside from count memory.old) }
    ensures after { memory.new ≡ copied to from count memory.old }
{
    if !is_inside(memory, to, count) || !is_inside(memory, from, count) {
        return false;
    }
    let from = from as usize;
    memory.copy_within(from..from + count as usize, to as usize);
    true
}

/// Makes bytes from a place on all one byte, where they are inside, and answers whether they are.
pub(crate) fn fill(memory: &mut [u8], at: u64, byte: u8, count: u64) -> bool
    ensures inside { result ≡ is_inside at count memory.old }
    ensures after { memory.new ≡ filled at byte count memory.old }
{
    if !is_inside(memory, at, count) {
        return false;
    }
    let at = at as usize;
    memory[at..at + count as usize].fill(byte);
    true
}
