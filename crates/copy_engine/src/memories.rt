//! The bytes of a memory of a store.

ghost use Rattle.std.specs.Prelude.{◌≡◌, ◌≤◌, ◌+◌, ◌^◌, length};
ghost use Rattle.value_lower.specs.Following.{written};
ghost use Rattle.copy_engine.specs.Nested.{bytes_in, with_bytes_in};

use wasm_store::Store;

/// The bytes of the memory at an address: none where no memory is there.
pub(crate) fn bytes_of(store: &Store, memory: usize) -> &[u8]
    ensures { result.now ≡ bytes_in memory store.now }
{
    if memory < store.memory_count() {
        store.memory(memory)
    } else {
        &[]
    }
}

/// How many bytes the memory at an address has: none where no memory is there.
pub(crate) fn size_in(store: &Store, memory: usize) -> u64
    ensures value { result ≡ length (bytes_in memory store.now) }
    ensures most { result ≤ 2 ^ 32 }
{
    // Its clause says that the store is typed.
    let _count = store.function_count();
    if memory < store.memory_count() {
        store.memory(memory).len() as u64
    } else {
        0
    }
}

/// Puts bytes into the memory at an address.
pub(crate) fn put_in(store: &mut Store, memory: usize, place: u32, bytes: &[u8])
    requires inside { place + length bytes.now ≤ length (bytes_in memory store.old) }
    ensures { store.new ≡ with_bytes_in memory (written place bytes.now (bytes_in memory store.old)) store.old }
{
    if memory < store.memory_count() {
        let place = place as usize;
        let to = store.memory_mut(memory);
        to[place..place + bytes.len()].copy_from_slice(bytes);
    }
}
