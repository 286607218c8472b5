//! The bytes of memories.

ghost use Rattle.std.specs.Prelude.{◌≡◌};
ghost use Rattle.world_parts.specs.Places.{bytes_in, bytes_at};

use wasm_store::Store;

/// The bytes of the memory at an address; none where there is no memory.
pub(crate) fn bytes_at(store: &Store, memory: Option<usize>) -> &[u8]
    ensures { result.now ≡ bytes_at memory store.now }
{
    match memory {
        Some(address) => bytes_in(store, address),
        None => &[],
    }
}

/// The bytes of the memory at an address; none where no memory is there.
#[tactic(auto, using(crate::proofs::Bytes::bytes_there, crate::proofs::Bytes::bytes_not_there))]
fn bytes_in(store: &Store, address: usize) -> &[u8]
    ensures { result.now ≡ bytes_in address store.now }
{
    if address < store.memory_count() {
        store.memory(address)
    } else {
        &[]
    }
}
