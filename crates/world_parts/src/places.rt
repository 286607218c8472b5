//! Memories of core instances.

ghost use Rattle.std.specs.Prelude.{◌≡◌, ◌≤◌, ◌+◌, length};
ghost use Rattle.world_parts.specs.Held.{Does, held};
ghost use Rattle.world_parts.specs.Places.{memory_of, bytes_in, bytes_at, with_bytes_in, written, bytes_put};

use crate::parts::{Part, Parts, Stop};
use comp_graph::Options;
use wasm_store::Store;

impl Parts {
    /// The address of the memory that options name, where they name one.
    pub fn memory_of(&self, options: &Options) -> Option<usize>
        ensures { result ≡ memory_of options.now (held self.now) }
    {
        match options.memory {
            Some(at) => match self.memories.get(at.instance as usize) {
                Some(memory) => *memory,
                None => None,
            },
            None => None,
        }
    }

    /// How many bytes the memory at an address has; none where there is no memory.
    pub fn memory_size(&self, memory: Option<usize>) -> u64
        ensures { result ≡ length (bytes_at memory self.now.store) }
    {
        match memory {
            Some(address) => size_in(&self.store, address),
            None => 0,
        }
    }

    /// Puts bytes into the memory at an address. They are to be inside.
    pub fn put(&mut self, memory: Option<usize>, place: u32, bytes: &[u8]) -> Part<()>
        ensures { Does (bytes_put memory place bytes.now) self.old result self.new }
    {
        let Some(address) = memory else {
            return Err(Stop::Stuck);
        };
        if u64::from(place) + bytes.len() as u64 <= size_in(&self.store, address) {
            put_in(&mut self.store, address, place, bytes);
            Ok(())
        } else {
            Err(Stop::Stuck)
        }
    }
}

/// How many bytes the memory at an address has; none where there is no memory.
fn size_in(store: &Store, address: usize) -> u64
    ensures { result ≡ length (bytes_in address store.now) }
{
    if address < store.memory_count() {
        store.memory(address).len() as u64
    } else {
        0
    }
}

/// Puts bytes into the memory at an address.
fn put_in(store: &mut Store, address: usize, place: u32, bytes: &[u8])
    requires inside { place + length bytes.now ≤ length (bytes_in address store.old) }
    ensures { store.new ≡ with_bytes_in address (written place bytes.now (bytes_in address store.old)) store.old }
{
    if address < store.memory_count() {
        let place = place as usize;
        let to = store.memory_mut(address);
        to[place..place + bytes.len()].copy_from_slice(bytes);
    }
}
