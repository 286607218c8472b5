//! What an instance's indices mean.

ghost use Rattle.std.specs.Prelude.{◌≡◌, Some};
ghost use Rattle.std.specs.List.{slice_get};
ghost use Rattle.std.specs.Option.{IsSome};
ghost use Rattle.wasm_memory.specs.Memories.{MemoryState};
ghost use Rattle.wasm_store.specs.Store.{Instance, Global, memory_at, global_at};

use crate::store::Store;

impl Store {
    /// The address of the memory of an instance.
    #[inline]
    pub(crate) fn memory_address(&self, instance: usize) -> usize
        requires { (i : Instance) × (slice_get self.now.instances instance ≡ Some i) × IsSome (memory_at 0 i self.now) }
        ensures { (m : MemoryState) × (slice_get self.now.memories result ≡ Some m) × ((i : Instance) → slice_get self.now.instances instance ≡ Some i → memory_at 0 i self.now ≡ Some (result, m)) }
    {
        self.instances[instance].memories.as_slice()[0]
    }

    /// The address of a global of an instance.
    #[inline]
    pub(crate) fn global_address(&self, instance: usize, index: u32) -> usize
        requires { (i : Instance) × (slice_get self.now.instances instance ≡ Some i) × IsSome (global_at index i self.now) }
        ensures { (g : Global) × (slice_get self.now.globals result ≡ Some g) × ((i : Instance) → slice_get self.now.instances instance ≡ Some i → global_at index i self.now ≡ Some (result, g)) }
    {
        self.instances[instance].globals.as_slice()[index as usize]
    }
}

/// The address at an index, where there is one.
pub(crate) fn address_at(addresses: &[usize], index: u32) -> Option<usize>
    ensures { result ≡ slice_get addresses.now index }
{
    addresses.get(index as usize).copied()
}
