//! Rooms.

ghost use Rattle.std.specs.Prelude.{◌≡◌, ◌+◌, ◌≤◌, ◌^◌, ◌++◌, length, take, drop};

use crate::ends::RoomEnd;
use std::alloc::Global;

/// Where values are lowered: the memory of a component instance, with the instance's code that gives out places in it.
///
/// Contracts see the memory; `answers` says of each realloc what may be answered and how the room is then, `wrote` how it is after a
/// store. So a room may keep more than its memory. What a plan comes to in a room also has what the calls below say of the memory and of
/// places, so a room need not say it again.
pub trait Room {
    ghost use Rattle.std.specs.Prelude.{ℕ, List, Result};
    ghost use Rattle.value_lower.specs.declared.ends.RoomEnd.{RoomEnd};
    ghost use Rattle.value_lower.specs.Plan.{Ask};

    /// Why code of the guest trapped.
    type Trap: Drop;

    ghost memory: { Self → List ℕ };

    ghost answers: { Self → Ask → Result ℕ (RoomEnd Self.Trap) → Self → Type 0 };

    ghost wrote: { Self → ℕ → List ℕ → Self → Type 0 };

    /// How many bytes the memory has, at most 2^32.
    fn size(&self) -> u64
        ensures value { result ≡ length (memory self.now) }
        ensures most { result ≤ 2 ^ 32 };

    /// Puts bytes at a place. All other bytes stay as they are.
    fn put(&mut self, place: u32, bytes: &[u8])
        requires inside { place + length bytes.now ≤ length (memory self.old) }
        ensures memory { memory self.new ≡ take place (memory self.old) ++ bytes.now ++ drop (place + length bytes.now) (memory self.old) }
        ensures size { length (memory self.new) ≡ length (memory self.old) }
        ensures wrote { wrote self.old place bytes.now self.new };

    /// A new place for so many bytes, at a multiple of an alignment, in place of an old one: the call of the realloc of the canonical
    /// options. Whether the place fits is not said: whoever asks tests it. The memory gets no shorter.
    ///
    /// # Errors
    ///
    /// `Trapped` where the guest's code traps, `NoFuel` where there is no unit left, and `Memory` for want of memory of the program.
    fn realloc(
        &mut self,
        alloc: Global,
        old: u32,
        old_size: u32,
        align: u32,
        size: u32,
    ) -> Result<u32, RoomEnd<Self::Trap>>
        ensures answers { answers self.old (record { old = old; old_size = old_size; align = align; size = size }) result self.new }
        ensures grows { length (memory self.old) ≤ length (memory self.new) };
}
