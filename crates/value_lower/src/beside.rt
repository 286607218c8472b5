//! What stands beside a room.

use crate::ends::{LowerError, RoomEnd};
use crate::new_entry::NewEntry;
use laid_types::NumberedType;
use res_handles::Home;
use std::alloc::Global;

/// What stands beside a room while values are lowered, and enters handles and ends: the table of handles of the component instance, or
/// nothing. It asks the room for places, so that a room may be asked by one that shows it the table.
///
/// Contracts see the state of both, `state`, and of it what is said of rooms: `memory`, `answers`, `wrote` and, for a task and where the
/// types of ends are told by their numbers among these, `adds`. `entering` says how a plan goes on with the index of what is new, by the
/// resources that the instance defines.
pub trait Beside<R> {
    ghost use Rattle.std.specs.Prelude.{◌≡◌, ◌+◌, ◌≤◌, ◌^◌, ◌++◌, ℕ, List, length, take, drop, Option, Result};
    ghost use Rattle.syntax_trees.specs.declared.types.ValType.{ValType};
    ghost use Rattle.value_lower.specs.declared.ends.RoomEnd.{RoomEnd};
    ghost use Rattle.value_lower.specs.Plan.{Ask, New, Plan};
    ghost use Rattle.value_lower.specs.Following.{Runs, rooms_of};
    ghost use Rattle.value_lower.specs.Entries.{new_of};

    /// Why code of the guest trapped.
    type Trap: Drop;

    ghost State: { Type 0 };

    ghost state: { R → Self → State };

    ghost memory: { State → List ℕ };

    ghost answers: { State → Ask → Result ℕ (RoomEnd Self.Trap) → State → Type 0 };

    ghost wrote: { State → ℕ → List ℕ → State → Type 0 };

    ghost adds: { ℕ → List ValType → State → New → Option ℕ → State → Type 0 };

    ghost entering: { List ℕ → New → (ℕ → Plan) → Plan };

    /// How many bytes the memory of the room has, at most 2^32.
    fn size(&self, room: &R) -> u64
        ensures value { result ≡ length (memory (state room.now self.now)) }
        ensures most { result ≤ 2 ^ 32 };

    /// Puts bytes at a place of the memory. All other bytes stay as they are.
    fn put(&self, room: &mut R, place: u32, bytes: &[u8])
        requires inside { place + length bytes.now ≤ length (memory (state room.old self.now)) }
        ensures memory { memory (state room.new self.now) ≡ take place (memory (state room.old self.now)) ++ bytes.now ++ drop (place + length bytes.now) (memory (state room.old self.now)) }
        ensures size { length (memory (state room.new self.now)) ≡ length (memory (state room.old self.now)) }
        ensures wrote { wrote (state room.old self.now) place bytes.now (state room.new self.now) };

    /// A new place for so many bytes, as the room gives it.
    ///
    /// # Errors
    ///
    /// As for the room's `realloc`.
    fn realloc(
        &self,
        room: &mut R,
        alloc: Global,
        align: u32,
        size: u32,
    ) -> Result<u32, RoomEnd<Self::Trap>>
        ensures answers { answers (state room.old self.now) (record { old = 0; old_size = 0; align = align; size = size }) result (state room.new self.now) }
        ensures grows { length (memory (state room.old self.now)) ≤ length (memory (state room.new self.now)) };

    /// Enters what is told by an index, and answers the index.
    ///
    /// # Errors
    ///
    /// `TableFull` where the table has 65,535 live entries, and want of memory.
    fn enter(
        &mut self,
        room: &R,
        home: &Home<'_>,
        entry: NewEntry,
        t: &NumberedType<'_>,
    ) -> Result<u32, LowerError<Self::Trap>>
        ensures follows { (k : ℕ → Plan) → Runs (rooms_of memory answers wrote (adds home.now.task t.now.types)) (entering home.now.resources.now (new_of entry t.now.val_type) k) k (state room.now self.old) result (state room.now self.new) }
        ensures memory { memory (state room.now self.new) ≡ memory (state room.now self.old) };
}
