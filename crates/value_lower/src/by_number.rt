//! Lowering without a table.

use crate::beside::Beside;
use crate::ends::{LowerError, RoomEnd};
use crate::new_entry::NewEntry;
use crate::room::Room;
use laid_types::NumberedType;
use res_handles::Home;
use std::alloc::Global;

/// Nothing stands beside the room. Handles and ends are told by the numbers that they have.
#[derive(Drop)]
pub(crate) struct ByNumber;

impl<R: Room> Beside<R> for ByNumber {
    ghost use Rattle.value_lower.specs.Following.{no_table};
    ghost use Rattle.value_lower.specs.Lowering.{plainly};

    type Trap = R::Trap;

    ghost State = { R };

    ghost state = { λ room number. room };

    ghost memory = { R.memory };

    ghost answers = { R.answers };

    ghost wrote = { R.wrote };

    ghost adds = { λ task types. no_table };

    ghost entering = { λ home. plainly };

    fn size(&self, room: &R) -> u64 {
        room.size()
    }

    fn put(&self, room: &mut R, place: u32, bytes: &[u8]) {
        room.put(place, bytes);
    }

    fn realloc(
        &self,
        room: &mut R,
        alloc: Global,
        align: u32,
        size: u32,
    ) -> Result<u32, RoomEnd<R::Trap>> {
        room.realloc(alloc, 0, 0, align, size)
    }

    fn enter(
        &mut self,
        _room: &R,
        _home: &Home<'_>,
        entry: NewEntry,
        _t: &NumberedType<'_>,
    ) -> Result<u32, LowerError<R::Trap>> {
        Ok(entry.number())
    }
}
