//! Lowering with the table of handles of a component instance.

ghost use Rattle.value_lower.specs.Entries.{new_of};
ghost use Rattle.value_lower.specs.Tables.{IsEntry, IsLowered};

use crate::beside::Beside;
use crate::ends::{LowerError, LowerWhy, RoomEnd};
use crate::new_entry::NewEntry;
use crate::room::Room;
use handle_table::Table;
use laid_types::NumberedType;
use res_handles::{Entry, Home, lower_borrow, lower_end, lower_own};
use std::alloc::Global;

/// Enters what is told by an index into a table, and answers the index (Component Model, CanonicalABI.md, `lower_own`, `lower_borrow`,
/// `lower_stream` and `lower_future`). A borrow of a resource that the instance defines is its representation and no entry.
///
/// # Errors
///
/// `TableFull` where 65,535 entries are live, and `Memory`. The table has the entries that it had.
pub fn lower_entry<E: Entry<EndType = usize> + Drop>(
    handles: &mut Table<E>,
    home: &Home<'_>,
    entry: NewEntry,
    t: &NumberedType<'_>,
) -> Result<u32, res_handles::LowerError>
    ensures { IsLowered (IsEntry E.made E.made_end home.now.task t.now.types) home.now.resources.now (new_of entry t.now.val_type) handles.old.slots result handles.new.slots }
{
    match entry {
        NewEntry::Own(handle) => lower_own(handles, handle.resource, handle.rep),
        NewEntry::Borrow(handle) => lower_borrow(handles, handle.resource, handle.rep, home),
        NewEntry::End(number) => {
            let end_type = t.number();
            lower_end(handles, &end_type, number)
        }
    }
}

impl<R: Room, E: Entry<EndType = usize> + Drop> Beside<R> for Table<E> {
    ghost use Rattle.handle_table.specs.Slots.{Slots};
    ghost use Rattle.value_lower.specs.Tables.{memory_in, answered, put_in, enters, entered, IsEntry};

    type Trap = R::Trap;

    ghost State = { R × Slots E };

    ghost state = { λ room handles. (room, handles.slots) };

    ghost memory = { memory_in R.memory };

    ghost answers = { answered R.answers };

    ghost wrote = { put_in R.wrote };

    ghost adds = { λ task types. enters (IsEntry E.made E.made_end task types) };

    ghost entering = { entered };

    fn size(&self, room: &R) -> u64 {
        room.size()
    }

    fn put(&self, room: &mut R, place: u32, bytes: &[u8]) {
        room.put(place, bytes);
    }

    fn realloc(
        &self,
        room: &mut R,
        alloc: Global,
        align: u32,
        size: u32,
    ) -> Result<u32, RoomEnd<R::Trap>> {
        room.realloc(alloc, 0, 0, align, size)
    }

    fn enter(
        &mut self,
        _room: &R,
        home: &Home<'_>,
        entry: NewEntry,
        t: &NumberedType<'_>,
    ) -> Result<u32, LowerError<R::Trap>> {
        match lower_entry(self, home, entry, t) {
            Ok(index) => Ok(index),
            Err(res_handles::LowerError::TableFull) => Err(LowerError::Failed(LowerWhy::TableFull)),
            Err(res_handles::LowerError::Memory) => Err(LowerError::Ended(RoomEnd::Memory)),
        }
    }
}
