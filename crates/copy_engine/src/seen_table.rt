//! A table of handles beside a room, which the code that gives out places sees.

ghost use Rattle.std.specs.Prelude.{◌≡◌};

use crate::hosted::{HostedRoom, HostedTrap, call_realloc};
use crate::memories::{put_in, size_in};
use crate::nested::realloc_in;
use crate::setting::Lowering;
use handle_table::Table;
use laid_types::NumberedType;
use res_handles::{Entry, Home};
use std::alloc::Global;
use value_lower::{Beside, LowerError, LowerWhy, NewEntry, RoomEnd, lower_entry};

/// The table of handles of the component instance into which values are lowered, which its code sees while it gives out places.
#[derive(Drop)]
pub(crate) struct SeenTable<'a, E: Entry<EndType = usize> + Drop> {
    /// The table.
    pub(crate) handles: Table<E>,
    /// Where values are lowered.
    pub(crate) to: Lowering<'a>,
}

impl<'a, E: Entry<EndType = usize> + Drop> Beside<HostedRoom> for SeenTable<'a, E> {
    ghost use Rattle.value_lower.specs.Tables.{entered, IsEntry};
    ghost use Rattle.copy_engine.specs.Answering.{setting_of};
    ghost use Rattle.copy_engine.specs.Hosted.{Set, set_at, set_memory, set_answers, set_wrote, set_adds};

    type Trap = HostedTrap;

    ghost State = { Set E };

    ghost state = { λ room beside. set_at (setting_of beside.to) room beside.handles.slots };

    ghost memory = { set_memory };

    ghost answers = { set_answers E.view };

    ghost wrote = { set_wrote };

    ghost adds = { λ task types. set_adds (IsEntry E.made E.made_end task types) };

    ghost entering = { entered };

    fn size(&self, room: &HostedRoom) -> u64 {
        size_in(&room.store, self.to.options.memory)
    }

    fn put(&self, room: &mut HostedRoom, place: u32, bytes: &[u8]) {
        put_in(&mut room.store, self.to.options.memory, place, bytes);
    }

    fn realloc(
        &self,
        room: &mut HostedRoom,
        alloc: Global,
        align: u32,
        size: u32,
    ) -> Result<u32, RoomEnd<HostedTrap>> {
        // Its clause says that the store is typed.
        let _before = room.store.function_count();
        let Some(address) = realloc_in(&room.store, self.to.options.realloc) else {
            return Err(RoomEnd::Trapped(HostedTrap::NoRealloc));
        };
        let words = [0, 0, u64::from(align), u64::from(size)];
        let place = call_realloc(alloc, room, &self.handles, &self.to, address, &words);
        let _behind = room.store.function_count();
        place
    }

    fn enter(
        &mut self,
        _room: &HostedRoom,
        home: &Home<'_>,
        entry: NewEntry,
        t: &NumberedType<'_>,
    ) -> Result<u32, LowerError<HostedTrap>> {
        match lower_entry(&mut self.handles, home, entry, t) {
            Ok(index) => Ok(index),
            Err(res_handles::LowerError::TableFull) => Err(LowerError::Failed(LowerWhy::TableFull)),
            Err(res_handles::LowerError::Memory) => Err(LowerError::Ended(RoomEnd::Memory)),
        }
    }
}
