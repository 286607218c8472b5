//! Entries that come and go.

ghost use Rattle.std.specs.Prelude.{◌≡◌, ◌≤◌, IfOk, IsSome, MatchOption, is_some};
ghost use Rattle.handle_table.specs.History.{most_live};
ghost use Rattle.handle_table.specs.Slots.{no_slots};
ghost use Rattle.instances.specs.Entries.{any_end_in};
ghost use Rattle.instances.specs.Instances.{entry_of, with_slots, entry_removed, entry_changed, idled};
ghost use Rattle.instances.specs.Calls.{AddGives};

use crate::entry::WorldEntry;
use crate::instance::Instance;
use handle_table::{AddError, Table};
use res_handles::LowerError;
use std::alloc::Global;
use std::mem;

impl Instance {
    /// Adds an entry, and answers its index, 1 to 65,535: the one that was removed last and not given again, else one more than the
    /// greatest ever given.
    ///
    /// # Errors
    ///
    /// `TableFull` exactly where 65,535 entries are live, and `Memory`. The instance is as it was.
    pub fn add(&mut self, entry: WorldEntry) -> Result<u32, LowerError>
        ensures exact { AddGives entry self.old result self.new }
        ensures limit { IfOk result (λ index. (1 ≤ index) × (index ≤ most_live)) }
    {
        match self.table.add(entry) {
            Ok(index) => Ok(index),
            Err(AddError::Full(_)) => Err(LowerError::TableFull),
            Err(AddError::Memory(_)) => Err(LowerError::Memory),
        }
    }

    /// Removes what stands at an index, and answers it. Where nothing stands nothing changes.
    pub fn remove(&mut self, index: u32) -> Option<WorldEntry>
        ensures value { result ≡ entry_of self.old index }
        ensures exact { MatchOption result (self.new ≡ self.old) (λ _. self.new ≡ entry_removed index self.old) }
    {
        self.table.remove(index)
    }

    /// Says of the end at an index whether it is idle. Where no end stands nothing changes, and the answer is false.
    pub fn set_idle(&mut self, index: u32, is_idle: bool) -> bool
        ensures value { result ≡ is_some (any_end_in (entry_of self.old index)) }
        ensures exact { self.new ≡ idled index is_idle self.old }
    {
        match self.entry(index) {
            Some(WorldEntry::End(end)) => {
                self.change(index, WorldEntry::End(end.with_idle(is_idle)));
                true
            }
            Some(_) => false,
            None => false,
        }
    }

    /// Puts an entry in the place of the one at an index.
    fn change(&mut self, index: u32, entry: WorldEntry)
        requires { IsSome (entry_of self.old index) }
        ensures { self.new ≡ entry_changed index entry self.old }
    {
        let Some(place) = self.table.get_mut(index) else {
            unreachable!()
        };
        *place = entry;
    }

    /// Takes the table out, and leaves an empty one. This takes no memory.
    pub fn take_table(&mut self, alloc: Global) -> Table<WorldEntry>
        ensures value { result.slots ≡ self.old.slots }
        ensures exact { self.new ≡ with_slots no_slots self.old }
    {
        mem::replace(&mut self.table, Table::new(alloc))
    }

    /// Puts a table in the place of the instance's own.
    pub fn put_table(&mut self, table: Table<WorldEntry>)
        ensures { self.new ≡ with_slots table.slots self.old }
    {
        self.table = table;
    }
}
