//! A slot of a table.

ghost use Rattle.std.specs.Prelude.{◌≡◌, Some, IsSome, option_copied};
ghost use Rattle.std.specs.Borrow.{sem};
ghost use Rattle.handle_table.specs.Chains.{entry_of, freed_before};
ghost use Rattle.handle_table.specs.SlotLends.{lends_entry_of};

/// A slot of a table.
#[derive(Drop)]
pub enum Slot<T> {
    /// The slot has a live entry.
    Live(T),
    /// The slot is free. It holds the index that was removed before its own and not given again, or 0 where there is none.
    Free(u32),
}

impl<T: Drop> Slot<T> {
    /// The entry of the slot, if it has one.
    pub fn entry(&self) -> Option<&T>
        ensures { option_copied result ≡ entry_of self.now }
    {
        match self {
            Slot::Live(entry) => Some(entry),
            Slot::Free(_) => None,
        }
    }

    /// The entry of a slot that has one, for writing.
    pub fn entry_mut(&mut self) -> &mut T
        requires { IsSome (entry_of self.old) }
        ensures* writes_back { sem 𝓛 (lends_entry_of T.row self.entry result) }
        ensures value { entry_of self.old ≡ Some result.now }
    {
        match self {
            Slot::Live(entry) => entry,
            Slot::Free(_) => unreachable!(),
        }
    }

    /// The entry of the slot, if it has one.
    pub fn into_entry(self) -> Option<T>
        ensures { result ≡ entry_of self }
    {
        match self {
            Slot::Live(entry) => Some(entry),
            Slot::Free(_) => None,
        }
    }

    /// The index that was removed before the slot's own and not given again, where the slot is free.
    pub fn freed_before(&self) -> u32
        ensures { result ≡ freed_before self.now }
    {
        match self {
            Slot::Live(_) => 0,
            Slot::Free(index) => *index,
        }
    }
}
