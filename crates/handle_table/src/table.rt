//! A table of handles.

ghost use Rattle.std.specs.Prelude.{◌≡◌, ℕ, ◌+◌, ◌<◌, ◌≤◌, List, [], ◌∷◌, Some, None, IsSome, IsTrue, MatchResult, MatchOption, IfOk, OnOk, OnSome, option_copied, is_some, IsOk, length};
ghost use Rattle.std.specs.Option.{option_copied_mut};
ghost use Rattle.std.specs.Borrow.{sem};
ghost use Rattle.std.specs.List.{filter, range_with_len};
ghost use Rattle.handle_table.specs.History.{Event, Add, Remove, live, greatest, next_index, live_count, most_live};
ghost use Rattle.handle_table.specs.Slots.{no_slots, entry_at, live_indices, count, next_of, removed, StandsFor};
ghost use Rattle.handle_table.specs.Calls.{Added, NotAdded};

use crate::refusal::{AddError, Full};
use crate::slot::Slot;
use std::alloc::{AllocError, Global};
use std::marker::Model;
use std::mem;

/// The greatest number of live entries.
const MOST_LIVE: u32 = 65_535;

/// Entries by their indices, from 1 on. An index that was removed is given again, the one removed last first.
#[derive(Drop)]
pub struct Table<T> {
    // The slot of index 1, of index 2, and so on. Each free one holds the index that was removed before its own.
    slots: Vec<Slot<T>>,
    // The index that was removed last and not given again. Where no slot is free it is not read.
    last_freed: u32,
    // How many slots have an entry.
    live: u32,
}

impl<T> Model for Table<T> {
    ghost use Rattle.std.specs.Prelude.{◌-◌, vec_capacity};
    ghost use Rattle.handle_table.specs.Slots.{TableState, table_code};

    ghost Value = { TableState T };

    ghost coded = { table_code T.code };

    ghost use Rattle.handle_table.specs.Chains.{shown};
    ghost use Rattle.handle_table.specs.Sound.{IsTable};

    ghost view = { λ t. record { slots = shown t.slots.items t.last_freed t.live; spare = vec_capacity t.slots - t.live } };

    ghost invariant = { λ t. IsTable (shown t.slots.items t.last_freed t.live) t.live };
}

impl<T: Drop> Table<T> {
    ghost use Rattle.handle_table.specs.Lends.{lends_entry, lends_live_entry};

    /// An empty table. This takes no memory yet.
    pub fn new(alloc: Global) -> Table<T>
        ensures exact { result.slots ≡ no_slots }
        ensures stands { StandsFor [] result.slots }
    {
        Table {
            slots: Vec::new(alloc),
            last_freed: 0,
            live: 0,
        }
    }

    /// The number of live entries.
    pub fn len(&self) -> u32
        ensures exact { result ≡ count self.now.slots }
        ensures limit { result ≤ most_live }
        ensures stands { (h : List (Event T)) → StandsFor h self.now.slots → result ≡ live_count h }
    {
        self.live
    }

    /// Makes sure that one more entry can be added without memory.
    pub fn reserve(&mut self) -> Result<(), AllocError>
        ensures exact { self.new.slots ≡ self.old.slots }
        ensures room { OnOk result (1 ≤ self.new.spare) }
        ensures spare { self.old.spare ≤ self.new.spare }
        ensures succeeds { 1 ≤ self.old.spare → IsOk result }
        ensures stands { (h : List (Event T)) → StandsFor h self.old.slots → StandsFor h self.new.slots }
    {
        if self.live as usize == self.slots.len() {
            self.slots.reserve(1)?;
        }
        Ok(())
    }

    /// Adds an entry and answers its index: the one that was removed last and not given again, else one more than the
    /// greatest ever given. With 65,535 live entries it is `Full`, and nothing changes; where nothing is reserved and there
    /// is no memory it is `Memory`, and no entry changes.
    pub fn add(&mut self, entry: T) -> Result<u32, AddError<T>>
        ensures exact { MatchResult result (λ i. Added self.old entry i self.new) (λ e. NotAdded self.old entry e self.new) }
        ensures limit { IfOk result (λ i. (1 ≤ i) × (i ≤ most_live)) }
        ensures stands { (h : List (Event T)) → StandsFor h self.old.slots → MatchResult result (λ i. (i ≡ next_index h) × StandsFor (Add (next_index h) entry ∷ h) self.new.slots) (λ _. StandsFor h self.new.slots) }
    {
        if self.live == MOST_LIVE {
            return Err(AddError::Full(entry));
        }
        if self.reserve().is_err() {
            return Err(AddError::Memory(entry));
        }
        Ok(self.place(entry))
    }

    /// Adds an entry as `add` does, where room for one is reserved. This takes no memory.
    pub fn add_reserved(&mut self, entry: T) -> Result<u32, Full<T>>
        requires { 1 ≤ self.old.spare }
        ensures exact { MatchResult result (λ i. Added self.old entry i self.new) (λ full. (count self.old.slots ≡ most_live) × (full.entry ≡ entry) × (self.new ≡ self.old)) }
        ensures limit { IfOk result (λ i. (1 ≤ i) × (i ≤ most_live)) }
        ensures stands { (h : List (Event T)) → StandsFor h self.old.slots → MatchResult result (λ i. (i ≡ next_index h) × StandsFor (Add (next_index h) entry ∷ h) self.new.slots) (λ _. StandsFor h self.new.slots) }
    {
        if self.live == MOST_LIVE {
            return Err(Full { entry });
        }
        Ok(self.place(entry))
    }

    /// The index that the next add is given.
    pub fn next(&self) -> u32
        ensures exact { result ≡ next_of self.now.slots }
        ensures stands { (h : List (Event T)) → StandsFor h self.now.slots → result ≡ next_index h }
    {
        if self.live as usize == self.slots.len() {
            self.live + 1
        } else {
            self.last_freed
        }
    }

    /// The greatest index that was ever given, 0 where none was.
    #[tactic(auto, using(crate::proofs::Walking::shows_greatest))]
    pub fn greatest(&self) -> u32
        ensures exact { result ≡ length self.now.slots.entries }
        ensures limit { result ≤ most_live }
        ensures stands { (h : List (Event T)) → StandsFor h self.now.slots → result ≡ greatest h }
    {
        self.given()
    }

    /// The indices at which an entry is live, rising. It fails for want of memory alone.
    pub fn indices(&self, alloc: Global) -> Result<Vec<u32>, AllocError>
        ensures exact { IfOk result (λ indices. indices.items ≡ live_indices self.now.slots) }
        ensures stands { (h : List (Event T)) → StandsFor h self.now.slots → IfOk result (λ indices. indices.items ≡ filter (λ index. is_some (live h index)) (range_with_len 1 (greatest h))) }
    {
        self.walk(alloc)
    }

    /// The live entry at an index, if there is one.
    pub fn get(&self, index: u32) -> Option<&T>
        ensures exact { option_copied result ≡ entry_at self.now.slots index }
        ensures stands { (h : List (Event T)) → StandsFor h self.now.slots → option_copied result ≡ live h index }
    {
        let place = index.checked_sub(1)?;
        self.slots.get(place as usize)?.entry()
    }

    /// The live entry at an index for writing, if there is one.
    pub fn get_mut(&mut self, index: u32) -> Option<&mut T>
        ensures* writes_back { sem 𝓛 (lends_entry T.row self.entry index result) }
        ensures exact { option_copied_mut result ≡ entry_at self.old.slots index }
    {
        if self.is_live(index) {
            Some(self.entry_mut(index))
        } else {
            None
        }
    }

    /// Removes the live entry at an index, and answers it. Where none is live nothing changes. This takes no memory.
    pub fn remove(&mut self, index: u32) -> Option<T>
        ensures value { result ≡ entry_at self.old.slots index }
        ensures exact { MatchOption result (self.new ≡ self.old) (λ _. self.new.slots ≡ removed index self.old.slots) }
        ensures spare { OnSome result (self.old.spare + 1 ≤ self.new.spare) }
        ensures stands { (h : List (Event T)) → StandsFor h self.old.slots → MatchOption result (StandsFor h self.new.slots) (λ _. StandsFor (Remove index ∷ h) self.new.slots) }
    {
        if !self.is_live(index) {
            return None;
        }
        let slot = mem::replace(
            &mut self.slots[index as usize - 1],
            Slot::Free(self.last_freed),
        );
        self.last_freed = index;
        self.live -= 1;
        slot.into_entry()
    }

    /// The entry that is live at an index, for writing.
    fn entry_mut(&mut self, index: u32) -> &mut T
        requires { IsSome (entry_at self.old.slots index) }
        ensures* writes_back { sem 𝓛 (lends_live_entry T.row self.entry index result) }
        ensures value { entry_at self.old.slots index ≡ Some result.now }
    {
        self.slots[index as usize - 1].entry_mut()
    }

    /// How many indices were ever given.
    fn given(&self) -> u32
        ensures exact { result ≡ length self.now.slots.entries }
        ensures limit { result ≤ most_live }
    {
        self.slots.len() as u32
    }

    /// The indices at which an entry is live.
    fn walk(&self, alloc: Global) -> Result<Vec<u32>, AllocError>
        ensures { IfOk result (λ indices. indices.items ≡ live_indices self.now.slots) }
    {
        let mut indices = Vec::new(alloc);
        for index in 1..self.given() + 1 {
            if self.is_live(index) {
                indices.push(index)?;
            }
        }
        Ok(indices)
    }

    /// Whether an entry is live at an index.
    fn is_live(&self, index: u32) -> bool
        ensures { result ≡ is_some (entry_at self.now.slots index) }
    {
        matches!(self.get(index), Some(_))
    }

    /// Puts an entry into the slot that was removed last, or a new one.
    fn place(&mut self, entry: T) -> u32
        requires few { count self.old.slots < most_live }
        requires room { 1 ≤ self.old.spare }
        ensures exact { Added self.old entry result self.new }
        ensures limit { (1 ≤ result) × (result ≤ most_live) }
    {
        if self.live as usize == self.slots.len() {
            self.live += 1;
            self.slots.push_reserved(Slot::Live(entry));
            return self.live;
        }
        let index = self.last_freed;
        let before = self.slots[index as usize - 1].freed_before();
        self.slots[index as usize - 1] = Slot::Live(entry);
        self.last_freed = before;
        self.live += 1;
        index
    }
}
