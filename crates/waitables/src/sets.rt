//! The sets of an instance.

ghost use Rattle.std.specs.Prelude.{◌≡◌, ℕ, ◌+◌, ◌<◌, ◌^◌, ◌++◌, ◌∷◌, [], length, not, OnOk, OnErr, IfOk, IfSome, List};
ghost use Rattle.waitables.specs.Sets.{no_set, set_at, left, joined, ready_of, is_none, waited_on, waited_off, drop_answer};
ghost use Rattle.waitables.specs.Placing.{timed, waits, times_out, times_with, time_in, is_in, AreTold};
ghost use Rattle.std.specs.BTreeMap.{get, insert_entry};
ghost use Rattle.std.specs.List.{list_any};
ghost use Rattle.std.specs.Ordering.{nat_cmp};
ghost use Rattle.waitables.specs.History.{Event, Made, Joins, Leaves, Waits, Goes, StandsFor};

use crate::Nums;
use crate::members::Members;
use crate::place::Place;
use crate::refusal::SetRefusal;
use faults::Memory;
use std::alloc::Global;
use std::collections::BTreeMap;
use std::marker::Model;

/// A set.
#[derive(Drop)]
struct WaitableSet {
    /// The members by the times at which they joined.
    by_time: BTreeMap<u64, u32>,
    /// How many tasks wait on it.
    waiters: u64,
}

/// The waitable sets of a component instance. They are numbered from 0 as they are made, and a number isn't given again.
/// A waitable is named by a number of the caller's.
///
/// The costs: `join`, `leave` and each entry of a list of told waitables cost about the logarithm of the number of
/// waitables; the number of sets and of their members doesn't matter to them, nor to the other calls but those that
/// answer a list. `make`, `join`, `ready` and a list of members take memory, all else takes none.
#[derive(Drop)]
pub struct Sets {
    sets: Vec<WaitableSet>,
    places: BTreeMap<u32, Place>,
    /// The time of the next joining.
    clock: u64,
}

impl Model for Sets {
    ghost use Rattle.std.specs.Prelude.{List};
    ghost use Rattle.waitables.specs.Sets.{SetView};

    ghost Value = { List SetView };

    ghost use Rattle.waitables.specs.Placing.{shown, Placed};

    ghost view = { λ s. shown s.sets.items };

    ghost invariant = { λ s. Placed s.sets.items s.places s.clock };
}

impl Sets {
    /// No sets. It takes no memory.
    #[tactic(auto, using(crate::proofs::Standing::none_stand))]
    pub fn new(alloc: Global) -> Sets
        ensures exact { result ≡ [] }
        ensures stands { StandsFor [] result }
    {
        Sets {
            sets: Vec::new(alloc),
            places: BTreeMap::new(alloc),
            clock: 0,
        }
    }

    /// How many sets were made.
    pub fn len(&self) -> u64
        ensures exact { result ≡ length self.now }
    {
        self.sets.len() as u64
    }

    /// Makes a set, without members, and answers its number. After `Memory` the sets are as they were.
    #[tactic(auto, using(crate::proofs::Showing::made_shown))]
    pub fn make(&mut self, alloc: Global) -> Result<u64, Memory>
        ensures number { IfOk result (λ number. number ≡ length self.old) }
        ensures exact { OnOk result (self.new ≡ self.old ++ no_set ∷ []) }
        ensures stands { OnOk result ((h : List Event) → StandsFor h self.old → StandsFor (h ++ Made ∷ []) self.new) }
        ensures memory { OnErr result (self.new ≡ self.old) }
    {
        let number = self.sets.len() as u64;
        self.sets.push(WaitableSet {
            by_time: BTreeMap::new(alloc),
            waiters: 0,
        })?;
        Ok(number)
    }

    /// Lets a waitable leave the set that it is in, and join this one as the last member. After `Memory` the sets are as
    /// they were. `Memory` comes also where 2^64 - 1 waitables have joined before.
    pub fn join(&mut self, waitable: u32, set: u64) -> Result<(), Memory>
        requires { set < length self.old }
        ensures exact { OnOk result (self.new ≡ joined waitable set self.old) }
        ensures stands { OnOk result ((h : List Event) → StandsFor h self.old → StandsFor (h ++ Joins waitable set ∷ []) self.new) }
        ensures memory { OnErr result (self.new ≡ self.old) }
    {
        let time = self.clock;
        let Some(next) = time.checked_add(1) else {
            return Err(Memory);
        };
        let place = Place { set, time };
        put_in(&mut self.sets, waitable, place)?;
        match self.places.insert(waitable, place) {
            Ok(before) => {
                self.clock = next;
                take_out(&mut self.sets, before);
                Ok(())
            }
            Err(_) => {
                take_out(&mut self.sets, Some(place));
                Err(Memory)
            }
        }
    }

    /// Lets a waitable leave the set that it is in. One that is in none stays so.
    pub fn leave(&mut self, waitable: u32)
        ensures exact { self.new ≡ left waitable self.old }
        ensures stands { (h : List Event) → StandsFor h self.old → StandsFor (h ++ Leaves waitable ∷ []) self.new }
    {
        let place = self.places.remove(&waitable);
        take_out(&mut self.sets, place);
    }

    /// The members of a set by time of joining.
    pub fn members(&self, set: u64) -> Members<'_>
        requires { set < length self.now }
        ensures exact { result ≡ (set_at self.now set).members }
    {
        Members::new(&self.sets[set as usize].by_time)
    }

    /// The members that are told to have an event, by time of joining, whatever the order of `told`. It costs a look-up
    /// for each of `told`.
    pub fn ready(&self, alloc: Global, set: u64, told: &Nums) -> Result<Nums, Memory>
        requires { set < length self.now }
        ensures exact { IfOk result (λ ready. ready ≡ ready_of told.now (set_at self.now set)) }
    {
        let by_time = told_by_time(alloc, &self.places, told.as_slice(), set)?;
        Members::new(&by_time).list(alloc)
    }

    /// Whether a member is told to have an event. It costs a look-up for each of `told`.
    pub fn any_ready(&self, set: u64, told: &Nums) -> bool
        requires { set < length self.now }
        ensures exact { result ≡ not (is_none (ready_of told.now (set_at self.now set))) }
    {
        any_in(&self.places, told.as_slice(), set)
    }

    /// Drops a set (CanonicalABI.md, "canon waitable-set.drop"), which may be where no waitable is a member of it and no
    /// task waits on it. `Members` comes where it has a member, whether or not a task waits on it, and `Waiters` where it
    /// has none and a task does. Either way the sets look as they did: one that is dropped is empty, and its number isn't
    /// given again.
    pub fn drop_set(&mut self, set: u64) -> Result<(), SetRefusal>
        requires { set < length self.old }
        ensures answer { result ≡ drop_answer (set_at self.old set) }
        ensures exact { self.new ≡ self.old }
    {
        let dropped = &self.sets[set as usize];
        if !dropped.by_time.is_empty() {
            return Err(SetRefusal::Members);
        }
        if dropped.waiters > 0 {
            return Err(SetRefusal::Waiters);
        }
        Ok(())
    }

    /// A task begins to wait on a set.
    pub fn wait_on(&mut self, set: u64)
        requires there { set < length self.old }
        requires few { (set_at self.old set).waiters + 1 < 2 ^ 64 }
        ensures exact { self.new ≡ waited_on set self.old }
        ensures stands { (h : List Event) → StandsFor h self.old → StandsFor (h ++ Waits set ∷ []) self.new }
    {
        self.sets[set as usize].waiters += 1;
    }

    /// A task ceases to wait on a set.
    pub fn wait_off(&mut self, set: u64)
        requires there { set < length self.old }
        requires some { 0 < (set_at self.old set).waiters }
        ensures exact { self.new ≡ waited_off set self.old }
        ensures stands { (h : List Event) → StandsFor h self.old → StandsFor (h ++ Goes set ∷ []) self.new }
    {
        self.sets[set as usize].waiters -= 1;
    }

    /// How many tasks wait on a set.
    pub fn waiters(&self, set: u64) -> u64
        requires { set < length self.now }
        ensures exact { result ≡ (set_at self.now set).waiters }
    {
        self.sets[set as usize].waiters
    }
}

/// The time at which a waitable joined a set, if it is in that set.
fn time_in(places: &BTreeMap<u32, Place>, waitable: u32, set: u64) -> Option<u64>
    ensures { result ≡ time_in set (get nat_cmp places.now waitable) }
{
    let place = places.get(&waitable)?;
    if place.set == set {
        Some(place.time)
    } else {
        None
    }
}

/// Those of these waitables that are in this set, by the times at which they joined.
fn told_by_time(
    alloc: Global,
    places: &BTreeMap<u32, Place>,
    told: &[u32],
    set: u64,
) -> Result<BTreeMap<u64, u32>, Memory>
    ensures { IfOk result (λ found. AreTold (get nat_cmp places.now) set told.now found.entries) }
{
    let mut by_time = BTreeMap::new(alloc);
    for waitable in told {
        if let Some(time) = time_in(places, *waitable, set) {
            put(&mut by_time, time, *waitable)?;
        }
    }
    Ok(by_time)
}

/// Whether one of these waitables is in this set.
fn any_in(places: &BTreeMap<u32, Place>, told: &[u32], set: u64) -> bool
    ensures { result ≡ list_any (is_in (get nat_cmp places.now) set) told.now }
{
    told.iter()
        .any(|waitable| time_in(places, *waitable, set).is_some())
}

/// Puts a waitable into its set, which it joins last.
fn put_in(sets: &mut Vec<WaitableSet>, waitable: u32, place: Place) -> Result<(), Memory>
    requires { place.set < length sets.old.items }
    ensures times { OnOk result (timed sets.new.items ≡ times_with place waitable (timed sets.old.items)) }
    ensures kept { OnErr result (timed sets.new.items ≡ timed sets.old.items) }
    ensures waiters { waits sets.new.items ≡ waits sets.old.items }
{
    let set = &mut sets[place.set as usize];
    put(&mut set.by_time, place.time, waitable)?;
    Ok(())
}

/// Puts a waitable under the time of its joining. After `Memory` all is as it was.
fn put(by_time: &mut BTreeMap<u64, u32>, time: u64, waitable: u32) -> Result<(), Memory>
    ensures ok { OnOk result (by_time.new.entries ≡ insert_entry nat_cmp by_time.old.entries time waitable) }
    ensures memory { OnErr result (by_time.new.entries ≡ by_time.old.entries) }
{
    by_time.insert(time, waitable)?;
    Ok(())
}

/// Takes the member at this place, if there is a place, out of its set.
fn take_out(sets: &mut Vec<WaitableSet>, place: Option<Place>)
    requires { IfSome place (λ p. p.set < length sets.old.items) }
    ensures times { timed sets.new.items ≡ times_out place (timed sets.old.items) }
    ensures waiters { waits sets.new.items ≡ waits sets.old.items }
{
    if let Some(place) = place {
        let set = &mut sets[place.set as usize];
        set.by_time.remove(&place.time);
    }
}
