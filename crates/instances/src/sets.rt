//! The waitable sets of an instance (Component Model, CanonicalABI.md, "Waitable Set State").

ghost use Rattle.std.specs.Prelude.{◌≡◌, ◌+◌, ◌<◌, ◌≤◌, ◌&&◌, ◌++◌, ◌∷◌, [], not, length, if◌then◌else◌, IfOk, MatchOption, MatchResult};
ghost use Rattle.waitables.specs.Sets.{no_set, set_at, left, ready_of, is_none, waited_off};
ghost use Rattle.instances.specs.Instances.{with_sets};
ghost use Rattle.instances.specs.Calls.{JoinGives, WaitGives, is_there, has_waiter, dropped_set};

use crate::instance::Instance;
use crate::refusal::{DropSetError, SetError};
use faults::Memory;
use std::alloc::Global;
use waitables::{Members, Nums};

impl Instance {
    /// How many sets were made.
    pub fn sets_made(&self) -> u64
        ensures { result ≡ length self.now.sets }
    {
        self.sets.len()
    }

    /// Makes a set without members, and answers its number, counted from 0. After `Memory` the instance is as it was.
    pub fn make_set(&mut self, alloc: Global) -> Result<u64, Memory>
        ensures number { IfOk result (λ number. number ≡ length self.old.sets) }
        ensures exact { MatchResult result (λ _. self.new ≡ with_sets (self.old.sets ++ no_set ∷ []) self.old) (λ _. self.new ≡ self.old) }
    {
        self.sets.make(alloc)
    }

    /// Lets a waitable leave the set that it is in, and join another one as its last member.
    ///
    /// # Errors
    ///
    /// `NoSet` and `Memory`. The instance is as it was.
    pub fn join(&mut self, waitable: u32, set: u64) -> Result<(), SetError>
        ensures { JoinGives waitable set self.old result self.new }
    {
        if set >= self.sets.len() {
            return Err(SetError::NoSet);
        }
        match self.sets.join(waitable, set) {
            Ok(()) => Ok(()),
            Err(_) => Err(SetError::Memory),
        }
    }

    /// Lets a waitable leave the set that it is in. One that is in none stays so.
    pub fn leave_set(&mut self, waitable: u32)
        ensures { self.new ≡ with_sets (left waitable self.old.sets) self.old }
    {
        self.sets.leave(waitable);
    }

    /// The members of a set by time of joining, where the set is there.
    pub fn members(&self, set: u64) -> Option<Members<'_>>
        ensures { MatchOption result (length self.now.sets ≤ set) (λ members. (set < length self.now.sets) × (members ≡ (set_at self.now.sets set).members)) }
    {
        if set >= self.sets.len() {
            return None;
        }
        Some(self.sets.members(set))
    }

    /// The members that are told to have an event, by time of joining. A set that is not there has none. It costs a look-up for each
    /// of `told`.
    pub fn ready(&self, alloc: Global, set: u64, told: &Nums) -> Result<Nums, Memory>
        ensures { IfOk result (λ ready. ready ≡ ready_of told.now (set_at self.now.sets set)) }
    {
        if set >= self.sets.len() {
            return Ok(Nums::new(alloc));
        }
        self.sets.ready(alloc, set, told)
    }

    /// Whether a member is told to have an event. A set that is not there has none. It costs a look-up for each of `told`.
    pub fn any_ready(&self, set: u64, told: &Nums) -> bool
        ensures { result ≡ not (is_none (ready_of told.now (set_at self.now.sets set))) }
    {
        set < self.sets.len() && self.sets.any_ready(set, told)
    }

    /// Drops a set without members, on which no task waits. Its number isn't given again.
    ///
    /// # Errors
    ///
    /// `NoSet`, and `Refused` for a member or, where there is none, for a task that waits on it.
    pub fn drop_set(&mut self, set: u64) -> Result<(), DropSetError>
        ensures value { result ≡ dropped_set set self.old.sets }
        ensures exact { self.new ≡ self.old }
    {
        if set >= self.sets.len() {
            return Err(DropSetError::NoSet);
        }
        match self.sets.drop_set(set) {
            Ok(()) => Ok(()),
            Err(why) => Err(DropSetError::Refused(why)),
        }
    }

    /// A task begins to wait on a set.
    ///
    /// # Errors
    ///
    /// `NoSet`, and `Memory` where 2^64 - 1 tasks wait on it. The instance is as it was.
    pub fn wait_on(&mut self, set: u64) -> Result<(), SetError>
        ensures { WaitGives set self.old result self.new }
    {
        if set >= self.sets.len() {
            return Err(SetError::NoSet);
        }
        if self.sets.waiters(set) == u64::MAX {
            return Err(SetError::Memory);
        }
        self.sets.wait_on(set);
        Ok(())
    }

    /// A task ceases to wait on a set. Where the set is not there, or no task waits on it, nothing changes, and the answer is false.
    pub fn wait_off(&mut self, set: u64) -> bool
        ensures value { result ≡ (is_there set self.old.sets && has_waiter set self.old.sets) }
        ensures exact { self.new ≡ (if result then with_sets (waited_off set self.old.sets) self.old else self.old) }
    {
        if set >= self.sets.len() || self.sets.waiters(set) == 0 {
            return false;
        }
        self.sets.wait_off(set);
        true
    }
}
