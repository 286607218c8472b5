//! Handles and readable ends of an instance that are lifted and lowered (Component Model, CanonicalABI.md, "Resource State", `canon
//! resource.drop` and `canon resource.rep`).

ghost use Rattle.std.specs.Prelude.{◌≡◌, ◌≤◌, true, false, nat_lt, if◌then◌else◌, Ok, IfOk, MatchResult};
ghost use Rattle.handle_table.specs.History.{most_live};
ghost use Rattle.res_handles.specs.Calls.{own_handle, borrow_handle, is_defined};
ghost use Rattle.res_handles.specs.Refusals.{handle_in, own_in, dropped_in, rep_of};
ghost use Rattle.instances.specs.Entries.{of_handle, of_end, lifted_end};
ghost use Rattle.instances.specs.Instances.{entry_of, view_of, lends_of, given_back, entry_removed};
ghost use Rattle.instances.specs.Calls.{AddGives, LendGives};

use crate::entry::WorldEntry;
use crate::instance::Instance;
use crate::refusal::LendError;
use res_handles::{
    Handle, Home, LowerError, Refusal, drop_handle, end_lend, lift_borrow, lift_end, lift_own,
    lower_borrow, lower_end, lower_own, rep,
};

impl Instance {
    /// The representation of the handle of a resource at an index.
    ///
    /// # Errors
    ///
    /// `Absent`, `OtherKind` and `OtherType`, tested in this order.
    pub fn rep(&self, index: u32, resource: u32) -> Result<u32, Refusal>
        ensures { result ≡ rep_of (handle_in (view_of self.now index) resource) }
    {
        rep(&self.table, index, resource)
    }

    /// Drops the handle of a resource at an index: it leaves the table, and is answered.
    ///
    /// # Errors
    ///
    /// `Absent`, `OtherKind`, `OtherType` and `Lent`, tested in this order. The instance is as it was.
    pub fn drop_handle(&mut self, index: u32, resource: u32) -> Result<Handle, Refusal>
        ensures value { result ≡ dropped_in (view_of self.old index) resource }
        ensures exact { MatchResult result (λ _. self.new ≡ entry_removed index self.old) (λ _. self.new ≡ self.old) }
    {
        drop_handle(&mut self.table, index, resource)
    }

    /// Lifts the own handle of a resource at an index: it leaves the table, and its representation is answered.
    ///
    /// # Errors
    ///
    /// `Absent`, `OtherKind`, `OtherType`, `NotOwn` and `Lent`, tested in this order. The instance is as it was.
    pub fn lift_own(&mut self, index: u32, resource: u32) -> Result<u32, Refusal>
        ensures value { result ≡ rep_of (own_in (view_of self.old index) resource) }
        ensures exact { MatchResult result (λ _. self.new ≡ entry_removed index self.old) (λ _. self.new ≡ self.old) }
    {
        lift_own(&mut self.table, index, resource)
    }

    /// Lifts a borrow of the handle of a resource at an index: the handle is lent once more, and its representation is answered.
    ///
    /// # Errors
    ///
    /// `Absent`, `OtherKind` and `OtherType`, tested in this order, and `Most` where the handle is lent 2^64 - 1 times. The instance
    /// is as it was.
    pub fn lift_borrow(&mut self, index: u32, resource: u32) -> Result<u32, LendError>
        ensures { LendGives index resource self.old result self.new }
    {
        match self.rep(index, resource) {
            Ok(_) => self.lend(index, resource),
            Err(why) => Err(LendError::Refused(why)),
        }
    }

    /// Lifts a borrow of a handle of a resource that is there.
    fn lend(&mut self, index: u32, resource: u32) -> Result<u32, LendError>
        ensures { LendGives index resource self.old result self.new }
    {
        if self.lends(index) == u64::MAX {
            return Err(LendError::Most);
        }
        match lift_borrow(&mut self.table, index, resource) {
            Ok(rep) => Ok(rep),
            Err(why) => Err(LendError::Refused(why)),
        }
    }

    /// How often the handle at an index is lent, 0 where no handle stands.
    pub fn lends(&self, index: u32) -> u64
        ensures { result ≡ lends_of self.now index }
    {
        match self.table.get(index) {
            Some(WorldEntry::Handle(handle)) => handle.lends,
            Some(_) => 0,
            None => 0,
        }
    }

    /// Ends a loan of the handle at an index. Where no handle is lent nothing changes, and the answer is false.
    pub fn end_lend(&mut self, index: u32) -> bool
        ensures value { result ≡ nat_lt 0 (lends_of self.old index) }
        ensures exact { self.new ≡ (if result then given_back index self.old else self.old) }
    {
        if self.lends(index) == 0 {
            return false;
        }
        end_lend(&mut self.table, index);
        true
    }

    /// Lifts the idle readable end of the type of a number at an index: it leaves the table, and the number of its stream or future is answered. The
    /// set of which the index is a member is left by `leave_set`.
    ///
    /// # Errors
    ///
    /// `Absent`, `OtherKind`, `OtherType` and `NotIdle`, tested in this order. The instance is as it was.
    #[tactic(auto, using(crate::proofs::Types::tells_apart, crate::proofs::Types::lifted_is))]
    pub fn lift_end(&mut self, index: u32, wanted: usize) -> Result<u32, Refusal>
        ensures value { result ≡ lifted_end wanted (entry_of self.old index) }
        ensures exact { MatchResult result (λ _. self.new ≡ entry_removed index self.old) (λ _. self.new ≡ self.old) }
    {
        lift_end(&mut self.table, index, &wanted)
    }

    /// Lowers an own handle of a resource: a new entry, whose index is answered.
    ///
    /// # Errors
    ///
    /// Those of `add`.
    pub fn lower_own(&mut self, resource: u32, rep: u32) -> Result<u32, LowerError>
        ensures exact { AddGives (of_handle (own_handle resource rep)) self.old result self.new }
        ensures limit { IfOk result (λ index. (1 ≤ index) × (index ≤ most_live)) }
    {
        lower_own(&mut self.table, resource, rep)
    }

    /// Lowers a borrow of a resource: where the instance defines the resource it is the representation itself, elsewhere a new borrow
    /// handle, which counts for the task of `home`, and its index is answered.
    ///
    /// # Errors
    ///
    /// Those of `add`, where the instance does not define the resource.
    pub fn lower_borrow(
        &mut self,
        resource: u32,
        rep: u32,
        home: &Home<'_>,
    ) -> Result<u32, LowerError>
        ensures at_home { is_defined resource home.now.resources.now ≡ true → (result ≡ Ok rep) × (self.new ≡ self.old) }
        ensures exact { is_defined resource home.now.resources.now ≡ false → AddGives (of_handle (borrow_handle resource rep home.now.task)) self.old result self.new }
    {
        lower_borrow(&mut self.table, resource, rep, home)
    }

    /// Lowers the readable end of the stream or the future of this number and of the type of a number: a new entry, whose index is answered.
    ///
    /// # Errors
    ///
    /// Those of `add`.
    pub fn lower_end(&mut self, wanted: usize, number: u32) -> Result<u32, LowerError>
        ensures exact { AddGives (of_end wanted number) self.old result self.new }
        ensures limit { IfOk result (λ index. (1 ≤ index) × (index ≤ most_live)) }
    {
        lower_end(&mut self.table, &wanted, number)
    }
}
