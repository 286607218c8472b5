//! A component instance, and what stands at an index of its table.

ghost use Rattle.std.specs.Prelude.{◌≡◌, Some, IfOk};
ghost use Rattle.handle_table.specs.Slots.{live_indices};
ghost use Rattle.instances.specs.Entries.{subtask_in, set_in, waitable_in, end_in};
ghost use Rattle.instances.specs.declared.entry.WorldEntry.TheVariants as entry;
ghost use Rattle.instances.specs.Instances.{new_instance, entry_of};

use crate::entry::{EndEntry, WorldEntry};
use entry_gate::Gate;
use faults::Memory;
use handle_table::Table;
use res_handles::Refusal;
use std::alloc::Global;
use std::marker::Model;
use stream_ends::Side;
use waitables::{Nums, Sets};

/// A component instance: its table, its waitable sets, and its gate.
#[derive(Drop)]
pub struct Instance {
    pub(crate) table: Table<WorldEntry>,
    pub(crate) sets: Sets,
    pub(crate) gate: Gate,
}

impl Model for Instance {
    ghost use Rattle.std.specs.Coded.{codes};
    ghost use Rattle.instances.specs.Instances.{InstanceView};
    ghost use Rattle.instances.specs.contracts.entry.WorldEntry as entries;

    ghost Value = { InstanceView };

    ghost coded = { Prim.hlevel (codes, entries.the_row.coded) };

    ghost view = { λ i. record { slots = i.table.slots; sets = i.sets; gate = i.gate } };
}

impl Instance {
    /// An instance that begins: nothing stands in its table, it has no set, and no task is in it. This takes no memory.
    pub fn new(alloc: Global) -> Instance
        ensures { result ≡ new_instance }
    {
        Instance {
            table: Table::new(alloc),
            sets: Sets::new(alloc),
            gate: Gate::new(),
        }
    }

    /// What stands at an index of the table.
    pub fn entry(&self, index: u32) -> Option<WorldEntry>
        ensures { result ≡ entry_of self.now index }
    {
        self.table.get(index).copied()
    }

    /// The task that the subtask at an index is.
    ///
    /// # Errors
    ///
    /// `Absent` and `OtherKind`.
    pub fn subtask_at(&self, index: u32) -> Result<u32, Refusal>
        ensures { result ≡ subtask_in (entry_of self.now index) }
    {
        match self.entry(index) {
            Some(WorldEntry::Subtask(callee)) => Ok(callee),
            Some(_) => Err(Refusal::OtherKind),
            None => Err(Refusal::Absent),
        }
    }

    /// The number of the waitable set at an index.
    ///
    /// # Errors
    ///
    /// `Absent` and `OtherKind`.
    pub fn set_at(&self, index: u32) -> Result<u64, Refusal>
        ensures { result ≡ set_in (entry_of self.now index) }
    {
        match self.entry(index) {
            Some(WorldEntry::Set(set)) => Ok(set),
            Some(_) => Err(Refusal::OtherKind),
            None => Err(Refusal::Absent),
        }
    }

    /// Tests that a waitable, a subtask or an end, stands at an index.
    ///
    /// # Errors
    ///
    /// `Absent` and `OtherKind`.
    pub fn waitable_at(&self, index: u32) -> Result<(), Refusal>
        ensures { result ≡ waitable_in (entry_of self.now index) }
    {
        match self.entry(index) {
            Some(WorldEntry::Subtask(_)) => Ok(()),
            Some(WorldEntry::End(_)) => Ok(()),
            Some(_) => Err(Refusal::OtherKind),
            None => Err(Refusal::Absent),
        }
    }

    /// The end of this side and the type of this number at an index.
    ///
    /// # Errors
    ///
    /// `Absent`, `OtherKind`, which comes of the other side too, and `OtherType`, tested in this order.
    pub fn end_at(&self, side: Side, wanted: usize, index: u32) -> Result<EndEntry, Refusal>
        ensures { result ≡ end_in side wanted (entry_of self.now index) }
    {
        match self.entry(index) {
            Some(WorldEntry::End(end)) => typed_end(side, wanted, end),
            Some(_) => Err(Refusal::OtherKind),
            None => Err(Refusal::Absent),
        }
    }

    /// The indices at which something stands, rising.
    pub fn indices(&self, alloc: Global) -> Result<Nums, Memory>
        ensures { IfOk result (λ indices. indices ≡ live_indices self.now.slots) }
    {
        let indices = self.table.indices(alloc)?;
        Ok(Nums::from_vec(indices))
    }
}

/// The end, if it is of this side and the type of this number.
fn typed_end(side: Side, wanted: usize, end: EndEntry) -> Result<EndEntry, Refusal>
    ensures { result ≡ end_in side wanted (Some (entry.End end)) }
{
    if !end.is_at(side) {
        return Err(Refusal::OtherKind);
    }
    if end.is_of_type(wanted) {
        Ok(end)
    } else {
        Err(Refusal::OtherType)
    }
}
