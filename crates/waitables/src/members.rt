//! The members of a set.

ghost use Rattle.std.specs.Prelude.{◌≡◌, ◌↔◌, [], length, IfOk, IsTrue};
ghost use Rattle.std.specs.BTreeMap.{values};

use crate::Nums;
use faults::Memory;
use std::alloc::Global;
use std::collections::BTreeMap;
use std::marker::Model;

/// The members of a set by time of joining. Contracts see the list of them.
#[derive(Drop)]
pub struct Members<'a> {
    by_time: &'a BTreeMap<u64, u32>,
}

impl<'a> Model for Members<'a> {
    ghost use Rattle.std.specs.Prelude.{List, ℕ};
    ghost use Rattle.std.specs.BTreeMap.{values};

    ghost Value = { List ℕ };

    ghost view = { λ m. values m.by_time.now };
}

impl<'a> Members<'a> {
    /// The waitables by their times.
    pub(crate) fn new(by_time: &'a BTreeMap<u64, u32>) -> Members<'a>
        ensures { result ≡ values by_time.now }
    {
        Members { by_time }
    }

    /// How many members there are.
    pub fn len(&self) -> usize
        ensures { result ≡ length self.now }
    {
        self.by_time.len()
    }

    /// Whether there is no member.
    pub fn is_empty(&self) -> bool
        ensures { IsTrue result ↔ (self.now ≡ []) }
    {
        self.by_time.is_empty()
    }

    /// The members as a list.
    pub fn list(&self, alloc: Global) -> Result<Nums, Memory>
        ensures { IfOk result (λ members. members ≡ self.now) }
    {
        let waitables = self.by_time.values().copied().collect(alloc)?;
        Ok(Nums::from_vec(waitables))
    }
}
