//! Something with a name, a rule, a state and a text, on which the calls over lists are tried.

use faults::{Memory, MemoryOr, Rule, Step};
use std::alloc::Global;
use syntax_trees::{Name, Named};
use value_texts::Text;

/// What has a name.
#[derive(Debug, Drop)]
pub struct Item {
    /// The name.
    pub name: Name,
}

impl Named for Item {
    ghost name = { λ item. item.name };

    fn name(&self) -> &str {
        self.name.as_str()
    }
}

/// No more than so many numbers may stand in a list.
#[derive(Drop)]
pub struct AtMost {
    /// How many.
    pub count: usize,
}

impl Rule for AtMost {
    ghost use Rattle.base_tests.specs.Lists.{too_many};

    type Item = u32;

    type Fault = u32;

    ghost fault = { λ rule. too_many rule.count };

    fn check(&self, _alloc: Global, before: &[u32], item: &u32) -> Result<(), MemoryOr<u32>> {
        if before.len() < self.count {
            Ok(())
        } else {
            Err(MemoryOr::Fault(*item))
        }
    }
}

/// A sum, which is at most 100.
#[derive(Drop)]
pub struct Total {
    /// The sum.
    pub sum: u64,
}

impl<'a> Step<'a> for Total {
    ghost use Rattle.base_tests.specs.Lists.{added};
    ghost use Rattle.base_tests.specs.declared.samples.Total.{Total};

    type Item = u32;

    type Fault = u32;

    ghost stepped = { λ total. added {T = Total} (λ n. record { sum = n }) total.sum };

    fn step(&mut self, _alloc: Global, item: &'a u32) -> Result<(), MemoryOr<u32>> {
        let Some(sum) = self.sum.checked_add(u64::from(*item)) else {
            return Err(MemoryOr::Fault(*item));
        };
        if sum <= 100 {
            self.sum = sum;
            Ok(())
        } else {
            Err(MemoryOr::Fault(*item))
        }
    }
}

/// Numbers in decimal digits.
pub struct Decimals;

impl Text for Decimals {
    ghost use Rattle.std.specs.Fmt.{decimal};

    type Item = u32;

    ghost text = { decimal };

    fn push(alloc: Global, item: &u32, to: &mut Vec<u8>) -> Result<(), Memory> {
        let digits = item.to_string(alloc)?;
        to.extend_from_slice(digits.as_bytes())?;
        Ok(())
    }
}
