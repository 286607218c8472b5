//! What stands under names.

ghost use Rattle.std.specs.Prelude.{◌≡◌, ◌∷◌, ◌++◌, [], ℕ, ◌==◌, cond, length, Some, None, IfOk, OnOk, OnErr};
ghost use Rattle.std.specs.Ordering.{nat_cmp};
ghost use Rattle.std.specs.BTreeMap.{get};
ghost use Rattle.std.specs.List.{slice_get};
ghost use Rattle.std.specs.Option.{option_or};
ghost use Rattle.link_values.specs.Listed.{item_named};

use std::alloc::{AllocError, Global};
use std::collections::BTreeMap;
use std::marker::Model;

/// Items under the numbers of names, in order. Contracts see each number with its item.
#[derive(Drop)]
pub struct Listing<T> {
    entries: Vec<(usize, T)>,
    /// The first item of each name.
    first: BTreeMap<usize, T>,
}

impl<T> Model for Listing<T> {
    ghost use Rattle.std.specs.Prelude.{◌≡◌, ℕ, List};
    ghost use Rattle.std.specs.Coded.{coded_list, coded×, coded_ℕ};
    ghost use Rattle.std.specs.Ordering.{nat_cmp};
    ghost use Rattle.std.specs.BTreeMap.{get};
    ghost use Rattle.link_values.specs.Listed.{item_named};

    ghost Value = { List (ℕ × T) };

    ghost coded = { coded_list (coded× coded_ℕ T.code) };

    ghost view = { λ l. l.entries.items };

    ghost invariant = { λ l. (q : ℕ) → get nat_cmp l.first q ≡ item_named q l.entries.items };
}

impl<T> Listing<T> {
    /// No items. They take no memory.
    pub fn new(alloc: Global) -> Listing<T>
        ensures { result ≡ [] }
    {
        Listing {
            entries: Vec::new(alloc),
            first: BTreeMap::new(alloc),
        }
    }

    /// How many items there are.
    pub fn len(&self) -> usize
        ensures { result ≡ length self.now }
    {
        self.entries.len()
    }

    /// The items, in order, each behind the number of its name.
    pub fn entries(&self) -> &[(usize, T)]
        ensures { result.now ≡ self.now }
    {
        &self.entries
    }
}

impl<T: Copy + Drop> Listing<T> {
    /// The first item under a name.
    pub fn find(&self, name: usize) -> Option<T>
        ensures { result ≡ item_named name self.now }
    {
        self.first.get(&name).copied()
    }

    /// The name and the item at a place.
    pub fn get(&self, at: usize) -> Option<(usize, T)>
        ensures { result ≡ slice_get self.now at }
    {
        self.entries.get(at).copied()
    }

    /// Puts an item behind the others. It fails for want of memory alone, and then puts none.
    pub fn push(&mut self, name: usize, item: T) -> Result<(), AllocError>
        ensures ok { OnOk result (self.new ≡ self.old ++ (name, item) ∷ []) }
        ensures err { OnErr result (self.new ≡ self.old) }
    {
        self.entries.reserve(1)?;
        keep_first(&mut self.first, name, item)?;
        self.entries.push_reserved((name, item));
        Ok(())
    }
}

/// Keeps an item where none is kept under this name.
fn keep_first<T: Copy + Drop>(
    first: &mut BTreeMap<usize, T>,
    name: usize,
    item: T,
) -> Result<(), AllocError>
    ensures ok { OnOk result ((q : ℕ) → get nat_cmp first.new q ≡ option_or (get nat_cmp first.old q) (cond (name == q) (Some item) None)) }
    ensures err { OnErr result ((q : ℕ) → get nat_cmp first.new q ≡ get nat_cmp first.old q) }
{
    if first.contains_key(&name) {
        return Ok(());
    }
    first.insert(name, item)?;
    Ok(())
}
