//! Names that stand twice, and look-ups by name.

ghost use Rattle.std.specs.Prelude.{◌≡◌, ℕ, List, IfOk, ◌↔◌, IsTrue, map};
ghost use Rattle.syntax_trees.specs.Names.{first_twice, first_named, at_name, AreDistinct};

use std::alloc::{AllocError, Global};
use std::collections::{BTreeMap, BTreeSet};
use syntax_trees::{Named, adds};

/// The number of the first item whose name stands before, or none. It fails for want of memory alone.
pub fn first_twice<T: Named>(alloc: Global, items: &[T]) -> Result<Option<usize>, AllocError>
    ensures { IfOk result (λ at. at ≡ first_twice (map T.name items.now)) }
{
    let mut seen = BTreeSet::new(alloc);
    for at in 0..items.len() {
        if !adds(&mut seen, items[at].name())? {
            return Ok(Some(at));
        }
    }
    Ok(None)
}

/// Whether no two items have one name. It fails for want of memory alone.
#[tactic(auto, using(syntax_trees::proofs::Distinct::distinct_law))]
pub fn are_distinct<T: Named>(alloc: Global, items: &[T]) -> Result<bool, AllocError>
    ensures { IfOk result (λ distinct. IsTrue distinct ↔ AreDistinct (map T.name items.now)) }
{
    let twice = first_twice(alloc, items)?;
    Ok(twice.is_none())
}

/// The numbers of items by their names, the first of each name. It fails for want of memory alone.
pub fn by_name<'a, T: Named>(
    alloc: Global,
    items: &'a [T],
) -> Result<BTreeMap<&'a str, usize>, AllocError>
    ensures { IfOk result (λ m. (q : List ℕ) → at_name m q ≡ first_named q (map T.name items.now)) }
{
    let mut map = BTreeMap::new(alloc);
    for at in 0..items.len() {
        let name = items[at].name();
        if map.contains_key(name) {
            continue;
        }
        map.insert(name, at)?;
    }
    Ok(map)
}

/// The number of the first item of a name, or none.
pub fn find(by_name: &BTreeMap<&str, usize>, name: &str) -> Option<usize>
    ensures { result ≡ at_name by_name.now name.now }
{
    by_name.get(name).copied()
}
