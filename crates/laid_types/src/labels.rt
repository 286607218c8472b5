//! Where labels stand.

ghost use Rattle.std.specs.Prelude.{◌≡◌, ℕ, List, IfOk, map};
ghost use Rattle.std.specs.BTreeMap.{get_by_text};
ghost use Rattle.syntax_trees.specs.Names.{first_named};

use std::alloc::{AllocError, Global};
use std::collections::BTreeMap;

/// The places of labels: of equal ones the first.
pub(crate) fn first_places(
    alloc: Global,
    labels: &[&str],
) -> Result<BTreeMap<String, usize>, AllocError>
    ensures { IfOk result (λ places. (q : List ℕ) → get_by_text places q ≡ first_named q (map (λ l. l.now) labels.now)) }
{
    let mut places = BTreeMap::new(alloc);
    for at in 0..labels.len() {
        let label = labels[at];
        if places.contains_key(label) {
            continue;
        }
        places.insert(String::from_str(alloc, label)?, at)?;
    }
    Ok(places)
}
