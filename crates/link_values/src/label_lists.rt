//! Lists of labels, by number.

ghost use Rattle.std.specs.Prelude.{◌≡◌, ℕ, List, [], Some, IfOk, OnErr};
ghost use Rattle.link_values.specs.Labels.{AreListed, list_number, texts};

use std::alloc::{AllocError, Global};
use std::collections::BTreeMap;
use std::marker::Model;

/// Lists of labels, each distinct one once, with its number. Contracts see each list before its number.
#[derive(Drop)]
pub(crate) struct LabelLists<'a> {
    numbers: BTreeMap<Vec<&'a str>, usize>,
}

impl<'a> Model for LabelLists<'a> {
    ghost use Rattle.std.specs.Prelude.{ℕ, List, map};
    ghost use Rattle.link_values.specs.Labels.{AreListed, texts};

    ghost Value = { List (List (List ℕ) × ℕ) };

    ghost view = { λ l. map (λ e. (texts e.0.items, e.1)) l.numbers.entries };

    ghost invariant = { λ l. AreListed (map (λ e. (texts e.0.items, e.1)) l.numbers.entries) };
}

impl<'a> LabelLists<'a> {
    /// No lists. They take no memory.
    pub(crate) fn new(alloc: Global) -> LabelLists<'a>
        ensures { result ≡ [] }
    {
        LabelLists {
            numbers: BTreeMap::new(alloc),
        }
    }

    /// The number of a list, which is added where it is not there. It fails for want of memory alone, and then adds none.
    pub(crate) fn number_of(&mut self, labels: Vec<&'a str>) -> Result<usize, AllocError>
        ensures ok { IfOk result (λ number. list_number self.new (texts labels.entry.items) ≡ Some number) }
        ensures stays { (q : List (List ℕ)) (number : ℕ) → list_number self.old q ≡ Some number → list_number self.new q ≡ Some number }
        ensures listed { AreListed self.new }
    {
        if let Some(number) = self.numbers.get(labels.as_slice()).copied() {
            return Ok(number);
        }
        let number = self.numbers.len();
        self.numbers.insert(labels, number)?;
        Ok(number)
    }
}
