//! Names that come one after the other.

ghost use Rattle.std.specs.Prelude.{◌≡◌, ◌∷◌, ◌++◌, [], OnOk, OnErr};
ghost use Rattle.syntax_trees.specs.Names.{is_among};

use std::alloc::{AllocError, Global};
use std::collections::BTreeSet;
use std::marker::Model;
use syntax_trees::{Name, adds};

/// Names, in order, and the set of them. Contracts see the names.
#[derive(Drop)]
pub struct NameList<'a> {
    names: Vec<&'a Name>,
    seen: BTreeSet<&'a str>,
}

impl<'a> Model for NameList<'a> {
    ghost use Rattle.std.specs.Prelude.{◌≡◌, ℕ, List, map};
    ghost use Rattle.syntax_trees.specs.Names.{has, is_among};

    ghost Value = { List (List ℕ) };

    ghost view = { λ l. map (λ n. n.now) l.names.items };

    ghost invariant = { λ l. (q : List ℕ) → has l.seen q ≡ is_among q (map (λ n. n.now) l.names.items) };
}

impl<'a> NameList<'a> {
    /// No names. They take no memory.
    pub fn new(alloc: Global) -> NameList<'a>
        ensures { result ≡ [] }
    {
        NameList {
            names: Vec::new(alloc),
            seen: BTreeSet::new(alloc),
        }
    }

    /// Whether a name is among them.
    pub fn has(&self, name: &str) -> bool
        ensures { result ≡ is_among name.now self.now }
    {
        self.seen.contains(name)
    }

    /// Adds a name behind the others. It fails for want of memory alone, and then adds none.
    pub fn add(&mut self, name: &'a Name) -> Result<(), AllocError>
        ensures ok { OnOk result (self.new ≡ self.old ++ name.now ∷ []) }
        ensures err { OnErr result (self.new ≡ self.old) }
    {
        self.names.reserve(1)?;
        adds(&mut self.seen, name.as_str())?;
        self.names.push_reserved(name);
        Ok(())
    }
}
