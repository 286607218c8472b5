//! The texts of names, by number.

ghost use Rattle.std.specs.Prelude.{◌≡◌, ℕ, [], ◌∷◌, ◌++◌, length, Some, None, IfOk, OnOk, OnErr};
ghost use Rattle.std.specs.List.{slice_get};
ghost use Rattle.std.specs.Option.{MatchOption};
ghost use Rattle.link_values.specs.Numbering.{AreApart, IsAdded, IsNumberOf};

use ca_base::find;
use std::alloc::{AllocError, Global};
use std::collections::BTreeMap;
use std::marker::Model;

/// The texts of names, each distinct one once. A name's number is the place of its text. Contracts see the texts, in order.
#[derive(Drop)]
pub struct Names<'a> {
    texts: Vec<&'a str>,
    numbers: BTreeMap<&'a str, usize>,
}

impl<'a> Model for Names<'a> {
    ghost use Rattle.std.specs.Prelude.{ℕ, List, map};
    ghost use Rattle.syntax_trees.specs.Names.{at_name};
    ghost use Rattle.link_values.specs.Numbering.{Numbers};

    ghost Value = { List (List ℕ) };

    ghost view = { λ n. map (λ t. t.now) n.texts.items };

    ghost invariant = { λ n. Numbers (at_name n.numbers) (map (λ t. t.now) n.texts.items) };
}

impl<'a> Names<'a> {
    /// No names. They take no memory.
    pub fn new(alloc: Global) -> Names<'a>
        ensures { result ≡ [] }
    {
        Names {
            texts: Vec::new(alloc),
            numbers: BTreeMap::new(alloc),
        }
    }

    /// The number of a name, where its text is there. No text is there twice.
    pub fn find(&self, name: &str) -> Option<usize>
        ensures number { IsNumberOf self.now name.now result }
        ensures apart { AreApart self.now }
    {
        find(&self.numbers, name)
    }

    /// The number of a name, which is added behind the others where its text is not there. It fails for want of memory alone,
    /// and then adds none.
    pub fn number_of(&mut self, name: &'a str) -> Result<usize, AllocError>
        ensures ok { IfOk result (λ number. IsAdded self.old name.now number self.new) }
        ensures err { OnErr result (self.new ≡ self.old) }
        ensures apart { AreApart self.new }
    {
        match self.find(name) {
            Some(number) => Ok(number),
            None => Ok(self.add(name)?),
        }
    }

    /// Adds a name that is not there, and answers its number.
    fn add(&mut self, name: &'a str) -> Result<usize, AllocError>
        requires { IsNumberOf self.old name.now None }
        ensures number { IfOk result (λ number. number ≡ length self.old) }
        ensures ok { OnOk result (self.new ≡ self.old ++ name.now ∷ []) }
        ensures err { OnErr result (self.new ≡ self.old) }
        ensures apart { AreApart self.new }
    {
        let number = self.texts.len();
        self.texts.reserve(1)?;
        self.numbers.insert(name, number)?;
        self.texts.push_reserved(name);
        Ok(number)
    }

    /// The text at a number.
    #[tactic(auto, using(crate::proofs::NamesAdded::shown_none, crate::proofs::NamesAdded::shown_some))]
    pub fn text(&self, number: usize) -> Option<&'a str>
        ensures { MatchOption result (slice_get self.now number ≡ None) (λ text. slice_get self.now number ≡ Some text.now) }
    {
        self.texts.get(number).copied()
    }
}
