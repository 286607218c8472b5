//! The picks of a script.

ghost use Rattle.std.specs.Prelude.{◌≡◌, ℕ, ◌≤◌, ◌<◌, [], ◌∷◌, ◌++◌, MatchResult, drop};
ghost use Rattle.choices.specs.Choosing.{first, picked, left};
ghost use Rattle.choices.specs.Drawing.{Drawn, StandsFor, nothing_given, given_too, drawn, drawn_answer};

use std::alloc::{AllocError, Global};
use std::marker::Model;

/// The picks that a script gives for the choices of its run, in order.
#[derive(Drop)]
pub struct Picks {
    picks: Vec<u32>,
    next: usize,
}

impl Model for Picks {
    ghost use Rattle.std.specs.Prelude.{List, ℕ, drop, ◌≤◌, vec_len};

    ghost Value = { List ℕ };

    ghost view = { λ p. drop p.next p.picks.items };

    ghost invariant = { λ p. p.next ≤ vec_len p.picks };
}

impl Picks {
    /// No pick. This takes no memory yet.
    pub fn new(alloc: Global) -> Picks
        ensures exact { result ≡ [] }
        ensures stands { StandsFor nothing_given result }
    {
        Picks {
            picks: Vec::new(alloc),
            next: 0,
        }
    }

    /// Adds a pick behind the others. For want of memory nothing changes.
    pub fn push(&mut self, pick: u32) -> Result<(), AllocError>
        ensures exact { MatchResult result (λ _. self.new ≡ self.old ++ pick ∷ []) (λ _. self.new ≡ self.old) }
        ensures stands { (d : Drawn) → StandsFor d self.old → MatchResult result (λ _. StandsFor (given_too pick d) self.new) (λ _. StandsFor d self.new) }
    {
        match self.picks.push(pick) {
            Ok(()) => Ok(()),
            Err(_) => Err(AllocError),
        }
    }

    /// Picks one of so many alternatives, at least one, and answers its number from 0 on. One alone uses no pick. Among
    /// more the next pick is used, modulo their number; after the last pick it is the first alternative.
    pub fn pick(&mut self, alternatives: u32) -> u32
        requires { 1 ≤ alternatives }
        ensures value { result ≡ picked alternatives self.old }
        ensures exact { self.new ≡ left alternatives self.old }
        ensures among { result < alternatives }
        ensures stands { (d : Drawn) → StandsFor d self.old → StandsFor (drawn alternatives d) self.new }
        ensures drawn { (d : Drawn) → StandsFor d self.old → result ≡ drawn_answer alternatives d }
    {
        if alternatives == 1 {
            return 0;
        }
        match self.next_pick() {
            Some(pick) => pick % alternatives,
            None => 0,
        }
    }

    /// The pick that is used next, which is not left then.
    fn next_pick(&mut self) -> Option<u32>
        ensures value { result ≡ first self.old }
        ensures exact { self.new ≡ drop 1 self.old }
    {
        let pick = self.picks.get(self.next).copied();
        if pick.is_some() {
            self.next += 1;
        }
        pick
    }
}
