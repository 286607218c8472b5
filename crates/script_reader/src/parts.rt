//! The parts of a text that stand before, between and behind a byte: its lines, and the words of a line.

ghost use Rattle.std.specs.Prelude.{◌≡◌, ◌≤◌, ◌==◌, length, ◌∷◌, [], MatchOption};
ghost use Rattle.std.specs.List.{position_or_len, slice_split};

use std::marker::Model;

/// The parts of a text that are not taken yet. Contracts see them as a list.
#[derive(Drop)]
pub struct Parts<'a> {
    separator: u8,
    rest: Option<&'a [u8]>,
}

impl<'a> Model for Parts<'a> {
    ghost use Rattle.std.specs.Prelude.{◌==◌, ℕ, List, []};
    ghost use Rattle.std.specs.List.{slice_split};
    ghost use Rattle.std.specs.Option.{option_map_or};

    ghost Value = { List (List ℕ) };

    ghost view = { λ p. option_map_or (λ rest. slice_split (λ b. b == p.separator) rest.now) p.rest [] };
}

/// How many bytes stand before the first of these bytes.
fn part_length(separator: u8, text: &[u8]) -> usize
    ensures value { result ≡ position_or_len (λ b. b == separator) text.now }
    ensures within { result ≤ length text.now }
{
    text.iter().take_while(|byte| **byte != separator).count()
}

impl<'a> Parts<'a> {
    /// All parts of a text that this byte parts.
    pub fn of(separator: u8, text: &'a [u8]) -> Parts<'a>
        ensures { result ≡ slice_split (λ b. b == separator) text.now }
    {
        Parts {
            separator,
            rest: Some(text),
        }
    }

    /// Takes the next part, if one is left.
    #[tactic(auto, using(crate::proofs::Splits::first_part, crate::proofs::Splits::last_part))]
    pub fn next(&mut self) -> Option<&'a [u8]>
        ensures { MatchOption result ((self.old ≡ []) × (self.new ≡ [])) (λ part. self.old ≡ part.now ∷ self.new) }
    {
        let rest = self.rest?;
        let end = part_length(self.separator, rest);
        if end < rest.len() {
            self.rest = Some(&rest[end + 1..]);
            Some(&rest[..end])
        } else {
            self.rest = None;
            Some(rest)
        }
    }
}
