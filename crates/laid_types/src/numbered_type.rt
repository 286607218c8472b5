//! A type of the table, with its number.

ghost use Rattle.std.specs.Prelude.{◌≡◌, Some, IfSome};
ghost use Rattle.std.specs.List.{slice_get};
ghost use Rattle.std.specs.Option.{option_map};
ghost use Rattle.laid_types.specs.Parts.{part_at};
ghost use Rattle.laid_types.specs.Known.{Stands};

use crate::entry::Entry;
use crate::laid_type::LaidType;
use crate::types::LaidTypes;
use std::marker::Model;

/// A type of a table with its number there, and so its parts with theirs. Contracts see the types of the table, the number and the
/// type. Where no type stands twice in the table, types are equal exactly where their numbers are.
#[derive(Drop)]
pub struct NumberedType<'a> {
    types: &'a LaidTypes,
    entry: &'a Entry,
    number: usize,
}

impl<'a> Model for NumberedType<'a> {
    ghost use Rattle.std.specs.Coded.{codes};
    ghost use Rattle.syntax_trees.specs.contracts.types.ValType as val_type_row;
    ghost use Rattle.laid_types.specs.Known.{Numbered, HasNumber};

    ghost Value = { Numbered };

    ghost coded = { Prim.hlevel (codes, val_type_row.the_row.coded) };

    ghost view = { λ t. record { types = t.types.now; number = t.number; val_type = t.entry.now.val_type } };

    ghost invariant = { λ t. HasNumber t.types.now t.number t.entry.now };
}

impl<'a> NumberedType<'a> {
    /// The type of an entry that has a number among these types.
    pub(crate) fn of(types: &'a LaidTypes, entry: &'a Entry, number: usize) -> NumberedType<'a>
        requires stands { Stands types.now entry.now }
        requires there { slice_get types.now number ≡ Some entry.now.val_type }
        ensures { result ≡ record { types = types.now; number = number; val_type = entry.now.val_type } }
    {
        NumberedType {
            types,
            entry,
            number,
        }
    }

    /// The type, with what is computed of it.
    pub fn laid(&self) -> LaidType<'a>
        ensures { result ≡ self.now.val_type }
    {
        LaidType::of(self.types, self.entry, self.number)
    }

    /// Its number.
    pub fn number(&self) -> usize
        ensures value { result ≡ self.now.number }
        ensures there { slice_get self.now.types result ≡ Some self.now.val_type }
    {
        self.number
    }

    /// The type of the part at a place, with its number; none where no type stands there. Of an option the value is at place 1.
    #[tactic(auto, using(crate::proofs::Numbers::part_is, crate::proofs::Numbers::among_these))]
    pub fn part(&self, at: usize) -> Option<NumberedType<'a>>
        ensures value { option_map (λ p. p.val_type) result ≡ part_at self.now.val_type at }
        ensures types { IfSome result (λ p. p.types ≡ self.now.types) }
    {
        let entry = self.entry;
        let types = self.types;
        match entry.part(at) {
            Some(number) => types.numbered(number),
            None => None,
        }
    }
}
