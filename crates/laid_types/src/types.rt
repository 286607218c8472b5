//! The table of types.

ghost use Rattle.std.specs.Prelude.{◌≡◌, ◌<◌, ◌∷◌, ◌++◌, [], length, Some, IfOk, OnOk, OnErr};
ghost use Rattle.std.specs.List.{slice_get};
ghost use Rattle.laid_types.specs.Layers.{AreThere, tree_at, type_of, part_numbers};
ghost use Rattle.laid_types.specs.Known.{Stands, numbered_at};

use crate::entry::Entry;
use crate::laid_type::LaidType;
use crate::layer::ValTypeLayer;
use crate::making::entry_of;
use crate::numbered_type::NumberedType;
use std::alloc::{AllocError, Global};
use std::marker::Model;
use syntax_trees::{Shared, ValType};

/// Types of values, each over earlier ones, with what is computed of each. Contracts see the types, in order of adding; a type's
/// number is its place.
#[derive(Drop)]
pub struct LaidTypes {
    entries: Vec<Entry>,
}

impl Model for LaidTypes {
    ghost use Rattle.std.specs.Prelude.{List};
    ghost use Rattle.std.specs.Coded.{coded_list};
    ghost use Rattle.syntax_trees.specs.declared.types.ValType.{ValType};
    ghost use Rattle.syntax_trees.specs.contracts.types.ValType as val_type;
    ghost use Rattle.laid_types.specs.Known.{AllStand, types_of};

    ghost Value = { List ValType };

    ghost coded = { coded_list val_type.the_row.coded };

    ghost view = { λ t. types_of t.entries.items };

    ghost invariant = { λ t. AllStand t.entries.items };
}

impl LaidTypes {
    /// No types. They take no memory.
    pub fn new(alloc: Global) -> LaidTypes
        ensures { result ≡ [] }
    {
        LaidTypes {
            entries: Vec::new(alloc),
        }
    }

    /// How many types there are.
    pub fn len(&self) -> usize
        ensures { result ≡ length self.now }
    {
        self.entries.len()
    }

    /// Adds the type of a layer, whose parts are there, and answers its number. It fails for want of memory alone, and then adds
    /// none. Its cost is that of the layer, however many parts the type has.
    pub fn add(&mut self, alloc: Global, layer: &ValTypeLayer<'_, '_>) -> Result<usize, AllocError>
        requires { AreThere self.old (part_numbers layer.now) }
        ensures number { IfOk result (λ number. number ≡ length self.old) }
        ensures ok { OnOk result (self.new ≡ self.old ++ type_of self.old layer.now ∷ []) }
        ensures err { OnErr result (self.new ≡ self.old) }
    {
        let made = entry_of(alloc, self, layer)?;
        let number = self.entries.len();
        self.entries.push(made)?;
        Ok(number)
    }

    /// The type of a number.
    pub fn get(&self, number: usize) -> Option<LaidType<'_>>
        ensures { result ≡ slice_get self.now number }
    {
        if number < self.len() {
            Some(LaidType::of(self, self.entry(number), number))
        } else {
            None
        }
    }

    /// The type of a number, with the number.
    pub fn numbered(&self, number: usize) -> Option<NumberedType<'_>>
        ensures { result ≡ numbered_at self.now number }
    {
        if number < self.len() {
            Some(NumberedType::of(self, self.entry(number), number))
        } else {
            None
        }
    }

    /// The entry of a number that is there.
    pub(crate) fn entry(&self, number: usize) -> &Entry
        requires { number < length self.now }
        ensures there { slice_get self.now number ≡ Some result.now.val_type }
        ensures stands { Stands self.now result.now }
    {
        &self.entries[number]
    }

    /// The type of a number that is there, to be shared.
    pub(crate) fn share(&self, number: usize) -> Result<Shared<ValType>, AllocError>
        requires { number < length self.now }
        ensures { IfOk result (λ t. t ≡ tree_at self.now number) }
    {
        let val_type = self.entry(number).share()?;
        Ok(val_type)
    }
}
