//! The table of types of values.

ghost use Rattle.std.specs.Prelude.{◌≡◌, ◌<◌, [], length, Some, IfOk, OnErr};
ghost use Rattle.std.specs.List.{slice_get};
ghost use Rattle.laid_types.specs.Layers.{AreThere, type_of, part_numbers};
ghost use Rattle.link_values.specs.Numbering.{AreApart, IsAdded};

use crate::keyed_types::KeyedTypes;
use crate::keys::key_of;
use laid_types::{LaidType, LaidTypes, ValTypeLayer};
use std::alloc::{AllocError, Global};
use std::marker::Model;
use syntax_trees::{Shared, ValType};

/// Types of values (Component Model, Explainer.md, "Type Definitions"), each distinct one once, over earlier ones, with what is
/// computed of each. A type's number is its place, so two types are the same exactly where their numbers are. Contracts see the
/// types, in order of adding.
#[derive(Drop)]
pub struct ValueTypes<'a> {
    kept: KeyedTypes<'a>,
}

impl<'a> Model for ValueTypes<'a> {
    ghost use Rattle.std.specs.Prelude.{List};
    ghost use Rattle.std.specs.Coded.{coded_list};
    ghost use Rattle.syntax_trees.specs.declared.types.ValType.{ValType};
    ghost use Rattle.syntax_trees.specs.contracts.types.ValType as val_type;
    ghost use Rattle.link_values.specs.Numbering.{AreApart};

    ghost Value = { List ValType };

    ghost coded = { coded_list val_type.the_row.coded };

    ghost view = { λ t. t.kept.types };

    ghost invariant = { λ t. AreApart t.kept.types };
}

impl<'a> ValueTypes<'a> {
    /// No types. They take no memory.
    pub fn new(alloc: Global) -> ValueTypes<'a>
        ensures { result ≡ [] }
    {
        ValueTypes {
            kept: KeyedTypes::new(alloc),
        }
    }

    /// How many types there are.
    pub fn len(&self) -> usize
        ensures { result ≡ length self.now }
    {
        self.laid().len()
    }

    /// The types, with what is computed of each.
    fn laid(&self) -> &LaidTypes
        ensures { result.now ≡ self.now }
    {
        self.kept.laid()
    }

    /// No type stands at two numbers.
    pub fn are_apart(&self)
        ensures { AreApart self.now }
    {
        let _ = &self.kept;
    }

    /// The number of the type of a layer, whose parts are there. The type is added behind the others where it is not there. It fails
    /// for want of memory alone, and then adds none. Its cost is that of the layer and of a look-up, however many types stand in one
    /// another.
    pub fn number_of(
        &mut self,
        alloc: Global,
        layer: &ValTypeLayer<'_, 'a>,
    ) -> Result<usize, AllocError>
        requires { AreThere self.old (part_numbers layer.now) }
        ensures ok { IfOk result (λ number. IsAdded self.old (type_of self.old layer.now) number self.new) }
        ensures err { OnErr result (self.new ≡ self.old) }
        ensures apart { AreApart self.new }
    {
        // Also where there is no memory for the labels.
        self.are_apart();
        let labels = self.kept.list_number(layer.labels(alloc)?)?;
        let key = key_of(alloc, layer, labels)?;
        match self.kept.find(&key) {
            Some(number) => Ok(number),
            None => Ok(self.kept.add(alloc, layer, labels, &key)?),
        }
    }

    /// The type of a number.
    pub fn get(&self, number: usize) -> Option<LaidType<'_>>
        ensures { result ≡ slice_get self.now number }
    {
        self.laid().get(number)
    }

    /// The type of a number that is there.
    pub fn value(&self, number: usize) -> LaidType<'_>
        requires { number < length self.now }
        ensures { slice_get self.now number ≡ Some result }
    {
        match self.get(number) {
            Some(val_type) => val_type,
            None => unreachable!(),
        }
    }

    /// The type of a number that is there, as a tree that is shared. It fails only where there are as many owners as can be counted.
    pub fn share(&self, number: usize) -> Result<Shared<ValType>, AllocError>
        requires { number < length self.now }
        ensures { IfOk result (λ t. slice_get self.now number ≡ Some t) }
    {
        let val_type = self.value(number).share()?;
        Ok(val_type)
    }

    /// The types, with what is computed of each, without what finds them.
    pub fn into_laid(self) -> LaidTypes
        ensures { result ≡ self.entry }
    {
        let ValueTypes { kept } = self;
        kept.into_laid()
    }
}
