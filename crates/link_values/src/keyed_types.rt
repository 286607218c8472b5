//! Types of values, each found by its key.

ghost use Rattle.std.specs.Prelude.{◌≡◌, ◌∷◌, ◌++◌, [], length, None, Some, IfOk, OnOk, OnErr};
ghost use Rattle.syntax_trees.specs.declared.types.ValType.{ValType};
ghost use Rattle.laid_types.specs.Layers.{AreThere, type_of, part_numbers, layer_labels};
ghost use Rattle.link_values.specs.Keys.{IsKeyOf, IsKeyOfLayer};
ghost use Rattle.link_values.specs.Labels.{list_number, texts};
ghost use Rattle.link_values.specs.Numbering.{AreApart, IsNumberOf};

use crate::keys::{ValueKey, key_of};
use crate::label_lists::LabelLists;
use laid_types::{LaidTypes, ValTypeLayer};
use std::alloc::{AllocError, Global};
use std::collections::BTreeMap;
use std::marker::Model;

/// Lists of labels, and types of values over them and over earlier types, each distinct one once. Contracts see the lists, each before
/// its number, and the types, in order of adding.
#[derive(Drop)]
pub(crate) struct KeyedTypes<'a> {
    lists: LabelLists<'a>,
    numbers: BTreeMap<ValueKey, usize>,
    laid: LaidTypes,
}

impl<'a> Model for KeyedTypes<'a> {
    ghost use Rattle.std.specs.Coded.{codes};
    ghost use Rattle.syntax_trees.specs.contracts.types.ValType as val_type;
    ghost use Rattle.link_values.specs.Keyed as keyed;

    ghost Value = { keyed.LabelledTypes };

    ghost coded = { Prim.hlevel (codes, val_type.the_row.coded) };

    ghost view = { λ t. record { lists = t.lists; types = t.laid } };

    ghost invariant = { λ t. keyed.AreKeyed t.lists t.numbers t.laid };
}

impl<'a> KeyedTypes<'a> {
    /// No lists and no types. They take no memory.
    pub(crate) fn new(alloc: Global) -> KeyedTypes<'a>
        ensures { result ≡ record { lists = []; types = [] } }
    {
        KeyedTypes {
            lists: LabelLists::new(alloc),
            numbers: BTreeMap::new(alloc),
            laid: LaidTypes::new(alloc),
        }
    }

    /// The types, with what is computed of each.
    pub(crate) fn laid(&self) -> &LaidTypes
        ensures { result.now ≡ self.now.types }
    {
        &self.laid
    }

    /// The types alone.
    pub(crate) fn into_laid(self) -> LaidTypes
        ensures { result ≡ self.entry.types }
    {
        let KeyedTypes {
            lists: _,
            numbers: _,
            laid,
        } = self;
        laid
    }

    /// The number of a list of labels, which is added where it is not there. It fails for want of memory alone.
    pub(crate) fn list_number(&mut self, labels: Vec<&'a str>) -> Result<usize, AllocError>
        ensures ok { IfOk result (λ number. list_number self.new.lists (texts labels.entry.items) ≡ Some number) }
        ensures types { self.new.types ≡ self.old.types }
    {
        Ok(self.lists.number_of(labels)?)
    }

    /// The number of the type that a key is of, where it is there.
    pub(crate) fn find(&self, key: &ValueKey) -> Option<usize>
        ensures { (t : ValType) → IsKeyOf self.now.lists self.now.types key.now t → IsNumberOf self.now.types t result }
    {
        self.numbers.get(key).copied()
    }

    /// Adds the type of a layer that is not there, whose list of labels has this number, and answers its number. It fails for want of
    /// memory alone, and then adds none.
    pub(crate) fn add(
        &mut self,
        alloc: Global,
        layer: &ValTypeLayer<'_, '_>,
        labels: usize,
        key: &ValueKey,
    ) -> Result<usize, AllocError>
        requires there { AreThere self.old.types (part_numbers layer.now) }
        requires listed { list_number self.old.lists (layer_labels layer.now) ≡ Some labels }
        requires key { IsKeyOfLayer labels key.now layer.now }
        requires absent { IsNumberOf self.old.types (type_of self.old.types layer.now) None }
        ensures number { IfOk result (λ number. number ≡ length self.old.types) }
        ensures ok { OnOk result (self.new.types ≡ self.old.types ++ type_of self.old.types layer.now ∷ []) }
        ensures err { OnErr result (self.new.types ≡ self.old.types) }
        ensures apart { AreApart self.new.types }
    {
        let number = self.laid.len();
        self.numbers.insert(key_of(alloc, layer, labels)?, number)?;
        match self.laid.add(alloc, layer) {
            Ok(number) => Ok(number),
            Err(error) => {
                self.numbers.remove(key);
                Err(error)
            }
        }
    }
}
