//! Canonical functions.

use ca_base::{Kind, ReadError, Window};
use comp_tree::Item;
use part_reader::{ComponentWhy, read_canon};
use std::alloc::Global;

/// Canonical functions as items of a component.
pub(crate) struct Canons;

impl Kind for Canons {
    ghost use Rattle.comp_reader.specs.Binary.{canon_item};

    type Why = ComponentWhy;

    type Item = Item;

    ghost grammar = { canon_item };

    #[tactic(auto, unfolding(crate::specs::Binary::canon_item))]
    fn read(
        alloc: Global,
        window: &mut Window<ComponentWhy>,
    ) -> Result<Item, ReadError<ComponentWhy>> {
        let read = read_canon(alloc, window)?;
        Ok(Item::Canon(read))
    }
}
