//! Aliases.

ghost use Rattle.std.specs.Prelude.{◌≡◌};
ghost use Rattle.ca_base.specs.Grammar.{MayRead};
ghost use Rattle.comp_reader.specs.Binary.{may_be_outer, alias_target, alias};

use crate::sorts::read_sort;
use ca_base::{Kind, ReadError, Window};
use comp_tree::{Alias, AliasTarget, Item, Sort};
use part_reader::{ComponentWhy, read_name, unsupported};
use std::alloc::Global;

/// Whether definitions of this sort have outer aliases.
fn may_be_outer(sort: Sort) -> bool
    ensures { result ≡ may_be_outer sort }
{
    match sort {
        Sort::Type | Sort::Component => true,
        Sort::Core(_) | Sort::Func | Sort::Instance => false,
    }
}

/// Reads the target of an alias of this sort (Component Model, Binary.md, `aliastarget`).
#[tactic(auto, unfolding(crate::specs::Binary::alias_target))]
fn read_alias_target(
    alloc: Global,
    sort: Sort,
    window: &mut Window<ComponentWhy>,
) -> Result<AliasTarget, ReadError<ComponentWhy>>
    ensures { MayRead (λ target. target) (alias_target sort) window.old window.new result }
{
    let place = window.at();
    let byte = window.byte()?;
    if byte == 0 {
        let instance = window.u32()?;
        let name = read_name(alloc, window)?;
        return Ok(AliasTarget::InstanceExport { instance, name });
    }
    if byte == 1 {
        let instance = window.u32()?;
        let name = read_name(alloc, window)?;
        return Ok(AliasTarget::CoreInstanceExport { instance, name });
    }
    if byte == 2 && may_be_outer(sort) {
        let up = window.u32()?;
        let index = window.u32()?;
        return Ok(AliasTarget::Outer { up, index });
    }
    Err(ReadError::Fault(unsupported(place, byte)))
}

/// Reads an alias (Component Model, Binary.md, `alias`).
#[tactic(auto, unfolding(crate::specs::Binary::alias))]
pub(crate) fn read_alias(
    alloc: Global,
    window: &mut Window<ComponentWhy>,
) -> Result<Alias, ReadError<ComponentWhy>>
    ensures { MayRead (λ read. read) alias window.old window.new result }
{
    let sort = read_sort(window)?;
    let target = read_alias_target(alloc, sort, window)?;
    Ok(Alias { sort, target })
}

/// Aliases as items of a component.
pub(crate) struct Aliases;

impl Kind for Aliases {
    ghost use Rattle.comp_reader.specs.Binary.{alias_item};

    type Why = ComponentWhy;

    type Item = Item;

    ghost grammar = { alias_item };

    #[tactic(auto, unfolding(crate::specs::Binary::alias_item))]
    fn read(
        alloc: Global,
        window: &mut Window<ComponentWhy>,
    ) -> Result<Item, ReadError<ComponentWhy>> {
        let read = read_alias(alloc, window)?;
        Ok(Item::Alias(read))
    }
}
