//! The sections of a component, by their ids, and components that hold others.
//!
//! Components hold others up to a bounded depth, so these readers call one another; how many more may be opened is passed on.

ghost use Rattle.std.specs.Prelude.{◌≡◌};
ghost use Rattle.ca_base.specs.Grammar.{MayRead};
ghost use Rattle.ca_base.specs.Items.{to_the_end};
ghost use Rattle.comp_reader.specs.Binary.{custom_items, module_items, component_items, payload, plain_payload, is_section, section, component_of, component_within};

use crate::aliases::Aliases;
use crate::canons::Canons;
use crate::core_instances::CoreInstances;
use crate::core_modules::CoreModules;
use crate::def_types::Types;
use crate::externs::{Exports, Imports};
use crate::instances::Instances;
use ca_base::{Placed, PlacedOf, ReadError, Refusal, Window, join, read_placed, read_vec};
use comp_tree::{Component, Item};
use part_reader::{ComponentWhy, unsupported};
use std::alloc::Global;
use syntax_trees::Seq;

/// The preamble of a component: its magic number, its version and its layer.
const PREAMBLE: [u8; 8] = [0x00, 0x61, 0x73, 0x6D, 0x0D, 0x00, 0x01, 0x00];

/// Reads a custom section, which has no item.
#[tactic(auto, unfolding(crate::specs::Binary::custom_items))]
fn read_custom(
    alloc: Global,
    window: &mut Window<ComponentWhy>,
) -> Result<Seq<Placed<Item>>, ReadError<ComponentWhy>>
    ensures { MayRead (λ read. read) custom_items window.old window.new result }
{
    window.custom()?;
    Ok(Seq::new(alloc))
}

/// Reads the section of a core module, which has one item.
#[tactic(auto, unfolding(crate::specs::Binary::module_items))]
fn read_module_section(
    alloc: Global,
    window: &mut Window<ComponentWhy>,
) -> Result<Seq<Placed<Item>>, ReadError<ComponentWhy>>
    ensures { MayRead (λ read. read) module_items window.old window.new result }
{
    let read = read_placed::<CoreModules>(alloc, window)?;
    let items = Seq::of(alloc, read)?;
    Ok(items)
}

/// Reads the payload of a section that is not one of a component, by its id.
#[tactic(auto, unfolding(crate::specs::Binary::plain_payload))]
fn read_plain_payload(
    alloc: Global,
    id: u8,
    window: &mut Window<ComponentWhy>,
) -> Result<Seq<Placed<Item>>, ReadError<ComponentWhy>>
    ensures { MayRead (λ read. read) (plain_payload id) window.old window.new result }
{
    match id {
        0 => read_custom(alloc, window),
        1 => read_module_section(alloc, window),
        2 => read_vec::<PlacedOf<CoreInstances>>(alloc, window),
        5 => read_vec::<PlacedOf<Instances>>(alloc, window),
        6 => read_vec::<PlacedOf<Aliases>>(alloc, window),
        7 => read_vec::<PlacedOf<Types>>(alloc, window),
        8 => read_vec::<PlacedOf<Canons>>(alloc, window),
        10 => read_vec::<PlacedOf<Imports>>(alloc, window),
        _ => read_vec::<PlacedOf<Exports>>(alloc, window),
    }
}

/// Whether sections of this id are read.
fn is_read(id: u8) -> bool
    ensures { result ≡ is_section id }
{
    id == 0
        || id == 1
        || id == 2
        || id == 4
        || id == 5
        || id == 6
        || id == 7
        || id == 8
        || id == 10
        || id == 11
}

/// Reads a component where so many components may be opened, itself one of them.
#[cycle(components)]
#[tactic(auto, using(crate::proofs::Depth::component_none, crate::proofs::Depth::component_more))]
pub(crate) fn read_component_within(
    alloc: Global,
    allowed: u8,
    window: &mut Window<ComponentWhy>,
) -> Result<Component, ReadError<ComponentWhy>>
    ensures { MayRead (λ c. c) (component_within allowed) window.old window.new result }
{
    if allowed == 0 {
        return Err(ReadError::Fault(Refusal {
            place: window.at(),
            why: ComponentWhy::Limit,
        }));
    }
    read_opened(alloc, allowed - 1, window)
}

/// Reads a component inside which so many components may be opened.
#[cycle(components)]
#[tactic(auto, unfolding(crate::specs::Binary::component_of))]
fn read_opened(
    alloc: Global,
    more: u8,
    window: &mut Window<ComponentWhy>,
) -> Result<Component, ReadError<ComponentWhy>>
    ensures { MayRead (λ c. c) (component_of (component_within more)) window.old window.new result }
{
    window.fixed(&PREAMBLE, ComponentWhy::Magic)?;
    let sections = read_sections(alloc, more, window)?;
    window.at_end()?;
    let items = join(alloc, sections)?;
    Ok(Component { items })
}

/// Reads sections up to the window's end.
#[cycle(components)]
#[tactic(auto, using(ca_base::proofs::Many::many_none, ca_base::proofs::Many::many_ends, ca_base::proofs::Many::many_ok, ca_base::proofs::Many::many_err))]
fn read_sections(
    alloc: Global,
    more: u8,
    window: &mut Window<ComponentWhy>,
) -> Result<Seq<Seq<Placed<Item>>>, ReadError<ComponentWhy>>
    ensures { MayRead (λ read. read) (to_the_end (section (component_within more))) window.old window.new result }
{
    let mut sections = Seq::new(alloc);
    let count = window.left();
    for _index in 0..count {
        if window.is_empty() {
            return Ok(sections);
        }
        let read = read_section(alloc, more, window)?;
        sections.push(read)?;
    }
    Ok(sections)
}

/// Reads a section (Component Model, Binary.md, `section`).
#[cycle(components)]
#[tactic(auto, unfolding(crate::specs::Binary::section))]
fn read_section(
    alloc: Global,
    more: u8,
    window: &mut Window<ComponentWhy>,
) -> Result<Seq<Placed<Item>>, ReadError<ComponentWhy>>
    ensures { MayRead (λ read. read) (section (component_within more)) window.old window.new result }
{
    let place = window.at();
    let id = window.byte()?;
    if is_read(id) {
        let mut inner = window.open()?;
        let items = read_payload(alloc, more, id, &mut inner)?;
        inner.finish()?;
        return Ok(items);
    }
    Err(ReadError::Fault(unsupported(place, id)))
}

/// Reads the payload of a section, by its id.
#[cycle(components)]
#[tactic(auto, unfolding(crate::specs::Binary::payload))]
fn read_payload(
    alloc: Global,
    more: u8,
    id: u8,
    window: &mut Window<ComponentWhy>,
) -> Result<Seq<Placed<Item>>, ReadError<ComponentWhy>>
    ensures { MayRead (λ read. read) (payload (component_within more) id) window.old window.new result }
{
    if id == 4 {
        return read_component_section(alloc, more, window);
    }
    read_plain_payload(alloc, id, window)
}

/// Reads the section of a component that stands in another one, which has one item.
#[cycle(components)]
#[tactic(auto, unfolding(crate::specs::Binary::component_items))]
fn read_component_section(
    alloc: Global,
    allowed: u8,
    window: &mut Window<ComponentWhy>,
) -> Result<Seq<Placed<Item>>, ReadError<ComponentWhy>>
    ensures { MayRead (λ read. read) (component_items (component_within allowed)) window.old window.new result }
{
    let place = window.at();
    let component = read_component_within(alloc, allowed, window)?;
    let items = Seq::of(
        alloc,
        Placed {
            item: Item::Component(component),
            place,
        },
    )?;
    Ok(items)
}
