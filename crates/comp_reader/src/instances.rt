//! Instances.

use crate::sorts::read_sort;
use ca_base::{Kind, ReadError, Window, read_vec};
use comp_tree::{Instance, Item, NamedDefinition};
use part_reader::{ComponentWhy, read_extern_name, read_name, unsupported};
use std::alloc::Global;

/// Arguments of components (Component Model, Binary.md, `instantiatearg`).
struct Arguments;

impl Kind for Arguments {
    ghost use Rattle.comp_reader.specs.Binary.{argument};

    type Why = ComponentWhy;

    type Item = NamedDefinition;

    ghost grammar = { argument };

    #[tactic(auto, unfolding(crate::specs::Binary::argument))]
    fn read(
        alloc: Global,
        window: &mut Window<ComponentWhy>,
    ) -> Result<NamedDefinition, ReadError<ComponentWhy>> {
        let name = read_name(alloc, window)?;
        let sort = read_sort(window)?;
        let index = window.u32()?;
        Ok(NamedDefinition { name, sort, index })
    }
}

/// Inline exports of instances (Component Model, Binary.md, `inlineexport`).
struct InlineExports;

impl Kind for InlineExports {
    ghost use Rattle.comp_reader.specs.Binary.{inline_export};

    type Why = ComponentWhy;

    type Item = NamedDefinition;

    ghost grammar = { inline_export };

    #[tactic(auto, unfolding(crate::specs::Binary::inline_export))]
    fn read(
        alloc: Global,
        window: &mut Window<ComponentWhy>,
    ) -> Result<NamedDefinition, ReadError<ComponentWhy>> {
        let name = read_extern_name(alloc, window)?;
        let sort = read_sort(window)?;
        let index = window.u32()?;
        Ok(NamedDefinition { name, sort, index })
    }
}

/// Instances (Component Model, Binary.md, `instance`).
pub(crate) struct Instances;

impl Kind for Instances {
    ghost use Rattle.comp_reader.specs.Binary.{instance};

    type Why = ComponentWhy;

    type Item = Item;

    ghost grammar = { instance };

    #[tactic(auto, unfolding(crate::specs::Binary::instance))]
    fn read(
        alloc: Global,
        window: &mut Window<ComponentWhy>,
    ) -> Result<Item, ReadError<ComponentWhy>> {
        let place = window.at();
        let byte = window.byte()?;
        if byte == 0 {
            let component = window.u32()?;
            let arguments = read_vec::<Arguments>(alloc, window)?;
            return Ok(Item::Instance(Instance::Instantiate {
                component,
                arguments,
            }));
        }
        if byte == 1 {
            let exports = read_vec::<InlineExports>(alloc, window)?;
            return Ok(Item::Instance(Instance::Inline(exports)));
        }
        Err(ReadError::Fault(unsupported(place, byte)))
    }
}
