//! Core instances.

use crate::sorts::read_core_sort;
use ca_base::{Kind, ReadError, Window, read_vec};
use comp_tree::{CoreArgument, CoreInlineExport, CoreInstance, Item};
use part_reader::{ComponentWhy, read_name, unsupported};
use std::alloc::Global;

/// Arguments of core modules (Component Model, Binary.md, `core:instantiatearg`).
struct CoreArguments;

impl Kind for CoreArguments {
    ghost use Rattle.comp_reader.specs.Binary.{core_argument};

    type Why = ComponentWhy;

    type Item = CoreArgument;

    ghost grammar = { core_argument };

    #[tactic(auto, unfolding(crate::specs::Binary::core_argument))]
    fn read(
        alloc: Global,
        window: &mut Window<ComponentWhy>,
    ) -> Result<CoreArgument, ReadError<ComponentWhy>> {
        let name = read_name(alloc, window)?;
        window.marker(0x12)?;
        let instance = window.u32()?;
        Ok(CoreArgument { name, instance })
    }
}

/// Inline exports of core instances (Component Model, Binary.md, `core:inlineexport`).
struct CoreInlineExports;

impl Kind for CoreInlineExports {
    ghost use Rattle.comp_reader.specs.Binary.{core_inline_export};

    type Why = ComponentWhy;

    type Item = CoreInlineExport;

    ghost grammar = { core_inline_export };

    #[tactic(auto, unfolding(crate::specs::Binary::core_inline_export))]
    fn read(
        alloc: Global,
        window: &mut Window<ComponentWhy>,
    ) -> Result<CoreInlineExport, ReadError<ComponentWhy>> {
        let name = read_name(alloc, window)?;
        let sort = read_core_sort(window)?;
        let index = window.u32()?;
        Ok(CoreInlineExport { name, sort, index })
    }
}

/// Core instances (Component Model, Binary.md, `core:instance`).
pub(crate) struct CoreInstances;

impl Kind for CoreInstances {
    ghost use Rattle.comp_reader.specs.Binary.{core_instance};

    type Why = ComponentWhy;

    type Item = Item;

    ghost grammar = { core_instance };

    #[tactic(auto, unfolding(crate::specs::Binary::core_instance))]
    fn read(
        alloc: Global,
        window: &mut Window<ComponentWhy>,
    ) -> Result<Item, ReadError<ComponentWhy>> {
        let place = window.at();
        let byte = window.byte()?;
        if byte == 0 {
            let module = window.u32()?;
            let arguments = read_vec::<CoreArguments>(alloc, window)?;
            return Ok(Item::CoreInstance(CoreInstance::Instantiate { module, arguments }));
        }
        if byte == 1 {
            let exports = read_vec::<CoreInlineExports>(alloc, window)?;
            return Ok(Item::CoreInstance(CoreInstance::Inline(exports)));
        }
        Err(ReadError::Fault(unsupported(place, byte)))
    }
}
