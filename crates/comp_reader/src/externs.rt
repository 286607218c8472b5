//! Imports and exports.

ghost use Rattle.ca_base.specs.Grammar.{Reads};
ghost use Rattle.comp_reader.specs.Binary.{type_bound, extern_desc, export_desc};

use crate::sorts::read_sort;
use ca_base::{Kind, ReadError, Refusal, Window};
use comp_tree::{Export, ExternDesc, Import, Item};
use part_reader::{ComponentWhy, read_extern_name, unsupported};
use std::alloc::Global;

/// Reads what a type is to be (Component Model, Binary.md, `typebound`).
#[tactic(auto, unfolding(crate::specs::Binary::type_bound))]
fn read_type_bound(window: &mut Window<ComponentWhy>) -> Result<ExternDesc, Refusal<ComponentWhy>>
    ensures { Reads (λ desc. desc) type_bound window.old window.new result }
{
    let place = window.at();
    let byte = window.byte()?;
    match byte {
        0x00 => Ok(ExternDesc::TypeEq(window.u32()?)),
        0x01 => Ok(ExternDesc::Resource),
        _ => Err(unsupported(place, byte)),
    }
}

/// Reads what an import or an export is to be (Component Model, Binary.md, `externdesc`).
#[tactic(auto, unfolding(crate::specs::Binary::extern_desc))]
pub(crate) fn read_extern_desc(
    window: &mut Window<ComponentWhy>,
) -> Result<ExternDesc, Refusal<ComponentWhy>>
    ensures { Reads (λ desc. desc) extern_desc window.old window.new result }
{
    let place = window.at();
    let byte = window.byte()?;
    if byte == 1 {
        let func_type = window.u32()?;
        return Ok(ExternDesc::Func(func_type));
    }
    if byte == 3 {
        return read_type_bound(window);
    }
    if byte == 5 {
        let instance_type = window.u32()?;
        return Ok(ExternDesc::Instance(instance_type));
    }
    Err(unsupported(place, byte))
}

/// Imports (Component Model, Binary.md, `import`).
pub(crate) struct Imports;

impl Kind for Imports {
    ghost use Rattle.comp_reader.specs.Binary.{import};

    type Why = ComponentWhy;

    type Item = Item;

    ghost grammar = { import };

    #[tactic(auto, unfolding(crate::specs::Binary::import))]
    fn read(
        alloc: Global,
        window: &mut Window<ComponentWhy>,
    ) -> Result<Item, ReadError<ComponentWhy>> {
        let name = read_extern_name(alloc, window)?;
        let desc = read_extern_desc(window)?;
        Ok(Item::Import(Import { name, desc }))
    }
}

/// Reads what an export is said to be, where the component says so.
#[tactic(auto, unfolding(crate::specs::Binary::export_desc))]
fn read_export_desc(
    window: &mut Window<ComponentWhy>,
) -> Result<Option<ExternDesc>, Refusal<ComponentWhy>>
    ensures { Reads (λ desc. desc) export_desc window.old window.new result }
{
    let place = window.at();
    let byte = window.byte()?;
    if byte == 0 {
        return Ok(None);
    }
    if byte == 1 {
        let desc = read_extern_desc(window)?;
        return Ok(Some(desc));
    }
    Err(unsupported(place, byte))
}

/// Exports (Component Model, Binary.md, `export`).
pub(crate) struct Exports;

impl Kind for Exports {
    ghost use Rattle.comp_reader.specs.Binary.{export};

    type Why = ComponentWhy;

    type Item = Item;

    ghost grammar = { export };

    #[tactic(auto, unfolding(crate::specs::Binary::export))]
    fn read(
        alloc: Global,
        window: &mut Window<ComponentWhy>,
    ) -> Result<Item, ReadError<ComponentWhy>> {
        let name = read_extern_name(alloc, window)?;
        let sort = read_sort(window)?;
        let index = window.u32()?;
        let desc = read_export_desc(window)?;
        Ok(Item::Export(Export {
            name,
            sort,
            index,
            desc,
        }))
    }
}
