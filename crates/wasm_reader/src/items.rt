//! The items of the sections of imports, functions and exports, a kind for each (Core 2.0, section 5.5).

ghost use Rattle.ca_base.specs.Grammar.{Reads, MayRead};
ghost use Rattle.wasm_reader.specs.Items.{import_of, export_of};

use crate::declared::DeclaredFunc;
use ca_base::{Kind, ReadError, Refusal, Window};
use std::alloc::Global;
use syntax_trees::module::Export;
use syntax_trees::{ExportDesc, Import, ImportDesc, Name};
use wasm_code_reader::{GlobalTypes, Memories, ModuleWhy, Tables, refused_byte};

/// Reads what an import asks for.
#[tactic(auto, unfolding(crate::specs::Items::import_of))]
fn read_import_of(
    alloc: Global,
    window: &mut Window<ModuleWhy>,
) -> Result<ImportDesc, ReadError<ModuleWhy>>
    ensures { MayRead (λ d. d) import_of window.old window.new result }
{
    let place = window.at();
    let kind = window.byte()?;
    match kind {
        0 => Ok(ImportDesc::Func(window.u32()?)),
        1 => Ok(ImportDesc::Table(Tables::read(alloc, window)?)),
        2 => Ok(ImportDesc::Memory(Memories::read(alloc, window)?)),
        3 => Ok(ImportDesc::Global(GlobalTypes::read(alloc, window)?)),
        _ => Err(ReadError::Fault(refused_byte(false, place, kind))),
    }
}

/// Reads what an export offers.
#[tactic(auto, unfolding(crate::specs::Items::export_of))]
fn read_export_of(window: &mut Window<ModuleWhy>) -> Result<ExportDesc, Refusal<ModuleWhy>>
    ensures { Reads (λ d. d) export_of window.old window.new result }
{
    let place = window.at();
    let kind = window.byte()?;
    match kind {
        0 => Ok(ExportDesc::Func(window.u32()?)),
        1 => Ok(ExportDesc::Table(window.u32()?)),
        2 => Ok(ExportDesc::Memory(window.u32()?)),
        3 => Ok(ExportDesc::Global(window.u32()?)),
        _ => Err(refused_byte(false, place, kind)),
    }
}

/// Imports (Core 2.0, section 5.5.5).
pub(crate) struct Imports;

impl Kind for Imports {
    ghost use Rattle.wasm_reader.specs.Items.{import};

    type Why = ModuleWhy;

    type Item = Import;

    ghost grammar = { import };

    #[tactic(auto, unfolding(crate::specs::Items::import))]
    fn read(alloc: Global, window: &mut Window<ModuleWhy>) -> Result<Import, ReadError<ModuleWhy>> {
        let module = window.name()?;
        let text = window.name()?;
        let desc = read_import_of(alloc, window)?;
        Ok(Import {
            module: Name::new(alloc, module)?,
            name: Name::new(alloc, text)?,
            desc,
        })
    }
}

/// Functions as their section declares them (Core 2.0, section 5.5.6).
pub(crate) struct DeclaredFuncs;

impl Kind for DeclaredFuncs {
    ghost use Rattle.wasm_reader.specs.Items.{declared_func};

    type Why = ModuleWhy;

    type Item = DeclaredFunc;

    ghost grammar = { declared_func };

    #[tactic(auto, unfolding(crate::specs::Items::declared_func))]
    fn read(
        _alloc: Global,
        window: &mut Window<ModuleWhy>,
    ) -> Result<DeclaredFunc, ReadError<ModuleWhy>> {
        let place = window.at();
        let type_index = window.u32()?;
        Ok(DeclaredFunc { type_index, place })
    }
}

/// Exports (Core 2.0, section 5.5.10).
pub(crate) struct Exports;

impl Kind for Exports {
    ghost use Rattle.wasm_reader.specs.Items.{export};

    type Why = ModuleWhy;

    type Item = Export;

    ghost grammar = { export };

    #[tactic(auto, unfolding(crate::specs::Items::export))]
    fn read(alloc: Global, window: &mut Window<ModuleWhy>) -> Result<Export, ReadError<ModuleWhy>> {
        let text = window.name()?;
        let desc = read_export_of(window)?;
        let name = Name::new(alloc, text)?;
        Ok(Export { name, desc })
    }
}
