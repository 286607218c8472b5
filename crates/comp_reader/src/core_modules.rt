//! Core modules.

ghost use Rattle.std.specs.Prelude.{◌≡◌};
ghost use Rattle.ca_base.specs.Grammar.{MayRead, in_words};
ghost use Rattle.part_reader.specs.declared.fault.ComponentWhy.TheVariants as why;
ghost use Rattle.comp_reader.specs.Binary.{module_file};

use ca_base::{Kind, ReadError, Refusal, Window};
use comp_tree::Item;
use faults::MemoryOr;
use part_reader::ComponentWhy;
use std::alloc::Global;
use syntax_trees::Boxed;
use wasm_code_reader::ModuleWhy;
use wasm_reader::read_module;
use wasm_typing::Module;
use wasm_valid::validate;

/// The refusal of a module as one of its component.
fn of_module(refusal: Refusal<ModuleWhy>) -> Refusal<ComponentWhy>
    ensures { result ≡ in_words (λ reason. why.Module reason) refusal }
{
    Refusal {
        place: refusal.place,
        why: ComponentWhy::Module(refusal.why),
    }
}

/// Reads a core module that fills what is left of its window.
#[tactic(auto, unfolding(crate::specs::Binary::module_file))]
fn read_module_file(
    alloc: Global,
    window: &mut Window<ComponentWhy>,
) -> Result<Module, ReadError<ComponentWhy>>
    ensures { MayRead (λ m. m) module_file window.old window.new result }
{
    let place = window.at();
    let bytes = window.take(window.left())?;
    match read_module(alloc, bytes, place) {
        Ok(read) => Ok(read),
        Err(MemoryOr::Memory) => Err(MemoryOr::Memory),
        Err(MemoryOr::Fault(refusal)) => Err(MemoryOr::Fault(of_module(refusal))),
    }
}

/// Core modules, which are valid (Component Model, Binary.md, `core:module`).
pub(crate) struct CoreModules;

impl Kind for CoreModules {
    ghost use Rattle.comp_reader.specs.Binary.{core_module};

    type Why = ComponentWhy;

    type Item = Item;

    ghost grammar = { core_module };

    #[tactic(auto, unfolding(crate::specs::Binary::core_module))]
    fn read(
        alloc: Global,
        window: &mut Window<ComponentWhy>,
    ) -> Result<Item, ReadError<ComponentWhy>> {
        let read = read_module_file(alloc, window)?;
        match validate(alloc, read) {
            Ok(valid) => {
                let boxed = Boxed::new(alloc, valid)?;
                Ok(Item::CoreModule(boxed))
            }
            Err(MemoryOr::Memory) => Err(MemoryOr::Memory),
            Err(MemoryOr::Fault(fault)) => Err(MemoryOr::Fault(Refusal {
                place: fault.place,
                why: ComponentWhy::Invalid(fault.why),
            })),
        }
    }
}
