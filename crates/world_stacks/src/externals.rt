//! What the imports of core instances are, by their addresses in the store.

ghost use Rattle.std.specs.Prelude.{◌≡◌, map, Result, Ok, Err};
ghost use Rattle.std.specs.Option.{option_map};
ghost use Rattle.wasm_store.specs.Views.{address_of};
ghost use Rattle.world_stacks.specs.Addresses.{external_of, externals};
ghost use Rattle.world_stacks.specs.Instantiating.{FindsAll};

use crate::addresses::{func_address, global_address, memory_address, table_address};
use comp_graph::CoreExtern;
use std::alloc::Global;
use syntax_trees::Seq;
use wasm_code::External;
use wasm_store::Store;
use world_parts::{Part, Stop};

/// What these imports are, where all are there (Core 2.0, section 4.5.4).
#[tactic(auto, using(crate::proofs::Imports::none_yet, crate::proofs::Imports::one_more, crate::proofs::Imports::one_missing, crate::proofs::Imports::all_there))]
pub(crate) fn externals_of(
    alloc: Global,
    store: &Store,
    imports: &[CoreExtern],
) -> Part<Seq<External>>
    ensures { FindsAll (externals store.now imports.now) result }
{
    let mut found = Seq::new(alloc);
    for import in imports {
        let Some(external) = external_of(store, *import) else {
            return Err(Stop::Stuck);
        };
        match found.push(external) {
            Ok(()) => {}
            Err(_) => return Err(Stop::Memory),
        }
    }
    Ok(found)
}

/// What an import is, where it is there.
fn external_of(store: &Store, import: CoreExtern) -> Option<External>
    ensures { option_map address_of result ≡ external_of store.now import }
{
    match import {
        CoreExtern::Func(func) => match func_address(store, func) {
            Some(address) => Some(External::Func(address)),
            None => None,
        },
        CoreExtern::Table(at) => match table_address(store, at) {
            Some(address) => Some(External::Table(address)),
            None => None,
        },
        CoreExtern::Memory(at) => match memory_address(store, at) {
            Some(address) => Some(External::Memory(address)),
            None => None,
        },
        CoreExtern::Global(at) => match global_address(store, at) {
            Some(address) => Some(External::Global(address)),
            None => None,
        },
    }
}
