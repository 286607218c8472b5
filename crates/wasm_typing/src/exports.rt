//! The rules on exports and on the function that runs first (Core 2.0, sections 3.4.7 and 3.4.8).

ghost use Rattle.std.specs.Prelude.{◌≡◌, ℕ, List, ◌||◌, OnOk, []};
ghost use Rattle.std.specs.Option.{option_map};
ghost use Rattle.std.specs.Str.{bytes_eq};
ghost use Rattle.faults.specs.Faults.{first_in, MayFind};
ghost use Rattle.syntax_trees.specs.Names.{has};
ghost use Rattle.wasm_typing.specs.Items.{at_spot, export_why, export_fault, is_start, start_fault};

use crate::fault::Fault;
use crate::space::Space;
use crate::spot::Spot;
use crate::why::ValidWhy;
use faults::MemoryOr;
use std::alloc::Global;
use std::collections::BTreeSet;
use syntax_trees::adds;
use syntax_trees::module::Export;
use syntax_trees::module_types::FuncType;

/// The error of a part.
fn wrong(spot: Spot, why: ValidWhy) -> MemoryOr<Fault>
    ensures { result ≡ MemoryOr.Fault (record { spot = spot; why = why }) }
{
    MemoryOr::Fault(Fault::at(spot, why))
}

/// Checks the export of this number, and adds its name to those that were seen before it.
fn check_export<'a>(
    space: &Space,
    number: usize,
    seen: &mut BTreeSet<&'a str>,
    export: &'a Export,
) -> Result<(), MemoryOr<Fault>>
    ensures found { MayFind (at_spot (Spot.Export number) (export_why space.now (has seen.old export.now.name) export.now.desc)) result }
    ensures seen { OnOk result ((q : List ℕ) → has seen.new q ≡ (bytes_eq export.now.name q || has seen.old q)) }
{
    if !space.has(export.desc) {
        return Err(wrong(Spot::Export(number), ValidWhy::Index));
    }
    if !adds(seen, export.name.as_str())? {
        return Err(wrong(Spot::Export(number), ValidWhy::Name));
    }
    Ok(())
}

/// Looks for the first fault of the exports. `Memory` is want of memory.
pub fn check_exports(
    alloc: Global,
    space: &Space,
    exports: &[Export],
) -> Result<(), MemoryOr<Fault>>
    ensures { MayFind (first_in (export_fault space.now) [] exports.now) result }
{
    let mut seen = BTreeSet::new(alloc);
    for number in 0..exports.len() {
        check_export(space, number, &mut seen, &exports[number])?;
    }
    Ok(())
}

/// Whether a function takes and gives nothing.
fn is_start(found: Option<&FuncType>) -> bool
    ensures { result ≡ is_start (option_map (λ type. type.now) found.entry) }
{
    match found {
        None => false,
        Some(func_type) => func_type.params.is_empty() && func_type.results.is_empty(),
    }
}

/// Looks for the fault of the function that runs first.
pub fn check_start(space: &Space, start: Option<u32>) -> Result<(), MemoryOr<Fault>>
    ensures { MayFind (start_fault space.now start) result }
{
    let Some(index) = start else {
        return Ok(());
    };
    if index as usize >= space.funcs().len() {
        return Err(wrong(Spot::Start, ValidWhy::Index));
    }
    if !is_start(space.type_of_func(index)) {
        return Err(wrong(Spot::Start, ValidWhy::Typing));
    }
    Ok(())
}
