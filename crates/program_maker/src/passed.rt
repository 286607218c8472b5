//! The numbers of the types of what functions and built-ins pass.

ghost use Rattle.std.specs.Prelude.{◌≡◌, ◌<◌, ℕ, length, Some, None, IfOk};
ghost use Rattle.std.specs.List.{slice_get, AllZip};
ghost use Rattle.syntax_trees.specs.declared.exports.Export.{Export};
ghost use Rattle.syntax_trees.specs.declared.types.FuncType.{FuncType};
ghost use Rattle.syntax_trees.specs.declared.types.ValType.{ValType};
ghost use Rattle.laid_types.specs.Parts.{part_at};
ghost use Rattle.comp_graph.specs.Graph.{passed_value, numbered_value};
ghost use Rattle.comp_graph.specs.Passed.{MayBeAt, HasCanonType, AreCanonTypes, AreExportTypes};
ghost use Rattle.programs.specs.declared.program.FuncNumbers.{FuncNumbers};
ghost use Rattle.program_maker.specs.Programs.{PassesFunc, PassesCanon, PassesValue};

use comp_graph::{BuiltinKind, CanonFunc, FuncTypes};
use laid_types::LaidTypes;
use programs::FuncNumbers;
use std::alloc::{AllocError, Global};
use syntax_trees::Export;

/// A number, as an index.
fn as_index(number: Option<u32>) -> Option<usize>
    ensures { result ≡ number }
{
    match number {
        Some(number) => Some(number as usize),
        None => None,
    }
}

/// What functions of the type of this number pass.
fn func_numbers(types: &FuncTypes, number: u32) -> FuncNumbers
    requires { number < length types.now.funcs }
    ensures { (f : FuncType) → slice_get types.now.funcs number ≡ Some f → PassesFunc types.now.values result f }
{
    let func = types.func(number as usize);
    FuncNumbers {
        params: func.params as usize,
        returned: as_index(func.returned),
    }
}

/// What each export passes, whose types have these numbers.
pub(crate) fn export_numbers(
    alloc: Global,
    types: &FuncTypes,
    numbers: &[u32],
    exports: &[Export],
) -> Result<Vec<FuncNumbers>, AllocError>
    requires { AreExportTypes types.now.funcs numbers.now exports.now }
    ensures { IfOk result (λ all. AllZip (λ (numbers : FuncNumbers) (e : Export). PassesFunc types.now.values numbers e.func_type) all.items exports.now) }
{
    let mut all = Vec::new(alloc);
    for at in 0..exports.len() {
        all.push(func_numbers(types, numbers[at]))?;
    }
    Ok(all)
}

/// What a canonical function passes that lowers a function, whose type has this number.
fn canon_number(types: &FuncTypes, canon: &CanonFunc, number: Option<u32>) -> Option<FuncNumbers>
    requires { HasCanonType types.now number canon.now }
    ensures { PassesCanon types.now.values result canon.now }
{
    match canon {
        CanonFunc::Lower(_) => match number {
            Some(number) => Some(func_numbers(types, number)),
            None => None,
        },
        CanonFunc::Builtin(_) => None,
    }
}

/// What each canonical function passes that lowers a function.
pub(crate) fn canon_numbers(
    alloc: Global,
    types: &FuncTypes,
    canons: &[CanonFunc],
    numbers: &[Option<u32>],
) -> Result<Vec<Option<FuncNumbers>>, AllocError>
    requires { AreCanonTypes types.now numbers.now canons.now }
    ensures { IfOk result (λ all. AllZip (PassesCanon types.now.values) all.items canons.now) }
{
    let mut all = Vec::new(alloc);
    for at in 0..canons.len() {
        all.push(canon_number(types, &canons[at], numbers[at]))?;
    }
    Ok(all)
}

/// The number of the type of the elements of ends, of the number of the type of the ends, where they hold anything.
fn element_number(types: &LaidTypes, ends: Option<u32>) -> Option<usize>
    ensures { (t : ValType) → MayBeAt types.now ends (Some t) → MayBeAt types.now result (part_at t 0) }
{
    let ends = types.numbered(ends? as usize)?;
    let element = ends.part(0)?;
    Some(element.number())
}

/// The number of the type of the result or of the elements of a built-in, of the type by whose number it is known.
fn kind_number(types: &LaidTypes, kind: &BuiltinKind, number: Option<u32>) -> Option<usize>
    requires { MayBeAt types.now number (numbered_value kind.now) }
    ensures { MayBeAt types.now result (passed_value kind.now) }
{
    match kind {
        BuiltinKind::End { .. } => element_number(types, number),
        _ => as_index(number),
    }
}

/// The number of the type of the result or of the elements of a canonical function that is a built-in and has one.
fn value_number(types: &FuncTypes, canon: &CanonFunc, number: Option<u32>) -> Option<usize>
    requires { HasCanonType types.now number canon.now }
    ensures { PassesValue types.now.values result canon.now }
{
    match canon {
        CanonFunc::Lower(_) => None,
        CanonFunc::Builtin(builtin) => kind_number(types.values(), &builtin.kind, number),
    }
}

/// The numbers of the types of the results or of the elements of all canonical functions that are built-ins and have one.
pub(crate) fn value_numbers(
    alloc: Global,
    types: &FuncTypes,
    canons: &[CanonFunc],
    numbers: &[Option<u32>],
) -> Result<Vec<Option<usize>>, AllocError>
    requires { AreCanonTypes types.now numbers.now canons.now }
    ensures { IfOk result (λ all. AllZip (PassesValue types.now.values) all.items canons.now) }
{
    let mut all = Vec::new(alloc);
    for at in 0..canons.len() {
        all.push(value_number(types, &canons[at], numbers[at]))?;
    }
    Ok(all)
}
