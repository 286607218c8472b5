//! The types of the core functions that the Canonical ABI makes (Component Model, CanonicalABI.md, "Flattening"). They are taken from the
//! first core types that each type keeps, and no type is walked.

ghost use Rattle.std.specs.Prelude.{◌≡◌, ◌<◌, ◌++◌, true, false, length, map, take, Some, IfOk};
ghost use Rattle.std.specs.List.{slice_get};
ghost use Rattle.syntax_trees.specs.declared.types.FuncType as func_types;
ghost use Rattle.syntax_trees.specs.Flat.{at_most, flat_payload, out_place, returned};
ghost use Rattle.comp_graph.specs.declared.graph.CanonFunc.{CanonFunc};
ghost use Rattle.comp_graph.specs.Graph.{canon_type};
ghost use Rattle.comp_graph.specs.Needs.{core_val, lower_type};
ghost use Rattle.comp_graph.specs.Passed.{ArePassed};

use crate::builtin_types::builtin_type;
use comp_graph::{CanonFunc, Graph, PassedTypes};
use faults::Memory;
use laid_types::LaidType;
use std::alloc::Global;
use syntax_trees::module_types::{FuncType, ValType};
use syntax_trees::{CoreType, Seq};

/// How many core values are passed as core parameters; more are passed in memory.
const PARAM_LIMIT: usize = 16;

/// How many core values are given as core results; more are given in memory.
const RESULT_LIMIT: usize = 1;

/// How many core values are passed as core parameters of a function that is lowered with `async`. Each result of it is given in memory.
const ASYNC_PARAM_LIMIT: usize = 4;

/// The types of the core functions of a graph that the Canonical ABI makes, in order (Component Model, CanonicalABI.md, "Flattening"). It
/// fails for want of memory alone.
pub fn canon_func_types(alloc: Global, graph: &Graph<'_>) -> Result<Vec<FuncType>, Memory>
    ensures { IfOk result (λ types. types.items ≡ map canon_type graph.now.canons) }
{
    let mut types = Vec::new(alloc);
    for number in 0..graph.canons().len() {
        let of_canon = canon_func_type(alloc, graph, number)?;
        types.push(of_canon)?;
    }
    Ok(types)
}

/// The type of the core function of the Canonical ABI of a number.
fn canon_func_type(alloc: Global, graph: &Graph<'_>, number: usize) -> Result<FuncType, Memory>
    requires { number < length graph.now.canons }
    ensures { IfOk result (λ t. (c : CanonFunc) → slice_get graph.now.canons number ≡ Some c → t ≡ canon_type c) }
{
    match canon_at(graph, number) {
        CanonFunc::Lower(lower) => type_of_lower(
            alloc,
            &graph.canon_types(number),
            lower.get().options.is_async,
        ),
        CanonFunc::Builtin(builtin) => {
            builtin_type(alloc, &builtin.kind, &graph.canon_value(number))
        }
    }
}

/// The core function of the Canonical ABI of a number.
fn canon_at<'g>(graph: &'g Graph<'_>, number: usize) -> &'g CanonFunc
    requires { number < length graph.now.canons }
    ensures { slice_get graph.now.canons number ≡ Some result.now }
{
    &graph.canons()[number]
}

/// The type of the core function to which a function is lowered that passes these types.
fn type_of_lower(alloc: Global, types: &PassedTypes<'_>, is_async: bool) -> Result<FuncType, Memory>
    ensures { IfOk result (λ t. (f : func_types.FuncType) → ArePassed types.now f → t ≡ lower_type is_async f) }
{
    if is_async {
        async_type(alloc, types)
    } else {
        sync_type(alloc, types)
    }
}

/// The same without `async`.
#[tactic(auto, using(crate::proofs::FirstTypes::lowered_params_are, crate::proofs::FirstTypes::lowered_results_are))]
fn sync_type(alloc: Global, types: &PassedTypes<'_>) -> Result<FuncType, Memory>
    ensures { IfOk result (λ t. (f : func_types.FuncType) → ArePassed types.now f → t ≡ lower_type false f) }
{
    let result_types = flat_result(&types.returned);
    let params = lowered_params(
        alloc,
        types.params.flat(),
        PARAM_LIMIT,
        result_types,
        RESULT_LIMIT,
    )?;
    let results = lowered_results(alloc, result_types)?;
    Ok(FuncType { params, results })
}

/// The same with `async`: what it gives is the state of the subtask.
#[tactic(auto, using(crate::proofs::FirstTypes::async_params_are))]
fn async_type(alloc: Global, types: &PassedTypes<'_>) -> Result<FuncType, Memory>
    ensures { IfOk result (λ t. (f : func_types.FuncType) → ArePassed types.now f → t ≡ lower_type true f) }
{
    let result_types = flat_result(&types.returned);
    let params = lowered_params(
        alloc,
        types.params.flat(),
        ASYNC_PARAM_LIMIT,
        result_types,
        0,
    )?;
    let results = Seq::of(alloc, ValType::I32)?;
    Ok(FuncType { params, results })
}

/// The first core types of a result, none where there is none.
pub(crate) fn flat_result<'a>(returned: &Option<LaidType<'a>>) -> &'a [CoreType]
    ensures { result.now ≡ take 17 (flat_payload returned.now) }
{
    match returned {
        Some(val_type) => val_type.flat(),
        None => &[],
    }
}

/// The types of parameters, of more than so many one place in memory, and of the place in memory of a result of more core values than are
/// held.
fn lowered_params(
    alloc: Global,
    params: &[CoreType],
    most: usize,
    result_types: &[CoreType],
    held: usize,
) -> Result<Seq<ValType>, Memory>
    ensures { IfOk result (λ types. types ≡ map core_val (at_most most params.now ++ out_place held result_types.now)) }
{
    let mut types = passed(alloc, params, most)?;
    if result_types.len() > held {
        types.push(ValType::I32)?;
    }
    Ok(Seq::from_vec(types))
}

/// The types of what is passed, of more than so many core values one place in memory.
pub(crate) fn passed(alloc: Global, flat: &[CoreType], most: usize) -> Result<Vec<ValType>, Memory>
    ensures { IfOk result (λ types. types.items ≡ map core_val (at_most most flat.now)) }
{
    if flat.len() <= most {
        return val_types_of(alloc, flat);
    }
    let mut place = Vec::new(alloc);
    place.push(ValType::I32)?;
    Ok(place)
}

/// The type of a result of one core value.
fn lowered_results(alloc: Global, result_types: &[CoreType]) -> Result<Seq<ValType>, Memory>
    ensures { IfOk result (λ types. types ≡ map core_val (returned result_types.now)) }
{
    if result_types.len() <= RESULT_LIMIT {
        return Ok(Seq::from_vec(val_types_of(alloc, result_types)?));
    }
    Ok(Seq::new(alloc))
}

/// The types of core values that flat types are.
fn val_types_of(alloc: Global, flat: &[CoreType]) -> Result<Vec<ValType>, Memory>
    ensures { IfOk result (λ types. types.items ≡ map core_val flat.now) }
{
    let types = flat.iter().map(|t| val_type_of(*t)).collect(alloc)?;
    Ok(types)
}

/// The type of core values that a flat type is.
fn val_type_of(flat: CoreType) -> ValType
    ensures { result ≡ core_val flat }
{
    match flat {
        CoreType::I32 => ValType::I32,
        CoreType::I64 => ValType::I64,
    }
}
