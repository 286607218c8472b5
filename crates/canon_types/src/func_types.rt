//! The types of the core functions that lifts and lowers ask for and make.

ghost use Rattle.std.specs.Prelude.{◌≡◌, ◌++◌, true, false, map, option_to_list};
ghost use Rattle.syntax_trees.specs.declared.types.FuncType.{FuncType};
ghost use Rattle.syntax_trees.specs.Flat.{at_most, out_place, returned};
ghost use Rattle.comp_graph.specs.Needs.{core_val, lift_type, lower_type, realloc_type, post_return_type};
ghost use Rattle.canon_types.specs.Results.{lift_results};
ghost use Rattle.link_types.specs.Laid.{IsLaid};

use crate::needs::{ASYNC_PARAM_LIMIT, ASYNC_RESULT_LIMIT, PARAM_LIMIT, RESULT_LIMIT};
use comp_graph::Options;
use link_core_types::{CoreFuncType, FewTypes, passed, val_type_of};
use link_types::LaidFunc;
use syntax_trees::CoreType;
use syntax_trees::module_types::ValType;

/// The type in which a result is passed: of more than one core value it is one place in memory.
fn passed_result(result_types: &[CoreType]) -> Option<ValType>
    ensures { option_to_list result ≡ map core_val (at_most 1 result_types.now) }
{
    match result_types {
        [] => None,
        [only] => Some(val_type_of(*only)),
        _ => Some(ValType::I32),
    }
}

/// The type of what the core function gives that is lifted with these options.
fn lifted_result(options: &Options, result_types: &[CoreType]) -> Option<ValType>
    ensures { option_to_list result ≡ map core_val (lift_results options.now result_types.now) }
{
    if !options.is_async {
        return passed_result(result_types);
    }
    if options.callback.is_some() {
        return Some(ValType::I32);
    }
    None
}

/// The type of the core function that is lifted with these options to a function of a type (Component Model, CanonicalABI.md, `canon
/// lift`).
#[tactic(auto, using(crate::proofs::FirstTypes::lift_params_are, crate::proofs::FirstTypes::lift_results_are))]
pub fn lift_type(laid: &LaidFunc, options: &Options) -> CoreFuncType
    ensures { (f : FuncType) → IsLaid laid.now f → result ≡ lift_type options.now f }
{
    let params = passed(laid.params.as_slice(), PARAM_LIMIT);
    let returned = lifted_result(options, laid.returned.as_slice());
    CoreFuncType::new(params, returned)
}

/// The types of parameters, and of the place in memory of a result of more than one core value.
fn lowered_params(params: &[CoreType], result_types: &[CoreType]) -> FewTypes
    ensures { result ≡ map core_val (at_most 16 params.now ++ out_place 1 result_types.now) }
{
    let mut types = passed(params, PARAM_LIMIT);
    if result_types.len() > RESULT_LIMIT {
        types.push(ValType::I32);
    }
    types
}

/// The type of a result of one core value.
fn lowered_result(result_types: &[CoreType]) -> Option<ValType>
    ensures { option_to_list result ≡ map core_val (returned result_types.now) }
{
    match result_types {
        [only] => Some(val_type_of(*only)),
        _ => None,
    }
}

/// The type of the core function to which a function of a type is lowered without `async`.
#[tactic(auto, using(crate::proofs::FirstTypes::lowered_params_are, crate::proofs::FirstTypes::lowered_results_are))]
fn sync_lower_type(laid: &LaidFunc) -> CoreFuncType
    ensures { (f : FuncType) → IsLaid laid.now f → result ≡ lower_type false f }
{
    let result_types = laid.returned.as_slice();
    let params = lowered_params(laid.params.as_slice(), result_types);
    CoreFuncType::new(params, lowered_result(result_types))
}

/// The types of parameters of a lower with `async`, and of the place in memory of a result.
fn async_params(params: &[CoreType], result_types: &[CoreType]) -> FewTypes
    ensures { result ≡ map core_val (at_most 4 params.now ++ out_place 0 result_types.now) }
{
    let mut types = passed(params, ASYNC_PARAM_LIMIT);
    if result_types.len() > ASYNC_RESULT_LIMIT {
        types.push(ValType::I32);
    }
    types
}

/// The type of the core function to which a function of a type is lowered with `async`: it gives the state of the subtask.
#[tactic(auto, using(crate::proofs::FirstTypes::async_params_are))]
fn async_lower_type(laid: &LaidFunc) -> CoreFuncType
    ensures { (f : FuncType) → IsLaid laid.now f → result ≡ lower_type true f }
{
    let params = async_params(laid.params.as_slice(), laid.returned.as_slice());
    CoreFuncType::new(params, Some(ValType::I32))
}

/// The type of the core function to which a function of a type is lowered, with `async` or without (Component Model,
/// CanonicalABI.md, `canon lower`).
pub fn lower_type(laid: &LaidFunc, is_async: bool) -> CoreFuncType
    ensures { (f : FuncType) → IsLaid laid.now f → result ≡ lower_type is_async f }
{
    if is_async {
        return async_lower_type(laid);
    }
    sync_lower_type(laid)
}

/// The type of the core function that gives places in memory (Component Model, CanonicalABI.md, "Canonical ABI Options").
pub fn realloc_type() -> CoreFuncType
    ensures { result ≡ realloc_type }
{
    let mut params = FewTypes::new();
    params.push(ValType::I32);
    params.push(ValType::I32);
    params.push(ValType::I32);
    params.push(ValType::I32);
    CoreFuncType::new(params, Some(ValType::I32))
}

/// The type of the core function that is called when the result of a function of a type was lifted (Component Model,
/// CanonicalABI.md, "Canonical ABI Options").
#[tactic(auto, using(crate::proofs::FirstTypes::results_are))]
pub fn post_return_type(laid: &LaidFunc) -> CoreFuncType
    ensures { (f : FuncType) → IsLaid laid.now f → result ≡ post_return_type f }
{
    let params = passed(laid.returned.as_slice(), RESULT_LIMIT);
    CoreFuncType::new(params, None)
}
