//! Whether lifts, lowers and built-ins ask for a memory, and for a function that gives places in it.

ghost use Rattle.std.specs.Prelude.{◌≡◌, true};
ghost use Rattle.syntax_trees.specs.declared.types.FuncType.{FuncType};
ghost use Rattle.comp_graph.specs.Needs as needs;
ghost use Rattle.laid_types.specs.Layers.{tree_of};
ghost use Rattle.link_types.specs.Laid.{IsLaid};

use laid_types::LaidType;
use link_types::{LaidFunc, Types};

/// How many core values are passed as core parameters; more are passed in memory.
pub(crate) const PARAM_LIMIT: usize = 16;

/// How many core values are passed as core results; more are passed in memory.
pub(crate) const RESULT_LIMIT: usize = 1;

/// How many core values of parameters a lower with `async` passes as core parameters; more are passed in memory.
pub(crate) const ASYNC_PARAM_LIMIT: usize = 4;

/// How many core values of a result a lower with `async` passes as core results: the result is passed in memory.
pub(crate) const ASYNC_RESULT_LIMIT: usize = 0;

/// Whether a lift or a lower without `async` passes something in memory (Component Model, CanonicalABI.md, `canon lift` and `canon
/// lower`).
#[tactic(auto, using(crate::proofs::FirstTypes::many_params, crate::proofs::FirstTypes::many_results))]
fn needs_memory(laid: &LaidFunc) -> bool
    ensures { (f : FuncType) → IsLaid laid.now f → result ≡ needs.needs_memory f }
{
    laid.params.len() > PARAM_LIMIT
        || laid.returned.len() > RESULT_LIMIT
        || laid.params_hold_list
        || laid.result_holds_list
}

/// Whether the lift asks for places in memory (Component Model, CanonicalABI.md, `canon lift`).
#[tactic(auto, using(crate::proofs::FirstTypes::many_params))]
pub fn lift_needs_realloc(laid: &LaidFunc) -> bool
    ensures { (f : FuncType) → IsLaid laid.now f → result ≡ needs.lift_needs_realloc f }
{
    laid.params.len() > PARAM_LIMIT || laid.params_hold_list
}

/// Whether the lower asks for places in memory (Component Model, CanonicalABI.md, `canon lower`).
pub fn lower_needs_realloc(laid: &LaidFunc) -> bool
    ensures { (f : FuncType) → IsLaid laid.now f → result ≡ needs.lower_needs_realloc f }
{
    laid.result_holds_list
}

/// Whether the lift passes something in memory, with `async` or without (Component Model, CanonicalABI.md, `canon lift`).
pub fn lift_needs_memory(laid: &LaidFunc, is_async: bool) -> bool
    ensures { (f : FuncType) → IsLaid laid.now f → result ≡ needs.lift_needs_memory is_async f }
{
    if is_async {
        return lift_needs_realloc(laid);
    }
    needs_memory(laid)
}

/// Whether a lower with `async` passes something in memory (Component Model, CanonicalABI.md, `canon lower`).
#[tactic(auto, using(crate::proofs::FirstTypes::more_params, crate::proofs::FirstTypes::some_results))]
fn async_lower_needs_memory(laid: &LaidFunc) -> bool
    ensures { (f : FuncType) → IsLaid laid.now f → result ≡ needs.lower_needs_memory true f }
{
    laid.params.len() > ASYNC_PARAM_LIMIT
        || laid.returned.len() > ASYNC_RESULT_LIMIT
        || laid.params_hold_list
        || laid.result_holds_list
}

/// Whether the lower passes something in memory, with `async` or without (Component Model, CanonicalABI.md, `canon lower`).
pub fn lower_needs_memory(laid: &LaidFunc, is_async: bool) -> bool
    ensures { (f : FuncType) → IsLaid laid.now f → result ≡ needs.lower_needs_memory is_async f }
{
    if is_async {
        return async_lower_needs_memory(laid);
    }
    needs_memory(laid)
}

/// Whether `task.return` passes something in memory (Component Model, CanonicalABI.md, `canon task.return`).
pub fn return_needs_memory(result_type: &Option<LaidType<'_>>) -> bool
    ensures { result ≡ needs.task_return_needs_memory result_type.now }
{
    match result_type {
        Some(val_type) => val_type.flat().len() > PARAM_LIMIT || val_type.has_list(),
        None => false,
    }
}

/// The type of values of a number, if there is one.
pub fn held_type<'t>(types: &'t Types<'_>, number: Option<usize>) -> Option<LaidType<'t>>
    ensures { result ≡ tree_of types.now.values number }
{
    match number {
        Some(number) => types.value(number),
        None => None,
    }
}
