//! What is kept of a function type, so that no lift or lower goes over its parameters.

ghost use Rattle.std.specs.Prelude.{◌≡◌, nat_lt, map, take, IfOk, Option};
ghost use Rattle.std.specs.List.{AllZip};
ghost use Rattle.syntax_trees.specs.declared.types.FuncType.{FuncType};
ghost use Rattle.syntax_trees.specs.declared.types.ValType.{ValType};
ghost use Rattle.syntax_trees.specs.Ends.{some_true};
ghost use Rattle.syntax_trees.specs.Flat.{flat_params, flat_payload};
ghost use Rattle.comp_graph.specs.Closed.{names_in_param, names_in_func};
ghost use Rattle.comp_graph.specs.Needs.{hold_list};
ghost use Rattle.laid_types.specs.Handles.{top_resource, held_top};
ghost use Rattle.laid_types.specs.Layers.{IsThere};
ghost use Rattle.laid_types.specs.Lists.{held_list};
ghost use Rattle.link_types.specs.Labels.{HaveTypes, AreValues, IsParam, IsFuncOf};
ghost use Rattle.link_types.specs.Laid.{IsLaid};
ghost use Rattle.link_types.specs.Layered.{MayBeValue};

use crate::labels::LabelledType;
use laid_types::LaidType;
use link_values::ValueTypes;
use std::alloc::{AllocError, Global};
use syntax_trees::{CoreType, Seq};

/// How many core types are kept: one more than are passed as core parameters, so that "too many" can be told.
const MOST_KEPT: usize = 17;

/// What lifts and lowers ask of a function type (Component Model, CanonicalABI.md, "Flattening"), and imports of the root.
#[derive(Drop)]
pub struct LaidFunc {
    /// The first 17 core types of the parameters: where there are more than 16, that is seen.
    pub params: Seq<CoreType>,
    /// The first 17 core types of the result.
    pub returned: Seq<CoreType>,
    /// Whether the parameters hold a string or a list.
    pub params_hold_list: bool,
    /// Whether the result holds a string or a list.
    pub result_holds_list: bool,
    /// Whether the parameters or the result name a resource.
    pub names_resource: bool,
}

impl LaidFunc {
    /// What lifts and lowers ask of the function type of parameters and a result, each by the number of its value type. It fails
    /// for want of memory alone.
    pub(crate) fn of(
        alloc: Global,
        values: &ValueTypes<'_>,
        params: &[LabelledType<'_>],
        returned: Option<usize>,
    ) -> Result<LaidFunc, AllocError>
        requires { AreValues values.now params.now returned }
        ensures { IfOk result (λ laid. (type : FuncType) → IsFuncOf values.now params.now returned type → IsLaid laid type) }
    {
        Ok(LaidFunc {
            params: flat_params(alloc, values, params)?,
            returned: flat_result(alloc, values, returned)?,
            params_hold_list: hold_list(values, params),
            result_holds_list: holds_list(values, returned),
            names_resource: name_resource(values, params, returned),
        })
    }
}

/// The first core types of the parameters.
fn flat_params(
    alloc: Global,
    values: &ValueTypes<'_>,
    params: &[LabelledType<'_>],
) -> Result<Seq<CoreType>, AllocError>
    requires { HaveTypes values.now params.now }
    ensures { IfOk result (λ types. (type : FuncType) → AllZip (IsParam values.now) params.now type.params → types ≡ take 17 (flat_params type)) }
{
    let mut types = Vec::new(alloc);
    for param in params {
        types.extend_from_slice(values.value(param.val_type).flat())?;
        types.truncate(MOST_KEPT);
    }
    Ok(Seq::from_vec(types))
}

/// The first core types of the result.
fn flat_result(
    alloc: Global,
    values: &ValueTypes<'_>,
    returned: Option<usize>,
) -> Result<Seq<CoreType>, AllocError>
    requires { IsThere values.now returned }
    ensures { IfOk result (λ types. (type : Option ValType) → MayBeValue values.now returned type → types ≡ take 17 (flat_payload type)) }
{
    let mut types = Vec::new(alloc);
    if let Some(number) = returned {
        types.extend_from_slice(values.value(number).flat())?;
    }
    Ok(Seq::from_vec(types))
}

/// Whether a parameter holds a string or a list.
fn hold_list(values: &ValueTypes<'_>, params: &[LabelledType<'_>]) -> bool
    requires { HaveTypes values.now params.now }
    ensures { (type : FuncType) → AllZip (IsParam values.now) params.now type.params → result ≡ hold_list type }
{
    for param in params {
        if values.value(param.val_type).has_list() {
            return true;
        }
    }
    false
}

/// Whether a type of values names a resource.
pub(crate) fn names_any(val_type: &LaidType<'_>) -> bool
    ensures { result ≡ nat_lt 0 (top_resource val_type.now) }
{
    val_type.top_resource() > 0
}

/// Whether a parameter or the result names a resource.
fn name_resource(
    values: &ValueTypes<'_>,
    params: &[LabelledType<'_>],
    returned: Option<usize>,
) -> bool
    requires { AreValues values.now params.now returned }
    ensures { (type : FuncType) → IsFuncOf values.now params.now returned type → result ≡ names_in_func type }
{
    params_name(values, params) || result_names(values, returned)
}

/// Whether a parameter names a resource.
fn params_name(values: &ValueTypes<'_>, params: &[LabelledType<'_>]) -> bool
    requires { HaveTypes values.now params.now }
    ensures { (type : FuncType) → AllZip (IsParam values.now) params.now type.params → result ≡ some_true (map names_in_param type.params) }
{
    for param in params {
        if names_any(&values.value(param.val_type)) {
            return true;
        }
    }
    false
}

/// Whether the result names a resource.
fn result_names(values: &ValueTypes<'_>, returned: Option<usize>) -> bool
    requires { IsThere values.now returned }
    ensures { (type : Option ValType) → MayBeValue values.now returned type → result ≡ nat_lt 0 (held_top type) }
{
    match returned {
        Some(number) => names_any(&values.value(number)),
        None => false,
    }
}

/// Whether the result holds a string or a list.
fn holds_list(values: &ValueTypes<'_>, returned: Option<usize>) -> bool
    requires { IsThere values.now returned }
    ensures { (type : Option ValType) → MayBeValue values.now returned type → result ≡ held_list type }
{
    match returned {
        Some(number) => values.value(number).has_list(),
        None => false,
    }
}
