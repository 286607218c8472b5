//! Labels with the numbers of value types, which function types are made of.

ghost use Rattle.std.specs.Prelude.{◌≡◌, ◌<◌, length, map, IfOk};
ghost use Rattle.std.specs.List.{AllZip};
ghost use Rattle.laid_types.specs.Layers.{IsThere};
ghost use Rattle.link_types.specs.Layered.{MayBeValue};
ghost use Rattle.link_types.specs.Labels.{HaveTypes, AreValues, IsParam, IsFuncOf};

use link_values::ValueTypes;
use std::alloc::{AllocError, Global};
use syntax_trees::{FuncType, Name, Param, Seq, Shared, ValType};

/// A parameter, with the number of its type.
#[derive(Clone, Copy)]
pub struct LabelledType<'a> {
    /// The label under which it is passed.
    pub label: &'a str,
    /// The number of the type of its values.
    pub val_type: usize,
}

/// The parameter. It fails for want of memory alone, as do the other functions here that fail.
fn closed_param(
    alloc: Global,
    values: &ValueTypes<'_>,
    param: &LabelledType<'_>,
) -> Result<Param, AllocError>
    requires { param.now.val_type < length values.now }
    ensures { IfOk result (λ p. IsParam values.now param.now p) }
{
    Ok(Param {
        label: Name::new(alloc, param.label)?,
        val_type: values.share(param.val_type)?,
    })
}

/// The parameters.
fn closed_params(
    alloc: Global,
    values: &ValueTypes<'_>,
    params: &[LabelledType<'_>],
) -> Result<Seq<Param>, AllocError>
    requires { HaveTypes values.now params.now }
    ensures { IfOk result (λ all. AllZip (IsParam values.now) params.now all) }
{
    let mut closed = Seq::new(alloc);
    for param in params {
        closed.push(closed_param(alloc, values, param)?)?;
    }
    Ok(closed)
}

/// The result.
fn closed_result(
    values: &ValueTypes<'_>,
    returned: Option<usize>,
) -> Result<Option<Shared<ValType>>, AllocError>
    requires { IsThere values.now returned }
    ensures { IfOk result (λ r. MayBeValue values.now returned r) }
{
    match returned {
        Some(number) => Ok(Some(values.share(number)?)),
        None => Ok(None),
    }
}

/// The numbers of the parameters' types, in order.
pub(crate) fn type_numbers(
    alloc: Global,
    params: &[LabelledType<'_>],
) -> Result<Vec<usize>, AllocError>
    ensures { IfOk result (λ numbers. numbers.items ≡ map (λ p. p.val_type) params.now) }
{
    params.iter().map(|param| param.val_type).collect(alloc)
}

/// The function type, whose parts are shared with the value types.
pub(crate) fn closed_func(
    alloc: Global,
    values: &ValueTypes<'_>,
    params: &[LabelledType<'_>],
    returned: Option<usize>,
) -> Result<FuncType, AllocError>
    requires { AreValues values.now params.now returned }
    ensures { IfOk result (λ f. IsFuncOf values.now params.now returned f) }
{
    Ok(FuncType {
        params: closed_params(alloc, values, params)?,
        result: closed_result(values, returned)?,
    })
}
