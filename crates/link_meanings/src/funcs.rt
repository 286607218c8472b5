//! Types of functions.

ghost use Rattle.std.specs.Prelude.{◌<◌, List, length, Option, IfOk, IfSome};
ghost use Rattle.std.specs.List.{AllZip};
ghost use Rattle.std.specs.Option.{option_map};
ghost use Rattle.comp_graph.specs.Closed as closings;
ghost use Rattle.comp_graph.specs.Closed.{Closed};
ghost use Rattle.link_spec.specs.Types as types_read;
ghost use Rattle.link_spec.specs.Types.{close_param, close_params, close_func};
ghost use Rattle.link_types.specs.Labels.{HaveTypes, IsParam};
ghost use Rattle.link_types.specs.Table.{IsType, Grows};
ghost use Rattle.link_meanings.specs.Meant.{IsFoundAs, IsMeaning};
ghost use Rattle.link_meanings.specs.Levels.{AreTypes, enclosed_types};

use crate::levels::Enclosing;
use crate::values::{passed_of, value_of};
use comp_tree::{FuncType, Param};
use link_spec::{all_within, labels_are_distinct};
use link_types::{LabelledType, Meant, TypeRef, Types};
use std::alloc::{AllocError, Global};

/// A parameter with the number of its type, where it has one.
fn labelled<'a>(
    alloc: Global,
    types: &mut Types<'_>,
    scope: &Enclosing<'_>,
    param: &'a Param,
) -> Result<Option<LabelledType<'a>>, AllocError>
    ensures ok { IfOk result (λ o. (closed : List (Option Closed)) → AreTypes types.old (enclosed_types scope.now) closed → IsFoundAs (IsParam types.new.values) o (close_param closed param.now)) }
    ensures there { IfOk result (λ o. IfSome o (λ p. p.val_type < length types.new.values)) }
    ensures grows { Grows types.old types.new }
{
    let Some(val_type) = value_of(alloc, types, scope, param.val_type)? else {
        return Ok(None);
    };
    Ok(Some(LabelledType {
        label: param.label.as_str(),
        val_type,
    }))
}

/// Parameters with the numbers of their types, where each has one.
fn all_labelled<'a>(
    alloc: Global,
    types: &mut Types<'_>,
    scope: &Enclosing<'_>,
    params: &'a [Param],
) -> Result<Option<Vec<LabelledType<'a>>>, AllocError>
    ensures ok { IfOk result (λ o. (closed : List (Option Closed)) → AreTypes types.old (enclosed_types scope.now) closed → IsFoundAs (λ v all. AllZip (IsParam types.new.values) v.items all) o (close_params closed params.now)) }
    ensures there { IfOk result (λ o. IfSome o (λ v. HaveTypes types.new.values v.items)) }
    ensures grows { Grows types.old types.new }
{
    let mut all = Vec::new(alloc);
    for param in params {
        match labelled(alloc, types, scope, param)? {
            Some(param) => all.push(param)?,
            None => return Ok(None),
        }
    }
    Ok(Some(all))
}

/// A function type, where its labels are distinct, each value type in it has a meaning, and its result holds no borrowed handle.
fn closed_func<'a>(
    alloc: Global,
    types: &mut Types<'a>,
    scope: &Enclosing<'_>,
    func_type: &'a FuncType,
) -> Result<Option<TypeRef>, AllocError>
    ensures ok { IfOk result (λ o. (closed : List (Option Closed)) → AreTypes types.old (enclosed_types scope.now) closed → IsFoundAs (IsType types.new) o (option_map closings.Func (close_func closed func_type.now))) }
    ensures grows { Grows types.old types.new }
{
    let distinct = labels_are_distinct(alloc, func_type.params.as_slice())?;
    if !distinct {
        return Ok(None);
    }
    let Some(params) = all_labelled(alloc, types, scope, func_type.params.as_slice())? else {
        return Ok(None);
    };
    let Some(returned) = passed_of(alloc, types, scope, func_type.result)? else {
        return Ok(None);
    };
    let func_type = types.func_type(alloc, &params, returned)?;
    Ok(Some(TypeRef::Func(func_type)))
}

/// What the type of a function means, over the types of where it stands.
pub fn func_meaning<'a>(
    alloc: Global,
    types: &mut Types<'a>,
    scope: &Enclosing<'_>,
    func_type: &'a FuncType,
) -> Result<Meant<'a, TypeRef>, AllocError>
    ensures ok { IfOk result (λ m. (closed : List (Option Closed)) → AreTypes types.old (enclosed_types scope.now) closed → IsMeaning (IsType types.new) m (types_read.func_meaning closed func_type.now)) }
    ensures grows { Grows types.old types.new }
{
    if !all_within(scope.type_count(), func_type) {
        return Ok(Meant::absent());
    }
    let means = closed_func(alloc, types, scope, func_type)?;
    Ok(Meant::there(means))
}
