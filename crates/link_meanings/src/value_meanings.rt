//! Types of values.

ghost use Rattle.std.specs.Prelude.{◌≡◌, not, nat_le, List, Option, IfOk};
ghost use Rattle.syntax_trees.specs.declared.types.ValType.{ValType};
ghost use Rattle.comp_graph.specs.Closed.{Closed};
ghost use Rattle.link_spec.specs.ValueTypes as value_types;
ghost use Rattle.link_spec.specs.ValueTypes.{close_def};
ghost use Rattle.link_spec.specs.Shallow.{depth_limit};
ghost use Rattle.laid_types.specs.Depth.{depth};
ghost use Rattle.link_types.specs.Table.{IsValue, IsType, Grows};
ghost use Rattle.link_meanings.specs.Meant.{IsFoundAs, IsMeaning};
ghost use Rattle.link_meanings.specs.Levels.{AreTypes, enclosed_types};

use crate::levels::Enclosing;
use crate::value_layers::over_parts;
use crate::values::primitive;
use comp_tree::{DefValType, PrimValType};
use link_spec::{is_well_made, parts_within};
use link_types::{Meant, TypeRef, Types};
use std::alloc::{AllocError, Global};

/// How many types may stand in one another in a value type, itself counted.
const DEPTH_LIMIT: u32 = 32;

/// The number of a written type, where it is well made and each part has a type.
fn closed_type<'a>(
    alloc: Global,
    types: &mut Types<'a>,
    scope: &Enclosing<'_>,
    val_type: &'a DefValType,
) -> Result<Option<usize>, AllocError>
    ensures ok { IfOk result (λ o. (closed : List (Option Closed)) → AreTypes types.old (enclosed_types scope.now) closed → IsFoundAs (IsValue types.new) o (close_def closed val_type.now)) }
    ensures grows { Grows types.old types.new }
{
    if !is_well_made(alloc, val_type)? {
        return Ok(None);
    }
    Ok(over_parts(alloc, types, scope, val_type)?)
}

/// Whether the value type of a number is too deep.
fn is_deep(types: &Types<'_>, number: usize) -> bool
    ensures { (type : ValType) → IsValue types.now number type → result ≡ not (nat_le (depth type) depth_limit) }
{
    match types.value(number) {
        Some(val_type) => val_type.depth() > DEPTH_LIMIT,
        None => false,
    }
}

/// What the value type of a number means, where there is one. In the place of one that is too deep `bool` stands, so that no type is
/// made that is deeper by more than its own layer.
fn capped<'a>(
    alloc: Global,
    types: &mut Types<'_>,
    found: Option<usize>,
) -> Result<Meant<'a, TypeRef>, AllocError>
    ensures ok { IfOk result (λ m. (type : Option ValType) → IsFoundAs (IsValue types.old) found type → IsMeaning (IsType types.new) m (value_types.capped type)) }
    ensures grows { Grows types.old types.new }
{
    let Some(number) = found else {
        return Ok(Meant::there(None));
    };
    if is_deep(&*types, number) {
        let in_place = primitive(alloc, types, PrimValType::Bool)?;
        return Ok(Meant::too_deep(TypeRef::Value(in_place)));
    }
    Ok(Meant::there(Some(TypeRef::Value(number))))
}

/// What a written type of values means, over the types of where it stands. Its cost is that of its own layer.
pub fn value_meaning<'a>(
    alloc: Global,
    types: &mut Types<'a>,
    scope: &Enclosing<'_>,
    val_type: &'a DefValType,
) -> Result<Meant<'a, TypeRef>, AllocError>
    ensures ok { IfOk result (λ m. (closed : List (Option Closed)) → AreTypes types.old (enclosed_types scope.now) closed → IsMeaning (IsType types.new) m (value_types.value_meaning closed val_type.now)) }
    ensures grows { Grows types.old types.new }
{
    if !parts_within(scope.type_count(), val_type) {
        return Ok(Meant::absent());
    }
    let found = closed_type(alloc, types, scope, val_type)?;
    Ok(capped(alloc, types, found)?)
}
