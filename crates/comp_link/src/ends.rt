//! What built-ins of the ends of streams and futures come to.

ghost use Rattle.std.specs.Prelude.{◌≡◌, ◌<◌, ◌&&◌, nat_lt, is_some, List, Option, IfOk, length};
ghost use Rattle.std.specs.Option.{option_and_then};
ghost use Rattle.syntax_trees.specs.declared.types.ValType.{ValType};
ghost use Rattle.comp_tree.specs.declared.builtins.CanonBuiltin.TheVariants as read_builtin;
ghost use Rattle.comp_graph.specs.Graph as graph;
ghost use Rattle.comp_graph.specs.declared.graph.EndOp.TheVariants as end_op;
ghost use Rattle.link_spec.specs.Definitions.{Exports};
ghost use Rattle.link_spec.specs.Spaces.{Spaces, Linking};
ghost use Rattle.link_spec.specs.Canons as canons;
ghost use Rattle.link_spec.specs.Canons.{given_by};
ghost use Rattle.link_spec.specs.Builtins.{end_meaning, elements_of, builtin_meaning};
ghost use Rattle.link_spec.specs.Builtins as meanings;
ghost use Rattle.link_types.specs.Table.{Table, IsValue};
ghost use Rattle.link_instances.specs.References.{World};
ghost use Rattle.link_meanings.specs.Meant.{IsFoundAs};
ghost use Rattle.link_meanings.specs.References.{value_ref};
ghost use Rattle.canon_types.specs.Built.{IsBuiltinMeaning};
ghost use Rattle.link_state.specs.State.{IsScope, IsAt};

use crate::builtins::type_is_there;
use builtin_kinds::{EndKind, EndSide};
use canon_types::{BuiltinMeant, elements_of, end_builtin, lowers_list, no_builtin, stand_once};
use comp_graph::EndOp;
use comp_tree::{CanonEndOp, CanonOption};
use laid_types::LaidType;
use link_core_exports::Given;
use link_items::can_be_used;
use link_state::{Linker, Scope};
use link_types::{TypeRef, Types};
use std::alloc::{AllocError, Global};
use syntax_trees::Boxed;

/// Whether what options name is there that a built-in of ends has.
fn are_end_options_there(scope: &Scope<'_>, op: &CanonEndOp) -> bool
    ensures { (t : Table) (w : World) (s : Spaces) → IsScope t w scope.now s → result ≡ meanings.are_end_options_there s op.now }
{
    match op {
        CanonEndOp::Copy { side: _, options } => scope.are_there(options.as_slice()),
        CanonEndOp::New
        | CanonEndOp::Cancel {
            side: _,
            is_async: _,
        }
        | CanonEndOp::Drop { side: _ } => true,
    }
}

/// Whether the type is there that a built-in of ends names, and what its options name.
fn end_is_there(scope: &Scope<'_>, end_type: u32, op: &CanonEndOp) -> bool
    ensures { (t : Table) (w : World) (s : Spaces) → IsScope t w scope.now s → result ≡ (nat_lt end_type (length s.types) && meanings.are_end_options_there s op.now) }
{
    type_is_there(scope, end_type) && are_end_options_there(scope, op)
}

/// The number of a type that is found, where it is one of values.
fn ends_number(found: Option<TypeRef>) -> Option<usize>
    ensures { result ≡ option_and_then value_ref found }
{
    match found? {
        TypeRef::Value(number) => Some(number),
        TypeRef::Func(_) | TypeRef::Resource(_) | TypeRef::Instance(_) => None,
    }
}

/// Whether what options give serves a read or a write of these elements, where no option stands twice.
fn can_copy(
    given: &Given<'_>,
    side: EndSide,
    element: &Option<LaidType<'_>>,
    options: &[CanonOption],
) -> bool
    ensures { result ≡ (canons.can_be_used (is_some element.now) (graph.lowers_list side element.now) given.now && canons.stand_once options.now) }
{
    can_be_used(given, element.is_some(), lowers_list(side, element)) && stand_once(options)
}

/// Whether options serve a built-in of ends in which these elements pass.
fn end_serves(scope: &Scope<'_>, element: &Option<LaidType<'_>>, op: &CanonEndOp) -> bool
    ensures { (t : Table) (w : World) (s : Spaces) → IsScope t w scope.now s → result ≡ meanings.end_serves (given_by s) element.now op.now }
{
    match op {
        CanonEndOp::Copy { side, options } => {
            let given = scope.given(options.as_slice());
            can_copy(&given, *side, element, options.as_slice())
        }
        CanonEndOp::New
        | CanonEndOp::Cancel {
            side: _,
            is_async: _,
        }
        | CanonEndOp::Drop { side: _ } => true,
    }
}

/// What a read or a write does, with what its options give. It fails for want of memory alone.
fn copy_op(
    alloc: Global,
    scope: &Scope<'_>,
    side: EndSide,
    options: &[CanonOption],
) -> Result<EndOp, AllocError>
    ensures { IfOk result (λ made. (t : Table) (w : World) (s : Spaces) → IsScope t w scope.now s → made ≡ end_op.Copy side (canons.options_of (given_by s options.now))) }
{
    let given = scope.given(options);
    let options = Boxed::new(alloc, given.options())?;
    Ok(EndOp::Copy { side, options })
}

/// What a built-in does with an end. It fails for want of memory alone.
fn end_op_of(alloc: Global, scope: &Scope<'_>, op: &CanonEndOp) -> Result<EndOp, AllocError>
    ensures { IfOk result (λ made. (t : Table) (w : World) (s : Spaces) → IsScope t w scope.now s → made ≡ meanings.end_op_of (given_by s) op.now) }
{
    match op {
        CanonEndOp::New => Ok(EndOp::New),
        CanonEndOp::Copy { side, options } => copy_op(alloc, scope, *side, options.as_slice()),
        CanonEndOp::Cancel { side, is_async } => Ok(EndOp::Cancel {
            side: *side,
            is_async: *is_async,
        }),
        CanonEndOp::Drop { side } => Ok(EndOp::Drop { side: *side }),
    }
}

/// What a built-in of ends comes to, of the type of a number, if there is one.
fn end_meant(
    alloc: Global,
    types: &Types<'_>,
    scope: &Scope<'_>,
    is_there: bool,
    kind: EndKind,
    number: Option<usize>,
    op: &CanonEndOp,
) -> Result<BuiltinMeant, AllocError>
    ensures { IfOk result (λ m. (w : World) (s : Spaces) (type : Option ValType) → IsScope types.now w scope.now s → IsFoundAs (IsValue types.now) number type → IsBuiltinMeaning types.now.values m (end_meaning is_there kind (option_and_then (elements_of kind) type) (given_by s) op.now)) }
{
    let Some(number) = number else {
        return Ok(no_builtin(is_there));
    };
    let Some(ends) = types.value(number) else {
        return Ok(no_builtin(is_there));
    };
    let Some(element) = elements_of(kind, &ends) else {
        return Ok(no_builtin(is_there));
    };
    let serves = end_serves(scope, &element, op);
    let made_op = end_op_of(alloc, scope, op)?;
    let made = end_builtin(number, kind, &element, made_op)?;
    Ok(BuiltinMeant {
        is_there,
        means: Some(made),
        serves,
    })
}

/// What a built-in of a component instance comes to that does something with the ends of streams or futures of the type of an index.
pub fn end_at(
    alloc: Global,
    linker: &Linker<'_>,
    n: usize,
    kind: EndKind,
    end_type: u32,
    op: &CanonEndOp,
) -> Result<BuiltinMeant, AllocError>
    requires { n < length linker.now.scopes.items }
    ensures { IfOk result (λ m. (bases : List Exports) (l : Linking) (s : Spaces) → IsAt bases linker.now n l s → IsBuiltinMeaning linker.now.types.values m (builtin_meaning l n s (read_builtin.End kind end_type op.now))) }
{
    let scope = linker.scope(n);
    let is_there = end_is_there(scope, end_type, op);
    let number = ends_number(scope.type_at(end_type));
    end_meant(alloc, &linker.types, scope, is_there, kind, number, op)
}
