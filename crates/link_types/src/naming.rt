//! Whether types name a resource.

ghost use Rattle.std.specs.Prelude.{◌≡◌, ◌||◌, nat_lt};
ghost use Rattle.syntax_trees.specs.declared.types.FuncType.{FuncType};
ghost use Rattle.syntax_trees.specs.declared.types.ValType.{ValType};
ghost use Rattle.laid_types.specs.Handles.{top_resource};
ghost use Rattle.comp_graph.specs.Closed as closed_types;
ghost use Rattle.comp_graph.specs.Closed.{Closed, Extern, names_in_func, names_in_extern};
ghost use Rattle.link_types.specs.Table.{IsValue, IsFunc, IsType, IsExtern};

use crate::laid_func::names_any;
use crate::types::Types;
use link_values::{ExternRef, FuncTypeRef, TypeRef};

/// Whether the value type of a number names a resource.
fn names_in_value(types: &Types<'_>, number: usize) -> bool
    ensures { (type : ValType) → IsValue types.now number type → result ≡ nat_lt 0 (top_resource type) }
{
    match types.value(number) {
        Some(val_type) => names_any(&val_type),
        None => false,
    }
}

/// Whether a function type names a resource. That is computed once, where the type is added.
fn names_in_func(types: &Types<'_>, func_type: FuncTypeRef) -> bool
    ensures { (type : FuncType) → IsFunc types.now func_type type → result ≡ names_in_func type }
{
    match types.laid_func(func_type) {
        Some(laid) => laid.names_resource,
        None => false,
    }
}

/// Whether a type names a resource: itself, or in what it stands on (Component Model, Explainer.md, "Type Definitions"). It takes no
/// longer for a type of many exports.
#[tactic(auto, using(crate::proofs::NamedResources::value_named, crate::proofs::NamedResources::func_named, crate::proofs::NamedResources::resource_named, crate::proofs::NamedResources::instance_named))]
pub fn names_resource(types: &Types<'_>, closed: TypeRef) -> bool
    ensures { (type : Closed) → IsType types.now closed type → result ≡ closed_types.names_resource type }
{
    match closed {
        TypeRef::Value(number) => names_in_value(types, number),
        TypeRef::Func(func_type) => names_in_func(types, func_type),
        TypeRef::Resource(_) => true,
        TypeRef::Instance(instance_type) => instance_type.names_resource,
    }
}

/// Whether what an export is names a resource.
#[tactic(auto, using(crate::proofs::NamedResources::func_named_in, crate::proofs::NamedResources::type_named_in, crate::proofs::NamedResources::instance_named_in))]
fn names_in_extern(types: &Types<'_>, item: ExternRef) -> bool
    ensures { (extern : Extern) → IsExtern types.now item extern → result ≡ names_in_extern extern }
{
    match item {
        ExternRef::Func(func_type) => names_in_func(types, func_type),
        ExternRef::Type(closed) => names_resource(types, closed),
        ExternRef::Instance(instance_type) => instance_type.names_resource,
    }
}

/// Whether exports name a resource, of which it is known whether those before the last one do.
pub(crate) fn names_behind(types: &Types<'_>, before: bool, item: ExternRef) -> bool
    ensures { (extern : Extern) → IsExtern types.now item extern → result ≡ (before || names_in_extern extern) }
{
    before || names_in_extern(types, item)
}
