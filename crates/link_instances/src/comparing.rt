//! A definition beside what is asked for.

ghost use Rattle.std.specs.Prelude.{◌≡◌};
ghost use Rattle.comp_graph.specs.Closed.{Extern};
ghost use Rattle.link_spec.specs.Definitions.{Definition};
ghost use Rattle.link_types.specs.Table.{IsExtern};
ghost use Rattle.link_instances.specs.References.{World, Stands};
ghost use Rattle.link_instances.specs.Comparing.{IsCompared, AsksInside};

use crate::references::{DefinitionRef, InstanceRef};
use link_types::{ExternRef, InstanceTypeRef, Types};

/// What a definition comes to beside what is asked for.
#[derive(Clone, Copy)]
pub(crate) enum Comparison {
    /// Whether it is what is asked for.
    Agrees(bool),
    /// It is an instance, and an instance of a type is asked for.
    Inside(InstanceRef, InstanceTypeRef),
}

/// Compares a definition with what is asked for: all but an instance with a type of instances at once.
pub(crate) fn compare(types: &Types<'_>, given: DefinitionRef, asked: ExternRef) -> Comparison
    ensures compared { (w : World) (d : Definition) (x : Extern) → Stands types.now w given d → IsExtern types.now asked x → IsCompared types.now w d x result }
    ensures asked { AsksInside asked result }
{
    match asked {
        ExternRef::Func(func_type) => match given.func() {
            Some(func) => Comparison::Agrees(types.same_func(func.func_type, func_type)),
            None => Comparison::Agrees(false),
        },
        ExternRef::Type(closed) => match given.closed_type() {
            Some(other) => Comparison::Agrees(types.same_type(other, closed)),
            None => Comparison::Agrees(false),
        },
        ExternRef::Instance(instance_type) => match given.instance() {
            Some(instance) => Comparison::Inside(instance, instance_type),
            None => Comparison::Agrees(false),
        },
    }
}
