//! What imports and exports are to be, where something is given for them.

ghost use Rattle.std.specs.Prelude.{◌≡◌, List, map, Option, Some};
ghost use Rattle.std.specs.Option.{option_and_then};
ghost use Rattle.std.specs.List.{AllZip};
ghost use Rattle.comp_graph.specs.Closed.{Closed};
ghost use Rattle.link_spec.specs.Definitions.{Definition};
ghost use Rattle.link_spec.specs.Types as types_read;
ghost use Rattle.link_spec.specs.Items.{type_given};
ghost use Rattle.link_types.specs.Table.{Table, IsType, IsExtern};
ghost use Rattle.link_instances.specs.References.{World, Stands, type_ref};
ghost use Rattle.link_meanings.specs.Meant.{IsFoundAs, IsMeaning};

use crate::resources::resource_number;
use comp_tree::ExternDesc;
use link_instances::DefinitionRef;
use link_meanings::wanted;
use link_types::{ExternRef, Meant, TypeRef};

/// The type that is given, if it is one.
fn type_of(given: Option<DefinitionRef>) -> Option<TypeRef>
    ensures { result ≡ option_and_then type_ref given }
{
    match given? {
        DefinitionRef::Type(closed) => Some(closed),
        DefinitionRef::Func(_)
        | DefinitionRef::Component(_)
        | DefinitionRef::Instance(_)
        | DefinitionRef::Module(_) => None,
    }
}

/// What is asked to be a type of resources, where this is given for it: that one, if it is such a type.
fn resource_wanted<'a>(given: Option<DefinitionRef>) -> Meant<'a, ExternRef>
    ensures { (t : Table) (w : World) (d : Option Definition) → IsFoundAs (Stands t w) given d → IsMeaning (IsExtern t) result (types_read.resource_meant (type_given d)) }
{
    match resource_number(type_of(given)) {
        Some(number) => Meant::there(Some(ExternRef::Type(TypeRef::Resource(number)))),
        None => Meant::there(None),
    }
}

/// What an import or an export of a component instance with these types is to be, where this is given for it, if anything is.
pub fn wanted_of<'a>(
    types: &[TypeRef],
    given: Option<DefinitionRef>,
    desc: ExternDesc,
) -> Meant<'a, ExternRef>
    ensures { (t : Table) (w : World) (closed : List Closed) (d : Option Definition) → AllZip (IsType t) types.now closed → IsFoundAs (Stands t w) given d → IsMeaning (IsExtern t) result (types_read.given_meaning (map Some closed) (type_given d) desc) }
{
    match desc {
        ExternDesc::Resource => resource_wanted(given),
        ExternDesc::Func(_) => wanted(types, desc),
        ExternDesc::TypeEq(_) => wanted(types, desc),
        ExternDesc::Instance(_) => wanted(types, desc),
    }
}
