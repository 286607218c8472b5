//! What imports and exports are to be.

ghost use Rattle.std.specs.Prelude.{◌≡◌, ℕ, List, map, Some, Option};
ghost use Rattle.std.specs.List.{slice_get, AllZip};
ghost use Rattle.comp_graph.specs.Closed.{Closed};
ghost use Rattle.link_spec.specs.Types.{desc_index, desc_meaning};
ghost use Rattle.link_types.specs.Table.{Table, IsType, IsExtern};
ghost use Rattle.link_meanings.specs.Meant.{IsMeaning};
ghost use Rattle.link_meanings.specs.Levels.{AreTypes, enclosed_types};
ghost use Rattle.link_meanings.specs.References.{described_ref};

use crate::levels::{Enclosing, Level};
use comp_tree::ExternDesc;
use link_spec::desc_index;
use link_types::{ExternRef, Meant, TypeRef};

/// What an import or an export is to be, where its type is this one.
fn extern_of(desc: ExternDesc, closed: TypeRef) -> Option<ExternRef>
    ensures { result ≡ described_ref desc closed }
{
    match (desc, closed) {
        (ExternDesc::Func(_), TypeRef::Func(func_type)) => Some(ExternRef::Func(func_type)),
        (ExternDesc::TypeEq(_), _) => Some(ExternRef::Type(closed)),
        (ExternDesc::Instance(_), TypeRef::Instance(instance_type)) => {
            Some(ExternRef::Instance(instance_type))
        }
        (_, _) => None,
    }
}

/// What an import or an export is to be, over the types of where it stands.
pub fn described<'a>(scope: &Enclosing<'_>, desc: ExternDesc) -> Meant<'a, ExternRef>
    ensures { (t : Table) (closed : List (Option Closed)) → AreTypes t (enclosed_types scope.now) closed → IsMeaning (IsExtern t) result (desc_meaning closed desc) }
{
    match desc_index(desc) {
        None => Meant::there(None),
        Some(index) => described_at(scope, desc, index),
    }
}

/// The same, where it is of the type of this index.
fn described_at<'a>(scope: &Enclosing<'_>, desc: ExternDesc, index: u32) -> Meant<'a, ExternRef>
    requires { desc_index desc ≡ Some index }
    ensures { (t : Table) (closed : List (Option Closed)) → AreTypes t (enclosed_types scope.now) closed → IsMeaning (IsExtern t) result (desc_meaning closed desc) }
{
    match scope.type_at(index) {
        None => Meant::absent(),
        Some(None) => Meant::there(None),
        Some(Some(closed)) => Meant::there(extern_of(desc, closed)),
    }
}

/// What an import or an export of a component instance with these types is to be.
pub fn wanted<'a>(types: &[TypeRef], desc: ExternDesc) -> Meant<'a, ExternRef>
    ensures { (t : Table) (closed : List Closed) → AllZip (IsType t) types.now closed → IsMeaning (IsExtern t) result (desc_meaning (map Some closed) desc) }
{
    let scope = Enclosing::Component(Level {
        types,
        components: &[],
    });
    described(&scope, desc)
}
