//! What is given for the resources that a type of instances brings.
//!
//! Types of instances may stand in one another a million deep, and the same ones in many places. So no more of those that name a
//! resource are gone through than may stand in one another here, and looking at their exports takes steps, of which the table allows so
//! many.

ghost use Rattle.std.specs.Prelude.{◌≡◌, ◌+◌, ◌++◌, ◌∷◌, [], ◌==◌, cond, List, ℕ, length, Option, Some, IfOk, OnOk};
ghost use Rattle.std.specs.List.{slice_get};
ghost use Rattle.comp_graph.specs.Closed.{Closed, Extern, Externs};
ghost use Rattle.link_values.specs.Resources.{first_brought};
ghost use Rattle.link_spec.specs.Definitions as linking;
ghost use Rattle.link_spec.specs.Definitions.{Definition, Exports};
ghost use Rattle.link_spec.specs.Brought as brought;
ghost use Rattle.link_types.specs.Table.{Table, IsType, IsExtern, IsInstanceType};
ghost use Rattle.link_instances.specs.References.{World, Stands, IsFound};
ghost use Rattle.link_instances.specs.Instances.{AreInstances};
ghost use Rattle.link_instances.specs.Found.{AreExports, number_of};

use crate::instances::Instances;
use crate::references::{DefinitionRef, InstanceRef};
use link_types::{
    ExternRef, InstanceTypeRef, NESTING_LIMIT, TypeRef, Types, asked_at, asked_count,
    first_brought, names_resource, take_looks,
};
use std::alloc::{AllocError, Global};

/// The number of the resource whose type is given, 0 where none is.
fn number_of(given: Option<DefinitionRef>) -> usize
    ensures { result ≡ number_of given }
{
    match given {
        Some(DefinitionRef::Type(TypeRef::Resource(number))) => number,
        _ => 0,
    }
}

/// The instance that is given, if one is.
fn exports_given(given: Option<DefinitionRef>) -> Option<InstanceRef>
    ensures { (t : Table) (w : World) (d : Option Definition) → IsFound t w given d → AreExports t w result (brought.exports_given d) }
{
    match given {
        Some(DefinitionRef::Instance(instance)) => Some(instance),
        _ => None,
    }
}

/// Puts what is given for a type of resources of this number behind the others, where it is that of the next one. It fails for want of
/// memory alone, as do the other functions here.
fn find_resource(
    given: Option<DefinitionRef>,
    number: usize,
    found: &mut Vec<usize>,
) -> Result<(), AllocError>
    ensures { OnOk result (found.new.items ≡ cond (number == first_brought 0 + length found.old.items) (found.old.items ++ number_of given ∷ []) found.old.items) }
{
    let Some(next) = first_brought(0)?.checked_add(found.len()) else {
        return Err(AllocError);
    };
    if number != next {
        return Ok(());
    }
    found.push(number_of(given))?;
    Ok(())
}

/// Puts what is given for a type behind the others, where it is one of resources that is brought.
fn find_type(
    given: Option<DefinitionRef>,
    closed: TypeRef,
    found: &mut Vec<usize>,
) -> Result<(), AllocError>
    ensures { OnOk result ((t : Table) (w : World) (d : Option Definition) (type : Closed) → IsFound t w given d → IsType t closed type → found.new.items ≡ brought.found_type d found.old.items type) }
{
    match closed {
        TypeRef::Resource(number) => find_resource(given, number, found),
        TypeRef::Value(_) | TypeRef::Func(_) | TypeRef::Instance(_) => Ok(()),
    }
}

impl Instances {
    /// Puts what is given for the resources that an export brings behind the others.
    #[cycle(finding)]
    fn find_item(
        &self,
        types: &mut Types<'_>,
        given: Option<DefinitionRef>,
        item: ExternRef,
        found: &mut Vec<usize>,
        left: usize,
    ) -> Result<(), AllocError>
        ensures ok { OnOk result ((w : World) (d : Option Definition) (extern : Extern) → AreInstances types.old w self.now → IsFound types.old w given d → IsExtern types.old item extern → found.new.items ≡ brought.found_for d found.old.items extern) }
        ensures same { types.new ≡ types.old }
    {
        take_looks(types, item)?;
        match item {
            ExternRef::Func(_) => Ok(()),
            ExternRef::Type(closed) => find_type(given, closed, found),
            ExternRef::Instance(instance_type) => {
                self.find_all(types, exports_given(given), instance_type, found, left)
            }
        }
    }

    /// The export of a name of an instance, if one is given.
    fn given_named(
        &self,
        types: &Types<'_>,
        given: Option<InstanceRef>,
        name: usize,
    ) -> Option<DefinitionRef>
        ensures { (w : World) (exports : Exports) (q : List ℕ) → AreInstances types.now w self.now → AreExports types.now w given exports → slice_get types.now.texts name ≡ Some q → IsFound types.now w result (linking.export_named q exports) }
    {
        match given {
            Some(instance) => self.export_named(types, instance, name),
            None => None,
        }
    }

    /// Puts what is given for the resources that a type of instances brings behind the others.
    #[cycle(finding)]
    fn find_all(
        &self,
        types: &mut Types<'_>,
        given: Option<InstanceRef>,
        asked: InstanceTypeRef,
        found: &mut Vec<usize>,
        left: usize,
    ) -> Result<(), AllocError>
        ensures ok { OnOk result ((w : World) (exports : Exports) (externs : Externs) → AreInstances types.old w self.now → AreExports types.old w given exports → IsInstanceType types.old asked externs → found.new.items ≡ brought.all_found_for exports found.old.items externs) }
        ensures same { types.new ≡ types.old }
    {
        if !names_resource(types, TypeRef::Instance(asked)) {
            return Ok(());
        }
        let Some(left) = left.checked_sub(1) else {
            return Err(AllocError);
        };
        for at in 0..asked_count(types, asked) {
            let Some((name, item)) = asked_at(types, asked, at) else {
                return Err(AllocError);
            };
            let definition = self.given_named(types, given, name);
            self.find_item(types, definition, item, found, left)?;
        }
        Ok(())
    }

    /// What is given for the resources that an import or an export brings, in order: their numbers, and 0 where none is given. It fails
    /// for want of memory alone, also where too much would have to be gone through.
    pub fn found_for(
        &self,
        alloc: Global,
        types: &mut Types<'_>,
        given: DefinitionRef,
        item: ExternRef,
    ) -> Result<Vec<usize>, AllocError>
        ensures ok { IfOk result (λ found. (w : World) (d : Definition) (extern : Extern) → AreInstances types.old w self.now → Stands types.old w given d → IsExtern types.old item extern → found.items ≡ brought.found_for (Some d) [] extern) }
        ensures same { types.new ≡ types.old }
    {
        let mut found = Vec::new(alloc);
        self.find_item(types, Some(given), item, &mut found, NESTING_LIMIT)?;
        Ok(found)
    }
}
