//! Aliases in instance types.

ghost use Rattle.std.specs.Prelude.{◌≡◌, ◌∷◌, List, Option, Some, OnOk};
ghost use Rattle.std.specs.List.{AllZip, slice_get};
ghost use Rattle.comp_graph.specs.Closed.{Externs};
ghost use Rattle.link_spec.specs.Definitions.{Closure};
ghost use Rattle.link_spec.specs.Spaces as spaces;
ghost use Rattle.link_spec.specs.Types as types_read;
ghost use Rattle.link_spec.specs.Types.{own_level, declared_as, with_outer, with_alias};
ghost use Rattle.link_types.specs.Table.{Table, IsName, IsExtern, IsInstanceType, Grows};
ghost use Rattle.link_meanings.specs.Meant.{IsFoundAs, IsMeaning};
ghost use Rattle.link_meanings.specs.Levels.{IsEnclosing};
ghost use Rattle.link_instance_types.specs.Declaring.{IsDeclared};
ghost use Rattle.link_instance_types.specs.References.{ref_of_sort};

use crate::around::level_at;
use crate::declaring::Declared;
use crate::outer::{outer_component, outer_type};
use comp_tree::{Alias, AliasTarget, Sort};
use link_meanings::Enclosing;
use link_types::{ExternRef, InstanceTypeRef, Meant, Types, asked_named};
use std::alloc::{AllocError, Global};
use syntax_trees::Name;

/// What an export is, if it is of this sort.
fn of_sort(sort: Sort, item: ExternRef) -> Option<ExternRef>
    ensures { result ≡ ref_of_sort sort item }
{
    match (sort, item) {
        (Sort::Func, ExternRef::Func(_)) => Some(item),
        (Sort::Type, ExternRef::Type(_)) => Some(item),
        (Sort::Instance, ExternRef::Instance(_)) => Some(item),
        (_, _) => None,
    }
}

/// The export of a name, which has this number, of an instance of this type.
fn exported<'a>(
    types: &Types<'_>,
    instance_type: InstanceTypeRef,
    sort: Sort,
    name: &'a Name,
    number: usize,
) -> Meant<'a, ExternRef>
    ensures { (all : Externs) → IsInstanceType types.now instance_type all → IsName types.now number name.now → IsMeaning (IsExtern types.now) result (types_read.exported sort name.now (Some all)) }
{
    match asked_named(types, instance_type, number) {
        Some(item) => Meant::there(of_sort(sort, item)),
        None => Meant {
            is_there: true,
            missing: Some(name),
            deep: false,
            means: None,
        },
    }
}

/// The export of a name, which has this number, of an instance that may not be there, or may have no meaning.
fn from_instance<'a>(
    types: &Types<'_>,
    instance: Option<Option<InstanceTypeRef>>,
    sort: Sort,
    name: &'a Name,
    number: usize,
) -> Meant<'a, ExternRef>
    ensures { (known : Option (Option Externs)) → IsFoundAs (IsFoundAs (IsInstanceType types.now)) instance known → IsName types.now number name.now → IsMeaning (IsExtern types.now) result (types_read.from_instance sort name.now known) }
{
    let Some(known) = instance else {
        return Meant::absent();
    };
    let Some(instance_type) = known else {
        return Meant::there(None);
    };
    exported(types, instance_type, sort, name, number)
}

impl<'a> Declared<'a> {
    /// An alias of an export of an instance.
    fn add_exported(
        &mut self,
        types: &mut Types<'a>,
        sort: Sort,
        instance: u32,
        name: &'a Name,
    ) -> Result<(), AllocError>
        ensures ok { OnOk result ((closures : List Closure) (d : types_read.Declared) → IsDeclared types.old closures self.old d → IsDeclared types.new closures self.new (declared_as d sort (types_read.from_instance sort name.now (slice_get d.instances instance)))) }
        ensures grows { Grows types.old types.new }
    {
        let number = types.name(name.as_str())?;
        let meant = from_instance(types, self.instance_at(instance), sort, name, number);
        self.declare(sort, &meant)?;
        Ok(())
    }

    /// An outer alias, which is of a component or a type.
    fn add_outer(
        &mut self,
        alloc: Global,
        types: &mut Types<'_>,
        around: &[Enclosing<'_>],
        sort: Sort,
        up: u32,
        index: u32,
    ) -> Result<(), AllocError>
        ensures ok { OnOk result ((closures : List Closure) (levels : List spaces.Level) (d : types_read.Declared) → AllZip (IsEnclosing types.old closures) around.now levels → IsDeclared types.old closures self.old d → IsDeclared types.new closures self.new (with_outer d (own_level d ∷ levels) sort up index)) }
        ensures grows { Grows types.old types.new }
    {
        match sort {
            Sort::Component => {
                let meant = outer_component(level_at(self.own_level(), around, up), index);
                self.add_component(&meant)?
            }
            Sort::Type => {
                let level = level_at(self.own_level(), around, up);
                let meant = outer_type(alloc, types, level, up as usize, index)?;
                self.add_type(&meant)?
            }
            Sort::Core(_) | Sort::Func | Sort::Instance => self.declare(sort, &Meant::absent())?,
        }
        Ok(())
    }

    /// An alias. An instance type has no core instances.
    pub(crate) fn add_alias(
        &mut self,
        alloc: Global,
        types: &mut Types<'a>,
        around: &[Enclosing<'_>],
        alias: &'a Alias,
    ) -> Result<(), AllocError>
        ensures ok { OnOk result ((closures : List Closure) (levels : List spaces.Level) (d : types_read.Declared) → AllZip (IsEnclosing types.old closures) around.now levels → IsDeclared types.old closures self.old d → IsDeclared types.new closures self.new (with_alias levels d alias.now.sort alias.now.target)) }
        ensures grows { Grows types.old types.new }
    {
        match &alias.target {
            AliasTarget::InstanceExport { instance, name } => {
                self.add_exported(types, alias.sort, *instance, name)?
            }
            AliasTarget::CoreInstanceExport { .. } => {
                self.declare(alias.sort, &Meant::absent())?
            }
            AliasTarget::Outer { up, index } => {
                self.add_outer(alloc, types, around, alias.sort, *up, *index)?
            }
        }
        Ok(())
    }
}
