//! Instance types whose declarations are read.

ghost use Rattle.std.specs.Prelude.{◌≡◌, ◌∷◌, ℕ, List, Option, IfOk, OnOk};
ghost use Rattle.std.specs.List.{slice_get};
ghost use Rattle.comp_graph.specs.Closed.{Closed, Extern};
ghost use Rattle.link_spec.specs.Definitions.{Closure};
ghost use Rattle.link_spec.specs.Types as types_read;
ghost use Rattle.link_spec.specs.Types.{Meaning, nothing_declared, with_declared, declared_as, with_type, with_component, with_export, instance_meaning};
ghost use Rattle.link_types.specs.Table.{Table, IsType, IsExtern, Grows};
ghost use Rattle.link_meanings.specs.Meant.{IsFoundAs, IsMeaning};
ghost use Rattle.link_meanings.specs.Levels.{IsClosure, enclosed_types, enclosed_components};
ghost use Rattle.link_instance_types.specs.Declaring.{IsDeclared};
ghost use Rattle.link_instance_types.specs.References.{type_ref_in, instance_ref_in};

use crate::exporting::{brought_with, export_brings, export_described};
use crate::so_far::SoFar;
use comp_tree::{ExternDesc, Sort};
use link_meanings::Enclosing;
use link_spec::sort_of;
use link_types::{ExternRef, InstanceTypeRef, Meant, TypeRef, Types};
use std::alloc::{AllocError, Global};
use std::collections::BTreeSet;
use syntax_trees::{Name, adds};

/// An instance type whose declarations are read: its index spaces so far, where what has no meaning has an index too, the names
/// of its exports so far, and what its declarations tell.
#[derive(Drop)]
pub(crate) struct Declared<'a> {
    /// The types.
    pub(crate) types: Vec<Option<TypeRef>>,
    /// The numbers of the components.
    pub(crate) components: Vec<Option<usize>>,
    /// The types of the instances.
    pub(crate) instances: Vec<Option<InstanceTypeRef>>,
    /// The names of its exports.
    pub(crate) names: BTreeSet<&'a str>,
    /// How many resources its exports bring.
    pub(crate) resources: usize,
    /// What its declarations tell.
    pub(crate) so_far: SoFar<'a>,
}

/// A type, if it is one.
fn type_in(item: Option<ExternRef>) -> Option<TypeRef>
    ensures { result ≡ type_ref_in item }
{
    match item? {
        ExternRef::Type(closed) => Some(closed),
        ExternRef::Func(_) | ExternRef::Instance(_) => None,
    }
}

/// The type of an instance, if it is one.
fn instance_in(item: Option<ExternRef>) -> Option<InstanceTypeRef>
    ensures { result ≡ instance_ref_in item }
{
    match item? {
        ExternRef::Instance(instance_type) => Some(instance_type),
        ExternRef::Func(_) | ExternRef::Type(_) => None,
    }
}

impl<'a> Declared<'a> {
    /// Nothing is declared.
    pub(crate) fn new(alloc: Global, types: &mut Types<'a>) -> Result<Declared<'a>, AllocError>
        ensures ok { IfOk result (λ d. (closures : List Closure) → IsDeclared types.new closures d nothing_declared) }
        ensures grows { Grows types.old types.new }
    {
        let so_far = SoFar::new(alloc, types)?;
        Ok(Declared {
            types: Vec::new(alloc),
            components: Vec::new(alloc),
            instances: Vec::new(alloc),
            names: BTreeSet::new(alloc),
            resources: 0,
            so_far,
        })
    }

    /// What an outer alias sees of it.
    pub(crate) fn own_level(&self) -> Enclosing<'_>
        ensures types { enclosed_types result ≡ self.now.types.items }
        ensures components { enclosed_components result ≡ self.now.components.items }
    {
        Enclosing::Instance {
            types: &self.types,
            components: &self.components,
        }
    }

    /// The type of the instance of an index, which may have no meaning.
    pub(crate) fn instance_at(&self, index: u32) -> Option<Option<InstanceTypeRef>>
        ensures { result ≡ slice_get self.now.instances.items index }
    {
        self.instances.get(index as usize).copied()
    }

    /// One index more in the space of a sort, which stands for this or has no meaning.
    fn add(&mut self, sort: Sort, item: Option<ExternRef>) -> Result<(), AllocError>
        ensures { OnOk result ((t : Table) (closures : List Closure) (d : types_read.Declared) (e : Option Extern) → IsDeclared t closures self.old d → IsFoundAs (IsExtern t) item e → IsDeclared t closures self.new (with_declared d sort e)) }
    {
        match sort {
            Sort::Type => self.types.push(type_in(item))?,
            Sort::Instance => self.instances.push(instance_in(item))?,
            Sort::Component => self.components.push(None)?,
            Sort::Func => {}
            Sort::Core(_) => {}
        }
        Ok(())
    }

    /// A declaration of a sort, which has this meaning.
    pub(crate) fn declare(
        &mut self,
        sort: Sort,
        meant: &Meant<'a, ExternRef>,
    ) -> Result<(), AllocError>
        ensures { OnOk result ((t : Table) (closures : List Closure) (d : types_read.Declared) (e : Meaning Extern) → IsDeclared t closures self.old d → IsMeaning (IsExtern t) meant.now e → IsDeclared t closures self.new (declared_as d sort e)) }
    {
        self.add(sort, meant.means)?;
        self.so_far.tell(meant);
        Ok(())
    }

    /// A type, which has this meaning.
    pub(crate) fn add_type(&mut self, meant: &Meant<'a, TypeRef>) -> Result<(), AllocError>
        ensures { OnOk result ((t : Table) (closures : List Closure) (d : types_read.Declared) (e : Meaning Closed) → IsDeclared t closures self.old d → IsMeaning (IsType t) meant.now e → IsDeclared t closures self.new (with_type d e)) }
    {
        self.types.push(meant.means)?;
        self.so_far.tell(meant);
        Ok(())
    }

    /// A component, which has this meaning.
    pub(crate) fn add_component(&mut self, meant: &Meant<'a, usize>) -> Result<(), AllocError>
        ensures { OnOk result ((t : Table) (closures : List Closure) (d : types_read.Declared) (e : Meaning Closure) → IsDeclared t closures self.old d → IsMeaning (IsClosure closures) meant.now e → IsDeclared t closures self.new (with_component d e)) }
    {
        self.components.push(meant.means)?;
        self.so_far.tell(meant);
        Ok(())
    }

    /// An export, which is one index more of what it is.
    pub(crate) fn add_export(
        &mut self,
        alloc: Global,
        types: &mut Types<'a>,
        name: &'a Name,
        desc: ExternDesc,
    ) -> Result<(), AllocError>
        ensures ok { OnOk result ((closures : List Closure) (d : types_read.Declared) → IsDeclared types.old closures self.old d → IsDeclared types.new closures self.new (with_export d name.now desc)) }
        ensures grows { Grows types.old types.new }
    {
        let number = types.name(name.as_str())?;
        let meant = export_described(alloc, types, &self.own_level(), self.resources, desc)?;
        let brought = export_brings(types, &self.own_level(), desc)?;
        self.declare(sort_of(desc), &meant)?;
        let resources = brought_with(self.resources, brought)?;
        self.resources = resources;
        let is_new = adds(&mut self.names, name.as_str())?;
        self.so_far.extend(types, number, meant.means, is_new)?;
        Ok(())
    }

    /// What the instance type means.
    pub(crate) fn finish(self, types: &mut Types<'a>) -> Result<Meant<'a, TypeRef>, AllocError>
        ensures ok { IfOk result (λ m. (closures : List Closure) (d : types_read.Declared) → IsDeclared types.old closures self.entry d → IsMeaning (IsType types.new) m (instance_meaning d)) }
        ensures grows { Grows types.old types.new }
    {
        Ok(self.so_far.finish(types)?)
    }
}
