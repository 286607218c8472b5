//! References to definitions.

ghost use Rattle.std.specs.Prelude.{◌≡◌};
ghost use Rattle.comp_graph.specs.Closed.{Extern};
ghost use Rattle.link_spec.specs.Definitions as linking;
ghost use Rattle.link_spec.specs.Definitions.{Definition, Fits};
ghost use Rattle.link_spec.specs.Tests.{is_of_sort};
ghost use Rattle.link_types.specs.Table.{Table};
ghost use Rattle.link_types.specs.Table.{IsExtern};
ghost use Rattle.link_instances.specs.References.{World, Stands, seen_ref, func_ref, type_ref, instance_ref};
ghost use Rattle.link_instances.specs.Sorts.{is_of};

use comp_graph::{FuncRef, Lift, Options};
use comp_tree::{CoreSort, Sort};
use link_types::{ExternRef, FuncTypeRef, InstanceTypeRef, TypeRef};

/// A function.
#[derive(Clone, Copy)]
pub struct LiftedRef {
    /// The component instance that lifts it.
    pub instance: u32,
    /// The core function that it lifts.
    pub core: FuncRef,
    /// What else the lift uses.
    pub options: Options,
    /// Its type.
    pub func_type: FuncTypeRef,
}

impl LiftedRef {
    /// What it lifts.
    pub fn lift(self) -> Lift
        ensures { result ≡ record { instance = self.instance; core = self.core; options = self.options } }
    {
        Lift {
            instance: self.instance,
            core: self.core,
            options: self.options,
        }
    }
}

/// An instance.
#[derive(Clone, Copy, PartialEq, Eq, PartialOrd, Ord)]
pub struct InstanceRef {
    /// The number of its exports.
    pub base: usize,
    /// The type that it is seen as, if it is seen as one.
    pub seen_as: Option<InstanceTypeRef>,
}

/// A definition.
#[derive(Clone, Copy)]
pub enum DefinitionRef {
    /// A function.
    Func(LiftedRef),
    /// A closed type.
    Type(TypeRef),
    /// A component, by its number.
    Component(usize),
    /// An instance.
    Instance(InstanceRef),
    /// A core module, by its number.
    Module(usize),
}

impl DefinitionRef {
    /// The function, if it is one.
    pub fn func(self) -> Option<LiftedRef>
        ensures { result ≡ func_ref self }
    {
        match self {
            DefinitionRef::Func(lifted) => Some(lifted),
            DefinitionRef::Type(_)
            | DefinitionRef::Component(_)
            | DefinitionRef::Instance(_)
            | DefinitionRef::Module(_) => None,
        }
    }

    /// The closed type, if it is one.
    pub(crate) fn closed_type(self) -> Option<TypeRef>
        ensures { result ≡ type_ref self }
    {
        match self {
            DefinitionRef::Type(closed) => Some(closed),
            DefinitionRef::Func(_)
            | DefinitionRef::Component(_)
            | DefinitionRef::Instance(_)
            | DefinitionRef::Module(_) => None,
        }
    }

    /// The instance, if it is one.
    pub fn instance(self) -> Option<InstanceRef>
        ensures { result ≡ instance_ref self }
    {
        match self {
            DefinitionRef::Instance(instance) => Some(instance),
            DefinitionRef::Func(_)
            | DefinitionRef::Type(_)
            | DefinitionRef::Component(_)
            | DefinitionRef::Module(_) => None,
        }
    }

    /// Whether it is of a sort.
    #[tactic(auto, using(crate::proofs::SortsTold::of_sort))]
    pub fn is_of(self, sort: Sort) -> bool
        ensures exact { result ≡ is_of self sort }
        ensures stands { (t : Table) (w : World) (d : Definition) → Stands t w self d → result ≡ is_of_sort d sort }
    {
        match (self, sort) {
            (DefinitionRef::Module(_), Sort::Core(CoreSort::Module))
            | (DefinitionRef::Func(_), Sort::Func)
            | (DefinitionRef::Type(_), Sort::Type)
            | (DefinitionRef::Component(_), Sort::Component)
            | (DefinitionRef::Instance(_), Sort::Instance) => true,
            (_, _) => false,
        }
    }
}

/// What is seen of a definition that fits: of an instance the exports that are asked for, in their order.
pub fn seen_as(given: DefinitionRef, asked: ExternRef) -> DefinitionRef
    ensures exact { result ≡ seen_ref given asked }
    ensures stands { (t : Table) (w : World) (d : Definition) (x : Extern) → Stands t w given d → IsExtern t asked x → Fits d x → Stands t w result (linking.seen_as d x) }
{
    match (given, asked) {
        (DefinitionRef::Instance(instance), ExternRef::Instance(instance_type)) => {
            DefinitionRef::Instance(InstanceRef {
                base: instance.base,
                seen_as: Some(instance_type),
            })
        }
        (_, _) => given,
    }
}
