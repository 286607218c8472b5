//! References into a table of types.

ghost use Rattle.std.specs.Prelude.{◌≡◌, IsTrue};
ghost use Rattle.link_values.specs.Layering.{type_layer, extern_layer};

use crate::layers::{ExternLayer, TypeLayer};

/// A function type of a table.
#[derive(Clone, Copy, PartialEq)]
pub struct FuncTypeRef {
    /// The number of its layer, which tells it from other types.
    pub layer: usize,
    /// Its number among the function types.
    pub number: usize,
}

/// A type of instances of a table.
#[derive(Clone, Copy, PartialEq, Eq, PartialOrd, Ord)]
pub struct InstanceTypeRef {
    /// The number of its layer, which tells it from other types.
    pub layer: usize,
    /// Its number among the types of instances.
    pub number: usize,
    /// Whether it names a resource.
    pub names_resource: bool,
}

/// A closed type.
#[derive(Clone, Copy, PartialEq)]
pub enum TypeRef {
    /// A value type, by its number.
    Value(usize),
    /// A function type.
    Func(FuncTypeRef),
    /// A type of resources, by its number.
    Resource(usize),
    /// A type of instances.
    Instance(InstanceTypeRef),
}

/// What an import or an export is.
#[derive(Clone, Copy, PartialEq)]
pub enum ExternRef {
    /// A function of a type.
    Func(FuncTypeRef),
    /// A type.
    Type(TypeRef),
    /// An instance of a type.
    Instance(InstanceTypeRef),
}

impl FuncTypeRef {
    /// Its number among the function types.
    pub fn number(self) -> usize
        ensures { result ≡ self.number }
    {
        self.number
    }
}

impl TypeRef {
    /// The outer layer.
    pub fn layer(self) -> TypeLayer
        ensures { result ≡ type_layer self }
    {
        match self {
            TypeRef::Value(val_type) => TypeLayer::Value(val_type),
            TypeRef::Func(func_type) => TypeLayer::Func(func_type.layer),
            TypeRef::Resource(number) => TypeLayer::Resource(number),
            TypeRef::Instance(instance_type) => TypeLayer::Instance(instance_type.layer),
        }
    }
}

impl ExternRef {
    /// The outer layer.
    pub fn layer(self) -> ExternLayer
        ensures { result ≡ extern_layer self }
    {
        match self {
            ExternRef::Func(func_type) => ExternLayer::Func(func_type.layer),
            ExternRef::Type(closed) => ExternLayer::Type(closed.layer()),
            ExternRef::Instance(instance_type) => ExternLayer::Instance(instance_type.layer),
        }
    }
}

/// Whether these exports are the same references under the same names, in the same order.
pub fn are_same(given: &[(usize, ExternRef)], other: &[(usize, ExternRef)]) -> bool
    ensures { IsTrue result → given.now ≡ other.now }
{
    given == other
}
