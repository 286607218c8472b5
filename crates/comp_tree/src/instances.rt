//! Instances, and aliases of what stands elsewhere (Component Model, Explainer.md and Binary.md).

use crate::core_instances::CoreSort;
use syntax_trees::{Name, Named, Seq};

/// A sort of definitions, each of which has an index space of its own (Component Model, Binary.md, `sort`).
#[derive(Clone, Copy, Debug)]
pub enum Sort {
    /// A core sort.
    Core(CoreSort),
    /// A function.
    Func,
    /// A type.
    Type,
    /// A component.
    Component,
    /// An instance.
    Instance,
}

/// A definition under a name: an argument of a component, or an export of an instance that is made of its exports
/// (Component Model, Binary.md, `instantiatearg`, `inlineexport`).
#[derive(Drop)]
pub struct NamedDefinition {
    /// The name.
    pub name: Name,
    /// The sort of the definition.
    pub sort: Sort,
    /// Its index in the space of that sort.
    pub index: u32,
}

impl Named for NamedDefinition {
    ghost name = { λ d. d.name };

    fn name(&self) -> &str {
        self.name.as_str()
    }
}

/// What makes an instance (Component Model, Binary.md, `instanceexpr`).
#[derive(Drop)]
pub enum Instance {
    /// The instantiation of a component.
    Instantiate {
        /// The index of the component.
        component: u32,
        /// Its arguments, in order.
        arguments: Seq<NamedDefinition>,
    },
    /// An instance that has these exports, in order.
    Inline(Seq<NamedDefinition>),
}

/// Where the definition stands that an alias names (Component Model, Binary.md, `aliastarget`).
#[derive(Drop)]
pub enum AliasTarget {
    /// An export of an instance.
    InstanceExport {
        /// The index of the instance.
        instance: u32,
        /// The export's name.
        name: Name,
    },
    /// An export of a core instance.
    CoreInstanceExport {
        /// The index of the core instance.
        instance: u32,
        /// The export's name.
        name: Name,
    },
    /// A definition of an enclosing component or instance type.
    Outer {
        /// How many levels further out it stands: 0 is where the alias stands.
        up: u32,
        /// Its index in the space of that level.
        index: u32,
    },
}

/// Another index of a definition (Component Model, Binary.md, `alias`). An outer alias is of a type or a component.
#[derive(Drop)]
pub struct Alias {
    /// The sort of the definition.
    pub sort: Sort,
    /// Where it stands.
    pub target: AliasTarget,
}
