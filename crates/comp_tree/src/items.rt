//! Components and their items (Component Model, Explainer.md and Binary.md).

use crate::builtins::CanonBuiltin;
use crate::core_instances::CoreInstance;
use crate::externs::{Export, Import};
use crate::instances::{Alias, Instance};
use crate::types::DefType;
use ca_base::Placed;
use syntax_trees::{Boxed, Seq};
use wasm_typing::Valid;

/// An option of a canonical function (Component Model, Binary.md, `canonopt`).
#[derive(Clone, Copy)]
pub enum CanonOption {
    /// Texts are in UTF-8.
    Utf8,
    /// What is passed in memory stands in the memory of this index.
    Memory(u32),
    /// The core function of this index gives places in the memory.
    Realloc(u32),
    /// The core function of this index is called when the result was lifted.
    PostReturn(u32),
    /// A task returns by `task.return`, or a caller goes on before what it called has returned.
    Async,
    /// The core function of this index is called with each event of a task.
    Callback(u32),
}

/// A function that the Canonical ABI makes (Component Model, Binary.md, `canon`).
#[derive(Drop)]
pub enum Canon {
    /// The lift of a core function to a function.
    Lift {
        /// The index of the core function.
        core_func: u32,
        /// The options, in order.
        options: Seq<CanonOption>,
        /// The index of the function's type.
        func_type: u32,
    },
    /// The core function that a function is lowered to.
    Lower {
        /// The index of the function.
        func: u32,
        /// The options, in order.
        options: Seq<CanonOption>,
    },
    /// A built-in, which is a core function.
    Builtin(CanonBuiltin),
}

/// An item of a component. Each one adds an index to the space of its sort. Custom sections are no items.
#[cycle(components)]
#[derive(Drop)]
pub enum Item {
    /// A core module, which is valid.
    CoreModule(Boxed<Valid>),
    /// A core instance.
    CoreInstance(CoreInstance),
    /// A component that stands in this one.
    Component(Component),
    /// An instance.
    Instance(Instance),
    /// An alias.
    Alias(Alias),
    /// A type.
    Type(DefType),
    /// A canonical function.
    Canon(Canon),
    /// An import.
    Import(Import),
    /// An export.
    Export(Export),
}

/// A component: its items, in file order, each with the place of its first byte.
#[cycle(components)]
#[derive(Drop)]
pub struct Component {
    /// The items, in file order.
    pub items: Seq<Placed<Item>>,
}
