//! Core instances (Component Model, Explainer.md and Binary.md).

use syntax_trees::{Name, Named, Seq};

/// A sort of what a core instance can export (Component Model, Binary.md, `core:sort`).
#[derive(Clone, Copy, Debug)]
pub enum CoreSort {
    /// A function.
    Func,
    /// A table.
    Table,
    /// A memory.
    Memory,
    /// A global.
    Global,
    /// A module. No core instance has one.
    Module,
    /// An instance. No core instance has one.
    Instance,
}

/// An argument of a core module (Component Model, Binary.md, `core:instantiatearg`): a core instance, whose exports the
/// module imports under this name.
#[derive(Drop)]
pub struct CoreArgument {
    /// The name of the module that is imported from.
    pub name: Name,
    /// The index of the core instance.
    pub instance: u32,
}

impl Named for CoreArgument {
    ghost name = { λ a. a.name };

    fn name(&self) -> &str {
        self.name.as_str()
    }
}

/// An export of a core instance that is made of its exports (Component Model, Binary.md, `core:inlineexport`).
#[derive(Drop)]
pub struct CoreInlineExport {
    /// The name.
    pub name: Name,
    /// The sort of what is exported.
    pub sort: CoreSort,
    /// Its index in the space of that sort.
    pub index: u32,
}

impl Named for CoreInlineExport {
    ghost name = { λ e. e.name };

    fn name(&self) -> &str {
        self.name.as_str()
    }
}

/// What makes a core instance (Component Model, Binary.md, `core:instanceexpr`).
#[derive(Drop)]
pub enum CoreInstance {
    /// The instantiation of a core module.
    Instantiate {
        /// The index of the core module.
        module: u32,
        /// Its arguments, in order.
        arguments: Seq<CoreArgument>,
    },
    /// An instance that has these exports, in order.
    Inline(Seq<CoreInlineExport>),
}
