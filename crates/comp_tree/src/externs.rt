//! Imports and exports (Component Model, Explainer.md and Binary.md).

use crate::instances::Sort;
use syntax_trees::Name;

/// What an import or an export is asked to be (Component Model, Binary.md, `externdesc`).
#[derive(Clone, Copy, Debug)]
pub enum ExternDesc {
    /// A function of the type of this index.
    Func(u32),
    /// The type of this index.
    TypeEq(u32),
    /// An instance of the instance type of this index.
    Instance(u32),
    /// A resource type, which is different from all others that are not said to be equal to it.
    Resource,
}

/// A definition that the component wants as an argument (Component Model, Binary.md, `import`).
#[derive(Drop)]
pub struct Import {
    /// The name.
    pub name: Name,
    /// What it is to be.
    pub desc: ExternDesc,
}

/// A definition that the component's instances export (Component Model, Binary.md, `export`). The export is a definition
/// of its own, with an index behind those of its sort.
#[derive(Drop)]
pub struct Export {
    /// The name.
    pub name: Name,
    /// The sort of what is exported.
    pub sort: Sort,
    /// Its index in the space of that sort.
    pub index: u32,
    /// What it is to be, where the component says so.
    pub desc: Option<ExternDesc>,
}
