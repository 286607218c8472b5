//! Why components are not linked.

use syntax_trees::Name;
use thiserror::Error;

/// Why an item of a component is refused. Of the reasons against one item the first in this order is told.
#[derive(Debug, Drop, Error)]
pub enum LinkWhy {
    /// The root imports a function or a type, or an instance whose exports are not all types.
    #[error("the component imports what is no instance of types")]
    RootImport,
    /// An index is past its index space, or an outer alias past the outermost level.
    #[error("an index is past its index space")]
    Index,
    /// No export or argument has this name, which is looked up: an export of an instance or a core instance, an argument of
    /// a component, a module that a core module imports from, or an export that is asked for of what is passed.
    #[error("nothing has the name `{}`", .0.as_str())]
    Missing(Name),
    /// A name or a label stands twice where it may not, or what is there is of another sort or type than what is asked for; a
    /// record, variant, tuple, enum or flags type is empty, or flags have more than 32 labels; the type of a built-in of streams or of
    /// futures is none of these, or the built-in is one of resources (Component Model, Explainer.md, "Type Definitions").
    #[error("a name stands twice, or a type is not what it may be")]
    Typing,
    /// An option of a lift or of a lower stands twice; a core function that it uses is of another type than it needs; a lift has a
    /// `post-return` with `async`, or a `callback` without; a lower has a `post-return` or a `callback`; something passes in memory,
    /// or asks for a place there, and no memory is given, or no function that gives places; a built-in names a word that a task does
    /// not have, or has options that do not serve it (Component Model, CanonicalABI.md, "Canonical ABI Options", "Flattening",
    /// `canon lift`, `canon lower` and the built-ins).
    #[error("a canonical function cannot be made of what it is given")]
    Canon,
    /// There are more than 256 component instances, more than 256 core instances, or more than 32 value types in one another; or the
    /// component is linked, and the item is the first one that `run` does not carry out.
    #[error("there are more instances, or more types in one another, than may be, or what the item makes is not run")]
    Limit,
}

/// The first item of a component that is refused.
#[derive(Debug, Drop, Error)]
#[error("the item at byte {place} is not linked: {why}")]
pub struct LinkFault {
    /// The byte place of the item in the component file.
    pub place: usize,
    /// The reason.
    pub why: LinkWhy,
}
