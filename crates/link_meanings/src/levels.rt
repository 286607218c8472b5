//! What outer aliases see of where a type stands.

ghost use Rattle.std.specs.Prelude.{◌≡◌, length, map};
ghost use Rattle.std.specs.List.{slice_get};
ghost use Rattle.link_meanings.specs.Levels.{enclosed_types, enclosed_components};

use link_types::TypeRef;

/// What an outer alias sees of a component instance: its types, and its components by their numbers.
#[derive(Clone, Copy)]
pub struct Level<'b> {
    /// The types.
    pub types: &'b [TypeRef],
    /// The numbers of the components.
    pub components: &'b [usize],
}

/// What an outer alias sees.
#[derive(Clone, Copy)]
pub enum Enclosing<'b> {
    /// A component instance.
    Component(Level<'b>),
    /// An instance type: its types, and its components by their numbers, each of which may have no meaning.
    Instance {
        /// The types.
        types: &'b [Option<TypeRef>],
        /// The numbers of the components.
        components: &'b [Option<usize>],
    },
}

impl<'b> Enclosing<'b> {
    /// How many types there are.
    pub(crate) fn type_count(&self) -> usize
        ensures { result ≡ length (enclosed_types self.now) }
    {
        match self {
            Enclosing::Component(level) => level.types.len(),
            Enclosing::Instance { types, .. } => types.len(),
        }
    }

    /// The type of an index, which may have no meaning.
    pub fn type_at(&self, index: u32) -> Option<Option<TypeRef>>
        ensures { result ≡ slice_get (enclosed_types self.now) index }
    {
        match self {
            Enclosing::Component(level) => known_at(level.types, index),
            Enclosing::Instance { types, .. } => types.get(index as usize).copied(),
        }
    }

    /// The number of the component of an index, which may have no meaning.
    pub fn component_at(&self, index: u32) -> Option<Option<usize>>
        ensures { result ≡ slice_get (enclosed_components self.now) index }
    {
        match self {
            Enclosing::Component(level) => known_at(level.components, index),
            Enclosing::Instance { components, .. } => components.get(index as usize).copied(),
        }
    }
}

/// What stands at an index, where all have a meaning.
fn known_at<T: Copy>(items: &[T], index: u32) -> Option<Option<T>>
    ensures { result ≡ slice_get (map Some items.now) index }
{
    match items.get(index as usize).copied() {
        Some(item) => Some(Some(item)),
        None => None,
    }
}
