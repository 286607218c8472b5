//! What a part of a type comes to, as it is written.

ghost use Rattle.std.specs.Prelude.{◌≡◌, true, false, None, Some};

use syntax_trees::Name;

/// What a part of a type comes to, as it is written (Component Model, Explainer.md, "Type Definitions").
#[derive(Clone, Copy)]
pub struct Meant<'a, T> {
    /// Whether all its indices are there.
    pub is_there: bool,
    /// The first name that is missing.
    pub missing: Option<&'a Name>,
    /// Whether a value type in it is too deep. Such a one has a meaning all the same.
    pub deep: bool,
    /// Its meaning, where it has one.
    pub means: Option<T>,
}

impl<'a, T> Meant<'a, T> {
    /// One that is not there.
    pub fn absent() -> Meant<'a, T>
        ensures { result ≡ record { is_there = false; missing = None; deep = false; means = None } }
    {
        Meant {
            is_there: false,
            ..Meant::there(None)
        }
    }

    /// One that stands for this, or has no meaning.
    pub fn there(means: Option<T>) -> Meant<'a, T>
        ensures { result ≡ record { is_there = true; missing = None; deep = false; means = means } }
    {
        Meant {
            is_there: true,
            missing: None,
            deep: false,
            means,
        }
    }

    /// One that is too deep, with what stands in its place.
    pub fn too_deep(in_place: T) -> Meant<'a, T>
        ensures { result ≡ record { is_there = true; missing = None; deep = true; means = Some in_place } }
    {
        Meant {
            deep: true,
            ..Meant::there(Some(in_place))
        }
    }
}
