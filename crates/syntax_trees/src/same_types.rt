//! Whether types of values are the same.

ghost use Rattle.std.specs.Prelude.{◌≡◌};
ghost use Rattle.syntax_trees.specs.SameTypes.{same_type, same_types};

use crate::module_types::ValType;

impl ValType {
    /// Whether another type is the same.
    pub fn is_same(self, other: ValType) -> bool
        ensures { result ≡ same_type self other }
    {
        match self {
            ValType::I32 => other == ValType::I32,
            ValType::I64 => other == ValType::I64,
        }
    }
}

/// Whether two lists of types are the same.
pub fn are_same(left: &[ValType], right: &[ValType]) -> bool
    ensures { result ≡ same_types left.now right.now }
{
    if left.len() != right.len() {
        return false;
    }
    for at in 0..left.len() {
        if !left[at].is_same(right[at]) {
            return false;
        }
    }
    true
}
