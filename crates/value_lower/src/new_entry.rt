//! What is entered for a value that is told by an index.

ghost use Rattle.std.specs.Prelude.{◌≡◌};
ghost use Rattle.syntax_trees.specs.declared.types.ValType.{ValType};
ghost use Rattle.value_lower.specs.Plan.{number_of};
ghost use Rattle.value_lower.specs.Entries.{new_of};

use syntax_trees::Handle;

/// What is entered for a value that is told by an index.
#[derive(Clone, Copy)]
pub enum NewEntry {
    /// An own handle.
    Own(Handle),
    /// A handle that is lowered as a borrow.
    Borrow(Handle),
    /// The readable end of the stream or the future of this number.
    End(u32),
}

impl NewEntry {
    /// The number of what it is.
    pub fn number(self) -> u32
        ensures { (t : ValType) → result ≡ number_of (new_of self t) }
    {
        match self {
            NewEntry::Own(handle) => handle.rep,
            NewEntry::Borrow(handle) => handle.rep,
            NewEntry::End(number) => number,
        }
    }
}
