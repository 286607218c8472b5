//! Types of memories and tables (Core 2.0, sections 2.3.8 and 2.3.9), which tell what these have from the start.

ghost use Rattle.std.specs.Prelude.{◌≡◌, ◌≤◌};
ghost use Rattle.syntax_trees.specs.Limited.{starting_pages, starting_entries};

use crate::module_types::Limits;
use std::marker::Model;

/// The type of a memory (Core 2.0, section 2.3.8): its limits in pages of 65,536 bytes, of which it has at most 1,024 from
/// the start. Contracts see the limits.
#[derive(Clone, Copy)]
pub struct MemoryType {
    limits: Limits,
}

impl Model for MemoryType {
    ghost use Rattle.std.specs.Prelude.{◌≤◌};
    ghost use Rattle.syntax_trees.specs.declared.module_types.Limits.{Limits};
    ghost use Rattle.syntax_trees.specs.Limited.{starting_pages};

    ghost Value = { Limits };

    ghost view = { λ t. t.limits };

    ghost invariant = { λ t. t.limits.min ≤ starting_pages };

    ghost inverse = { λ l. record { limits = l } };
}

impl MemoryType {
    /// The type of memories of these limits, in pages.
    pub fn of(limits: Limits) -> MemoryType
        requires { limits.min ≤ starting_pages }
        ensures { result ≡ limits }
    {
        MemoryType { limits }
    }

    /// The limits, in pages.
    pub fn limits(self) -> Limits
        ensures value { result ≡ self }
        ensures limit { self.min ≤ starting_pages }
    {
        self.limits
    }
}

/// The type of a table of references to functions (Core 2.0, section 2.3.9): its limits in entries, of which it has at most
/// 65,536 from the start. Contracts see the limits.
#[derive(Clone, Copy)]
pub struct TableType {
    limits: Limits,
}

impl Model for TableType {
    ghost use Rattle.std.specs.Prelude.{◌≤◌};
    ghost use Rattle.syntax_trees.specs.declared.module_types.Limits.{Limits};
    ghost use Rattle.syntax_trees.specs.Limited.{starting_entries};

    ghost Value = { Limits };

    ghost view = { λ t. t.limits };

    ghost invariant = { λ t. t.limits.min ≤ starting_entries };

    ghost inverse = { λ l. record { limits = l } };
}

impl TableType {
    /// The type of tables of these limits, in entries.
    pub fn of(limits: Limits) -> TableType
        requires { limits.min ≤ starting_entries }
        ensures { result ≡ limits }
    {
        TableType { limits }
    }

    /// The limits, in entries.
    pub fn limits(self) -> Limits
        ensures value { result ≡ self }
        ensures limit { self.min ≤ starting_entries }
    {
        self.limits
    }
}
