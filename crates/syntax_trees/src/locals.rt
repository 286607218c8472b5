//! The locals of a function (Core 2.0, section 2.5.3).

ghost use Rattle.std.specs.Prelude.{◌≡◌, ◌≤◌, IfOk};
ghost use Rattle.syntax_trees.specs.Locals.{local_count, locals_limit};

use crate::module_types::Locals;
use crate::seq::Seq;
use std::alloc::{AllocError, Global};
use std::marker::Model;

/// The locals that a function declares: groups of one type, at most 50,000 locals in all. Contracts see the groups.
#[derive(Drop)]
pub struct DeclaredLocals {
    groups: Seq<Locals>,
}

impl Model for DeclaredLocals {
    ghost use Rattle.std.specs.Prelude.{◌≤◌, List};
    ghost use Rattle.syntax_trees.specs.declared.module_types.Locals.{Locals};
    ghost use Rattle.syntax_trees.specs.Locals.{local_count, locals_limit};

    ghost Value = { List Locals };

    ghost view = { λ l. l.groups };

    ghost invariant = { λ l. local_count l.groups ≤ locals_limit };
}

impl DeclaredLocals {
    /// The locals of these groups. It takes no memory.
    pub fn of(groups: Seq<Locals>) -> DeclaredLocals
        requires { local_count groups ≤ locals_limit }
        ensures { result ≡ groups }
    {
        DeclaredLocals { groups }
    }

    /// The groups, in order.
    pub fn as_slice(&self) -> &[Locals]
        ensures groups { result.now ≡ self.now }
        ensures limit { local_count self.now ≤ locals_limit }
    {
        self.groups.as_slice()
    }

    /// The same locals again. It fails for want of memory alone.
    pub fn copied(&self, alloc: Global) -> Result<DeclaredLocals, AllocError>
        ensures { IfOk result (λ l. l ≡ self.now) }
    {
        let groups = Vec::from_slice(alloc, self.groups.as_slice())?;
        Ok(DeclaredLocals {
            groups: Seq::from_vec(groups),
        })
    }
}
