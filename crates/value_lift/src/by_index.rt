//! Lifting without a table.

ghost use Rattle.std.specs.Prelude.{◌≡◌};

use crate::counting::count;
use crate::ledger::Ledger;
use crate::named::Named;
use crate::trap::{LiftError, LiftTrap};
use laid_types::NumberedType;

/// Keeps how much may be counted still. An index names itself.
#[derive(Drop)]
pub(crate) struct ByIndex {
    pub(crate) left: u32,
}

impl Ledger for ByIndex {
    ghost use Rattle.std.specs.Prelude.{ℕ, List};
    ghost use Rattle.syntax_trees.specs.declared.types.ValType.{ValType};
    ghost use Rattle.value_lift.specs.declared.trap.LiftTrap.{LiftTrap};
    ghost use Rattle.value_lift.specs.Answers.{plainly};

    ghost Kept = { ℕ };

    ghost Stop = { LiftTrap };

    ghost kept = { λ l. l.left };

    ghost ledger = { λ _. plainly };

    ghost knows = { λ _. Unit {0} };

    fn count(&mut self, many: u32, place: u64) -> Result<(), LiftTrap> {
        count(many, place, &mut self.left)
    }

    fn take(
        &mut self,
        _named: Named,
        index: u32,
        place: u64,
        _t: &NumberedType<'_>,
    ) -> Result<u32, LiftError> {
        self.count(1, place)?;
        Ok(index)
    }
}
