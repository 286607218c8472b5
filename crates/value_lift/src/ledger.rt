//! What lifting goes on with, from part to part.

use crate::named::Named;
use crate::trap::{LiftError, LiftTrap};
use laid_types::NumberedType;

/// What is kept while values are lifted: how much may be counted still, and what indices name.
///
/// Contracts see what is kept, and `ledger`, which says what the calls make of it, where types are told by their numbers among these.
/// `knows` says of types that they may be told so.
pub(crate) trait Ledger {
    ghost use Rattle.std.specs.Prelude.{◌≡◌, List};
    ghost use Rattle.syntax_trees.specs.declared.types.ValType.{ValType};
    ghost use Rattle.value_lift.specs.Ledger as ledgers;
    ghost use Rattle.value_lift.specs.Ledger.{Spends, MayTake, reached};
    ghost use Rattle.value_lift.specs.Named.{what_named};

    ghost Kept: { Type 0 };

    ghost Stop: { Type 0 };

    ghost kept: { Self → Kept };

    ghost ledger: { List ValType → ledgers.Ledger Kept Stop };

    ghost knows: { List ValType → Type 0 };

    /// Counts so much for what stands at a place.
    fn count(&mut self, many: u32, place: u64) -> Result<(), LiftTrap>
        ensures { (types : List ValType) → Spends (ledger types) ((ledger types).spend many place (kept self.old)) (kept self.new) result };

    /// Counts a value of a type that is told by an index, and answers the number of what the index names.
    fn take(
        &mut self,
        named: Named,
        index: u32,
        place: u64,
        t: &NumberedType<'_>,
    ) -> Result<u32, LiftError>
        requires { knows t.now.types }
        ensures { MayTake (ledger t.now.types) (reached (ledger t.now.types) (what_named named t.now.val_type) index place (kept self.old)) (kept self.new) result };
}
