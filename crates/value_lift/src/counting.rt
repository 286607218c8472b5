//! How much one lifting counts: 1 for each value, and 1 for each byte of a text.

ghost use Rattle.std.specs.Prelude.{◌≡◌, ◌+◌, MatchResult};
ghost use Rattle.value_lift.specs.Ledger.{Spends};
ghost use Rattle.value_lift.specs.Answers.{counted, plainly};
ghost use Rattle.value_lift.specs.Lifting.{most};

use crate::trap::{LiftTrap, LiftWhy};

/// What is lifted at once.
#[derive(Clone, Copy)]
pub enum LiftOf {
    /// A value, which is counted.
    Value,
    /// The arguments of a call, as a tuple. The tuple itself is not counted, but each value in it is.
    Arguments,
}

impl LiftOf {
    /// How much may be counted at most.
    pub(crate) fn most(self) -> u32
        ensures { result ≡ most self }
    {
        match self {
            LiftOf::Value => 134_217_728,
            LiftOf::Arguments => 134_217_729,
        }
    }
}

/// Counts so much for what stands at a place.
pub(crate) fn count(many: u32, place: u64, left: &mut u32) -> Result<(), LiftTrap>
    ensures told { Spends plainly (counted many place left.old) left.new result }
    ensures exact { MatchResult result (λ _. left.old ≡ left.new + many) (λ _. left.new ≡ left.old) }
{
    if many > *left {
        return Err(LiftTrap::at(LiftWhy::TooLarge, place));
    }
    *left -= many;
    Ok(())
}
