//! The names of traps of lifting.

ghost use Rattle.std.specs.Prelude.{◌≡◌};
ghost use Rattle.value_parts.specs.Names.{lift_name};

use trace_labels::TrapName;
use value_lift::LiftWhy;
use world_parts::refusal_name;

/// The name of the reason why nothing is lifted (Component Model, CanonicalABI.md, "Loading").
pub fn lift_name(why: LiftWhy) -> TrapName
    ensures { result ≡ lift_name why }
{
    match why {
        LiftWhy::Misaligned => TrapName::Misaligned,
        LiftWhy::Bounds => TrapName::Bounds,
        LiftWhy::BadChar => TrapName::BadChar,
        LiftWhy::BadUtf8 => TrapName::BadUtf8,
        LiftWhy::BadCase => TrapName::BadCase,
        LiftWhy::TooLarge => TrapName::TooLarge,
        LiftWhy::Refused(why) => refusal_name(why),
    }
}
