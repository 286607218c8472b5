//! Why a text is not read.

ghost use Rattle.std.specs.Prelude.{◌≡◌};

use faults::MemoryOr;

/// The text is not one of the type that is asked for.
#[derive(Clone, Copy)]
pub struct NoText;

impl From<NoText> for MemoryOr<NoText> {
    ghost use Rattle.faults.specs.declared.memory.MemoryOr.TheVariants.{Fault};

    ghost from_gives = { λ fault e. e ≡ Fault fault };

    fn from(fault: NoText) -> MemoryOr<NoText> {
        MemoryOr::Fault(fault)
    }
}
