//! The names of traps of instructions.

ghost use Rattle.std.specs.Prelude.{◌≡◌};
ghost use Rattle.world_stacks.specs.Names.{core_name};

use trace_labels::TrapName;
use wasm_store::Trap;

/// The name of a trap of an instruction (Core 2.0, section 4.4).
pub fn core_name(why: Trap) -> TrapName
    ensures { result ≡ core_name why }
{
    match why {
        Trap::Unreachable => TrapName::Unreachable,
        Trap::DivideByZero => TrapName::DivideByZero,
        Trap::DivideOverflow => TrapName::DivideOverflow,
        Trap::MemoryBounds => TrapName::MemoryBounds,
        Trap::TableBounds => TrapName::TableBounds,
        Trap::NullElement => TrapName::NullElement,
        Trap::OtherSignature => TrapName::OtherSignature,
        Trap::StackLimit => TrapName::StackLimit,
    }
}
