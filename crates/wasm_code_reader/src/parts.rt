//! The parts of a body that are open while it is read.

ghost use Rattle.std.specs.Prelude.{◌≡◌, ◌==◌, ◌&&◌, reverse};
ghost use Rattle.wasm_code_reader.specs.Parts.{may_else, Leaves};

/// The opcode that ends the first part of an `if`.
const ELSE: u8 = 0x05;

/// A part of a body that is being read.
#[derive(Clone, Copy)]
pub(crate) enum Part {
    /// The first part of an `if`, which `else` may end.
    First,
    /// Any other part.
    Other,
}

/// Whether an opcode is the `else` that ends such a part.
pub(crate) fn is_else(part: Part, opcode: u8) -> bool
    ensures { result ≡ (may_else part && opcode == 5) }
{
    match part {
        Part::First => opcode == ELSE,
        Part::Other => false,
    }
}

/// Takes the part around, where there is one.
pub(crate) fn leave(around: &mut Vec<Part>) -> Option<Part>
    ensures { Leaves (reverse around.old.items) result (reverse around.new.items) }
{
    around.pop()
}
