//! Kinds of blocks.

ghost use Rattle.std.specs.Prelude.{◌≡◌};
ghost use Rattle.wasm_typing.specs.Faults.{label_in};

use syntax_trees::BlockType;
use syntax_trees::module_types::{FuncType, ValType};

/// What a block is, as far as its label and its end tell (Core 2.0, sections 3.3.8 and 3.4.1).
#[derive(Clone, Copy)]
pub enum BlockKind {
    /// A block, a function's body, or the second part of an `if`.
    Block,
    /// A loop, to whose beginning a branch goes.
    Loop,
    /// The first part of an `if`.
    If,
}

/// What a branch to a block wants.
pub(crate) fn label<'a>(
    types: &'a [FuncType],
    kind: BlockKind,
    block_type: BlockType,
) -> &'a [ValType]
    ensures { result.now ≡ label_in types.now kind block_type }
{
    match kind {
        BlockKind::Loop => block_type.params(types),
        BlockKind::Block | BlockKind::If => block_type.results(types),
    }
}
