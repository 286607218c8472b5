//! Open blocks.

use syntax_trees::BlockType;
use wasm_typing::BlockKind;

/// An open block.
#[derive(Clone, Copy)]
pub(crate) struct OpenBlock {
    /// What it is.
    pub kind: BlockKind,
    /// Its type.
    pub block_type: BlockType,
    /// How many operands lie below its own.
    pub height: usize,
    /// Whether any others may lie between these and its own, as behind a branch.
    pub any: bool,
}
