//! What blocks take and give (Core 2.0, section 3.2.2).

ghost use Rattle.std.specs.Prelude.{◌≡◌, ◌∷◌, []};
ghost use Rattle.syntax_trees.specs.BlockTypes.{params, results, no_block_type};

use crate::instr::BlockType;
use crate::module_types::{FuncType, ValType};

/// A list of this type alone.
fn one(val_type: ValType) -> &'static [ValType]
    ensures { result.now ≡ val_type ∷ [] }
{
    match val_type {
        ValType::I32 => &[ValType::I32],
        ValType::I64 => &[ValType::I64],
    }
}

impl BlockType {
    /// The types of what a block of this type takes, over the module's types. There are none where its type is not there.
    pub fn params<'a>(self, types: &'a [FuncType]) -> &'a [ValType]
        ensures { result.now ≡ params types.now self }
    {
        match self {
            BlockType::Empty => &[],
            BlockType::Value(_) => &[],
            BlockType::TypeIndex(index) => match types.get(index as usize) {
                None => &[],
                Some(found) => found.params.as_slice(),
            },
        }
    }

    /// The types of what it gives, over the module's types. There are none where its type is not there.
    pub fn results<'a>(self, types: &'a [FuncType]) -> &'a [ValType]
        ensures { result.now ≡ results types.now self }
    {
        match self {
            BlockType::Empty => &[],
            BlockType::Value(val_type) => one(val_type),
            BlockType::TypeIndex(index) => match types.get(index as usize) {
                None => &[],
                Some(found) => found.results.as_slice(),
            },
        }
    }

    /// Whether the module's types don't have it.
    pub fn is_missing(self, types: &[FuncType]) -> bool
        ensures { result ≡ no_block_type types.now self }
    {
        match self {
            BlockType::TypeIndex(index) => types.get(index as usize).is_none(),
            _ => false,
        }
    }
}
