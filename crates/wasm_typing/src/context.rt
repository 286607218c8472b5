//! What the rules know of a module and of one of its functions.

ghost use Rattle.std.specs.Prelude.{◌≡◌};
ghost use Rattle.std.specs.List.{slice_get};
ghost use Rattle.std.specs.Option.{option_map};
ghost use Rattle.wasm_typing.specs.Context.{params, results};
ghost use Rattle.wasm_typing.specs.Typing.{no_type};
ghost use Rattle.wasm_typing.specs.Faults.{label_of};
ghost use Rattle.wasm_typing.specs.Instrs.{func_type, has_memory};

use crate::block::{BlockKind, label};
use crate::local_runs::LocalTypes;
use std::marker::Model;
use syntax_trees::module_types::{FuncType, ValType};
use syntax_trees::{BlockType, GlobalType};

/// What the rules know of a module and of one of its functions (Core 2.0, section 3.1.1).
#[derive(Drop)]
pub struct Context<'a> {
    /// The module's types.
    pub types: &'a [FuncType],
    /// Of each function, imported ones first, the index of its type.
    pub funcs: &'a [u32],
    /// How many tables there are.
    pub tables: usize,
    /// How many memories there are.
    pub memories: usize,
    /// The types of the globals, imported ones first.
    pub globals: &'a [GlobalType],
    /// The types of the function's parameters and locals.
    pub locals: LocalTypes<'a>,
    /// The types of its results.
    pub results: &'a [ValType],
}

impl<'a> Model for Context<'a> {
    ghost use Rattle.wasm_typing.specs.Context.{Context};

    ghost Value = { Context };

    ghost view = { λ c. record { types = c.types.now; funcs = c.funcs.now; tables = c.tables; memories = c.memories; globals = c.globals.now; locals = c.locals; results = c.results.now } };
}

impl<'a> Context<'a> {
    /// The parameters of a block of a type.
    pub fn params(&self, block_type: BlockType) -> &'a [ValType]
        ensures { result.now ≡ params self.now.types block_type }
    {
        block_type.params(self.types)
    }

    /// The results of a block of a type.
    pub fn results(&self, block_type: BlockType) -> &'a [ValType]
        ensures { result.now ≡ results self.now.types block_type }
    {
        block_type.results(self.types)
    }

    /// What a branch to a block wants.
    pub fn label(&self, kind: BlockKind, block_type: BlockType) -> &'a [ValType]
        ensures { result.now ≡ label_of self.now kind block_type }
    {
        label(self.types, kind, block_type)
    }

    /// Whether the type of a block is not there.
    pub fn has_no_type(&self, block_type: BlockType) -> bool
        ensures { result ≡ no_type self.now block_type }
    {
        block_type.is_missing(self.types)
    }

    /// The type of the function of an index, where it is there.
    pub fn func_type(&self, index: u32) -> Option<&'a FuncType>
        ensures { option_map (λ type. type.now) result ≡ func_type self.now index }
    {
        let type_index = self.funcs.get(index as usize)?;
        self.types.get(*type_index as usize)
    }

    /// The type of an index, where it is there.
    pub fn type_at(&self, index: u32) -> Option<&'a FuncType>
        ensures { option_map (λ type. type.now) result ≡ slice_get self.now.types index }
    {
        self.types.get(index as usize)
    }

    /// The type of the local of an index, where it is there.
    pub fn local(&self, index: u32) -> Option<ValType>
        ensures { result ≡ slice_get self.now.locals index }
    {
        self.locals.get(index)
    }

    /// The type of the global of an index, where it is there.
    pub fn global(&self, index: u32) -> Option<GlobalType>
        ensures { result ≡ slice_get self.now.globals index }
    {
        self.globals.get(index as usize).copied()
    }

    /// Whether there is a memory.
    pub fn has_memory(&self) -> bool
        ensures { result ≡ has_memory self.now }
    {
        0 < self.memories
    }
}
