//! Whether a body has the type of its function, by the validation algorithm over its flat code (Core 2.0, appendix
//! "Validation Algorithm").

ghost use Rattle.std.specs.Prelude.{◌≡◌, ◌∷◌, IfOk, reverse, Some};
ghost use Rattle.wasm_typing.specs.Checking.{step, taken_all, may_end, second_part};
ghost use Rattle.wasm_typing.specs.Context.{params, results};
ghost use Rattle.wasm_valid.specs.State.{all_of, GoesOn, Closed, Bare, opened_in};

use crate::checker::Checker;
use std::alloc::AllocError;
use syntax_trees::module_types::ValType;
use syntax_trees::{BlockType, Op, are_same};
use wasm_typing::{BlockKind, Context};

/// What an item of flat code leads to.
#[derive(Clone, Copy)]
pub(crate) enum Stepped {
    /// The rules don't get past it.
    Stops,
    /// They go on behind it.
    Goes,
    /// It ends the body.
    Ends,
}

impl Checker {
    /// Opens a block of a type, which takes its parameters.
    fn enter(
        &mut self,
        context: &Context,
        kind: BlockKind,
        block_type: BlockType,
    ) -> Result<bool, AllocError>
        ensures { IfOk result (λ passed. GoesOn (opened_in context.now kind block_type self.old.0 self.old.1 (taken_all (reverse (params context.now.types block_type)) (Some self.old.0.known))) passed self.new) }
    {
        if context.has_no_type(block_type) {
            return Ok(false);
        }
        let params = context.params(block_type);
        if !self.take_all(params) {
            return Ok(false);
        }
        self.open(kind, block_type)?;
        self.push_all(params)?;
        Ok(true)
    }

    /// Opens an `if` of a type, which takes an `i32` above its parameters.
    fn enter_if(&mut self, context: &Context, block_type: BlockType) -> Result<bool, AllocError>
        ensures { IfOk result (λ passed. GoesOn (opened_in context.now BlockKind.If block_type self.old.0 self.old.1 (taken_all (ValType.I32 ∷ reverse (params context.now.types block_type)) (Some self.old.0.known))) passed self.new) }
    {
        if context.has_no_type(block_type) {
            return Ok(false);
        }
        if !self.take(ValType::I32) {
            return Ok(false);
        }
        Ok(self.enter(context, BlockKind::If, block_type)?)
    }

    /// Takes the results of the innermost block, which are to be all its operands.
    fn finish(&mut self, context: &Context) -> bool
        ensures { Bare (taken_all (reverse (results context.now.types self.old.0.type)) (Some self.old.0.known)) result self.old self.new }
    {
        let results = context.results(self.block_type());
        if !self.take_all(results) {
            return false;
        }
        self.known_len() == 0
    }

    /// Goes from the first part of an `if` to the second one.
    fn enter_else(&mut self, context: &Context) -> Result<bool, AllocError>
        ensures { IfOk result (λ passed. GoesOn (second_part context.now self.old.0.kind self.old.0 self.old.1) passed self.new) }
    {
        let BlockKind::If = self.kind() else {
            return Ok(false);
        };
        if !self.finish(context) {
            return Ok(false);
        }
        let params = context.params(self.block_type());
        self.begin_second();
        self.push_all(params)?;
        Ok(true)
    }

    /// Whether the innermost block may end here: the first part of an `if` only where its results are its parameters.
    fn may_end(&self, context: &Context) -> bool
        ensures { result ≡ may_end context.now self.now.0.kind self.now.0.type }
    {
        let block_type = self.block_type();
        match self.kind() {
            BlockKind::Block | BlockKind::Loop => true,
            BlockKind::If => are_same(context.params(block_type), context.results(block_type)),
        }
    }

    /// Ends the innermost block.
    fn close(&mut self, context: &Context) -> Result<Stepped, AllocError>
        ensures { IfOk result (λ stepped. Closed (step context.now Op.End (all_of self.old)) stepped self.new) }
    {
        if !self.may_end(context) {
            return Ok(Stepped::Stops);
        }
        let results = context.results(self.block_type());
        if !self.finish(context) {
            return Ok(Stepped::Stops);
        }
        if !self.leave() {
            return Ok(Stepped::Ends);
        }
        self.push_all(results)?;
        Ok(Stepped::Goes)
    }

    /// What an item makes of the open blocks.
    pub fn step(&mut self, context: &Context, op: &Op) -> Result<Stepped, AllocError>
        ensures { IfOk result (λ stepped. Closed (step context.now op.now (all_of self.old)) stepped self.new) }
    {
        let passed = match op {
            Op::Plain(instr) => self.apply(context, instr)?,
            Op::OpenBlock(block_type) => self.enter(context, BlockKind::Block, *block_type)?,
            Op::OpenLoop(block_type) => self.enter(context, BlockKind::Loop, *block_type)?,
            Op::OpenIf(block_type) => self.enter_if(context, *block_type)?,
            Op::Else => self.enter_else(context)?,
            Op::End => return Ok(self.close(context)?),
        };
        if !passed {
            return Ok(Stepped::Stops);
        }
        Ok(Stepped::Goes)
    }
}
