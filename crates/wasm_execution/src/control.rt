//! What comes next in a function's code.

ghost use Rattle.syntax_trees.specs.Expr.{Expr, Plain};
ghost use Rattle.wasm_execution.specs.Places.{frame_of};
ghost use Rattle.wasm_execution.specs.Stepping.{ComesNext, IsEnd};

use crate::frame::Frame;
use syntax_trees::{BlockType, Instr, Op};

/// What comes next in a function's code.
#[derive(Clone, Copy)]
pub(crate) enum Control {
    /// `unreachable`.
    Unreachable,
    /// `br` to the label of this depth.
    Branch(usize),
    /// `br_if` to the label of this depth.
    BranchIf(usize),
    /// `br_table`.
    BranchTable,
    /// `return`.
    Return,
    /// `call` of the function of this index.
    Call(usize),
    /// `call_indirect` of the type of the first index, through the table of the second.
    CallIndirect(usize, usize),
    /// The beginning of a block.
    Block(BlockType),
    /// The beginning of a loop.
    Loop(BlockType),
    /// The beginning of an `if`.
    If(BlockType),
    /// An instruction that leaves the blocks and calls around it as they are.
    Effect,
    /// An end.
    End,
}

/// What an instruction is.
#[inline]
fn control_of(instr: &Instr) -> Control
    ensures { (rest : Expr) → ComesNext result (Plain instr.now rest) }
{
    match instr {
        Instr::Unreachable => Control::Unreachable,
        Instr::Br(depth) => Control::Branch(*depth as usize),
        Instr::BrIf(depth) => Control::BranchIf(*depth as usize),
        Instr::BrTable(_, _) => Control::BranchTable,
        Instr::Return => Control::Return,
        Instr::Call(index) => Control::Call(*index as usize),
        Instr::CallIndirect(index, table) => {
            Control::CallIndirect(*index as usize, *table as usize)
        }
        _ => Control::Effect,
    }
}

impl Frame {
    /// What comes next.
    #[inline]
    pub(crate) fn control(&self) -> Control
        ensures { ComesNext result (frame_of self.now).rest }
    {
        let Some(op) = self.code.op_at(self.at) else {
            return Control::End;
        };
        match op {
            Op::Plain(instr) => control_of(instr),
            Op::OpenBlock(block_type) => Control::Block(*block_type),
            Op::OpenLoop(block_type) => Control::Loop(*block_type),
            Op::OpenIf(block_type) => Control::If(*block_type),
            Op::Else => Control::End,
            Op::End => Control::End,
        }
    }

    /// Whether no instruction comes next, but an end.
    #[inline]
    pub(crate) fn is_at_end(&self) -> bool
        ensures { IsEnd result (frame_of self.now).rest }
    {
        match self.code.op_at(self.at) {
            None => true,
            Some(Op::Else) => true,
            Some(Op::End) => true,
            _ => false,
        }
    }
}
