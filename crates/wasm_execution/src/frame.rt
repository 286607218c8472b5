//! Functions that run, or that wait for what they called.

ghost use Rattle.std.specs.Prelude.{◌≡◌, ◌∷◌, reverse, take, drop, IfOk};
ghost use Rattle.syntax_trees.specs.declared.instr.Instr.{Instr};
ghost use Rattle.syntax_trees.specs.Expr.{Expr, End, Plain};
ghost use Rattle.wasm_store.specs.Step.{with_more};
ghost use Rattle.wasm_execution.specs.Places.{frame_of, IsPlaced};
ghost use Rattle.wasm_execution.specs.Shape.{rest_behind, Leaves, HasOver, begun};

use std::alloc::{AllocError, Global};
use std::rc::Rc;
use wasm_code::Code;

/// A block, a loop, an `if` or a body that is being run.
#[derive(Clone, Copy)]
pub(crate) struct OpenLabel {
    /// How many values a branch to it takes along.
    pub(crate) arity: usize,
    /// How many operands are under it.
    pub(crate) height: usize,
    /// Of a loop the place of its body.
    pub(crate) again: Option<usize>,
    /// The place behind its end.
    pub(crate) after: usize,
}

/// A function that runs, or that waits for what it called.
#[derive(Drop)]
pub(crate) struct Frame {
    /// The address of its instance.
    pub(crate) instance: usize,
    /// How many values it gives.
    pub(crate) results: usize,
    /// Its code.
    pub(crate) code: Rc<Code>,
    /// The place in its code.
    pub(crate) at: usize,
    /// Its locals.
    pub(crate) locals: Vec<u64>,
    /// Its operands, the last one at the end.
    pub(crate) operands: Vec<u64>,
    /// The blocks that are being run, the innermost at the end.
    pub(crate) labels: Vec<OpenLabel>,
}

impl Frame {
    /// The frame of a function that begins, with these locals.
    pub(crate) fn begin(
        alloc: Global,
        code: Rc<Code>,
        instance: usize,
        results: usize,
        locals: Vec<u64>,
    ) -> Result<Frame, AllocError>
        ensures placed { IfOk result (λ f. IsPlaced f) }
        ensures begun { IfOk result (λ f. frame_of f ≡ begun instance results locals.items code.value) }
    {
        let after = code.len();
        let mut labels = Vec::new(alloc);
        labels.push(OpenLabel {
            arity: results,
            height: 0,
            again: None,
            after,
        })?;
        Ok(Frame {
            instance,
            results,
            code,
            at: 0,
            locals,
            operands: Vec::new(alloc),
            labels,
        })
    }

    /// Goes behind an instruction that holds no others.
    pub(crate) fn advance(&mut self)
        requires placed { IsPlaced self.old }
        requires plain { (i : Instr) × (e : Expr) × ((frame_of self.old).rest ≡ Plain i e) }
        ensures placed { IsPlaced self.new }
        ensures frame { frame_of self.new ≡ record (frame_of self.old) { rest = rest_behind (frame_of self.old).rest } }
        ensures operands { self.new.operands ≡ self.old.operands }
    {
        self.at += 1;
    }

    /// At an end, leaves the innermost block, and answers whether there was one.
    pub(crate) fn leave(&mut self) -> bool
        requires placed { IsPlaced self.old }
        requires end { (frame_of self.old).rest ≡ End }
        ensures placed { IsPlaced self.new }
        ensures left { Leaves (frame_of self.old) result (frame_of self.new) }
    {
        let Some(label) = self.labels.pop() else {
            return false;
        };
        self.at = label.after;
        true
    }

    /// Takes the last operand.
    pub(crate) fn pop(&mut self) -> u64
        requires placed { IsPlaced self.old }
        requires over { HasOver 1 (frame_of self.old).labels (frame_of self.old).values }
        ensures placed { IsPlaced self.new }
        ensures value { (frame_of self.old).values ≡ result ∷ (frame_of self.new).values }
        ensures frame { frame_of self.new ≡ record (frame_of self.old) { values = (frame_of self.new).values } }
    {
        self.operands.pop().unwrap()
    }

    /// Takes so many operands, the last one at the end.
    pub(crate) fn take(&mut self, count: usize) -> Result<Vec<u64>, AllocError>
        requires placed { IsPlaced self.old }
        requires over { HasOver count (frame_of self.old).labels (frame_of self.old).values }
        ensures placed { IfOk result (λ _. IsPlaced self.new) }
        ensures taken { IfOk result (λ v. v.items ≡ reverse (take count (frame_of self.old).values)) }
        ensures frame { IfOk result (λ _. frame_of self.new ≡ record (frame_of self.old) { values = drop count (frame_of self.old).values }) }
    {
        let keep = self.operands.len() - count;
        let taken = self.operands.split_off(keep)?;
        Ok(taken)
    }

    /// Puts words on top, the last one last.
    pub(crate) fn give(&mut self, words: &[u64]) -> Result<(), AllocError>
        requires placed { IsPlaced self.old }
        ensures placed { IfOk result (λ _. IsPlaced self.new) }
        ensures frame { IfOk result (λ _. frame_of self.new ≡ with_more (reverse words.now) (frame_of self.old)) }
    {
        self.operands.extend_from_slice(words)?;
        Ok(())
    }
}
