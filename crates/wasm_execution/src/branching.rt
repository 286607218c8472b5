//! Branches and blocks.

ghost use Rattle.std.specs.Prelude.{◌≡◌, ◌+◌, ◌-◌, ◌≤◌, ◌++◌, take, drop, length, vec_len, IfOk, Some, None};
ghost use Rattle.std.specs.List.{slice_get};
ghost use Rattle.wasm_store.specs.Stack.{Label};
ghost use Rattle.wasm_store.specs.Step.{landed, returning};
ghost use Rattle.wasm_execution.specs.Places.{frame_of, IsPlaced};
ghost use Rattle.wasm_execution.specs.Shape.{first_part, second_part, BeginsBlock, BeginsIf, BeginsLoop, HasOver, label_over, within};

use crate::frame::{Frame, OpenLabel};
use std::alloc::AllocError;

impl Frame {
    /// Enters the block, or the first part of the `if`, that begins here, which takes and gives so many values.
    pub(crate) fn enter(&mut self, params: usize, results: usize) -> Result<(), AllocError>
        requires placed { IsPlaced self.old }
        requires begins { BeginsBlock (frame_of self.old).rest }
        requires over { HasOver params (frame_of self.old).labels (frame_of self.old).values }
        ensures placed { IfOk result (λ _. IsPlaced self.new) }
        ensures frame { IfOk result (λ _. frame_of self.new ≡ within (label_over results params None (frame_of self.old)) (first_part (frame_of self.old).rest) (frame_of self.old)) }
    {
        let after = self.code.behind(self.at);
        let height = self.operands.len() - params;
        self.labels.push(OpenLabel {
            arity: results,
            height,
            again: None,
            after,
        })?;
        self.at += 1;
        Ok(())
    }

    /// Enters the second part of the `if` that begins here.
    pub(crate) fn enter_second(&mut self, params: usize, results: usize) -> Result<(), AllocError>
        requires placed { IsPlaced self.old }
        requires begins { BeginsIf (frame_of self.old).rest }
        requires over { HasOver params (frame_of self.old).labels (frame_of self.old).values }
        ensures placed { IfOk result (λ _. IsPlaced self.new) }
        ensures frame { IfOk result (λ _. frame_of self.new ≡ within (label_over results params None (frame_of self.old)) (second_part (frame_of self.old).rest) (frame_of self.old)) }
    {
        let after = self.code.behind(self.at);
        let second = self.code.second(self.at);
        let height = self.operands.len() - params;
        self.labels.push(OpenLabel {
            arity: results,
            height,
            again: None,
            after,
        })?;
        self.at = second;
        Ok(())
    }

    /// Enters the loop that begins here, which takes so many values.
    pub(crate) fn enter_loop(&mut self, params: usize) -> Result<(), AllocError>
        requires placed { IsPlaced self.old }
        requires begins { BeginsLoop (frame_of self.old).rest }
        requires over { HasOver params (frame_of self.old).labels (frame_of self.old).values }
        ensures placed { IfOk result (λ _. IsPlaced self.new) }
        ensures frame { IfOk result (λ _. frame_of self.new ≡ within (label_over params params (Some (first_part (frame_of self.old).rest)) (frame_of self.old)) (first_part (frame_of self.old).rest) (frame_of self.old)) }
    {
        let after = self.code.behind(self.at);
        let height = self.operands.len() - params;
        self.at += 1;
        self.labels.push(OpenLabel {
            arity: params,
            height,
            again: Some(self.at),
            after,
        })?;
        Ok(())
    }

    /// Branches to the label of this depth.
    pub(crate) fn branch(&mut self, depth: usize)
        requires placed { IsPlaced self.old }
        requires there { (l : Label) × (slice_get (frame_of self.old).labels depth ≡ Some l) × (length l.under + l.arity ≤ length (frame_of self.old).values) }
        ensures placed { IsPlaced self.new }
        ensures frame { (l : Label) × (slice_get (frame_of self.old).labels depth ≡ Some l) × (frame_of self.new ≡ landed l.again depth l (frame_of self.old).values (frame_of self.old)) }
    {
        let keep = self.labels.len() - 1 - depth;
        let label = self.labels[keep];
        unwind(label.height, label.arity, &mut self.operands);
        match label.again {
            None => {
                self.labels.truncate(keep);
                self.at = label.after;
            }
            Some(start) => {
                self.labels.truncate(keep + 1);
                self.at = start;
            }
        }
    }

    /// Goes to the function's end with its results.
    pub(crate) fn go_to_end(&mut self)
        requires placed { IsPlaced self.old }
        ensures placed { IsPlaced self.new }
        ensures frame { frame_of self.new ≡ returning (frame_of self.old) }
    {
        let kept = self.results.min(self.operands.len());
        unwind(0, kept, &mut self.operands);
        self.labels.clear();
        self.at = self.code.len();
    }
}

/// Keeps so many operands from the bottom and so many from the top.
fn unwind(height: usize, arity: usize, operands: &mut Vec<u64>)
    requires { height + arity ≤ vec_len operands.old }
    ensures { operands.new.items ≡ take height operands.old.items ++ drop (length operands.old.items - arity) operands.old.items }
{
    let start = operands.len() - arity;
    operands.drain(height..start);
}
