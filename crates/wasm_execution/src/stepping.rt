//! Single instructions.

ghost use Rattle.std.specs.Prelude.{◌≡◌, ◌⊎◌, IfOk, OnErr, Some, ℕ, List};
ghost use Rattle.std.specs.List.{slice_get};
ghost use Rattle.syntax_trees.specs.declared.instr.Instr.{Instr};
ghost use Rattle.syntax_trees.specs.declared.instr.Instr.TheVariants as instr;
ghost use Rattle.syntax_trees.specs.Expr.{Expr, Plain};
ghost use Rattle.wasm_store.specs.Store.{Store};
ghost use Rattle.wasm_store.specs.Step.{table_label};
ghost use Rattle.wasm_store.specs.Typed.{StoreTyped};
ghost use Rattle.wasm_execution.specs.declared.stepping.Step.TheVariants as step;
ghost use Rattle.wasm_execution.specs.Places.{frame_of, IsPlaced};
ghost use Rattle.wasm_execution.specs.Stepping.{IsTyped, HasNext, IsEffect, StepGives, OnwardAlone, PlacedAfter};

use crate::calling::{call, call_indirect};
use crate::control::Control;
use crate::entering::{enter_block, enter_loop, enter_one_of};
use crate::frame::Frame;
use faults::Memory;
use syntax_trees::{Instr, Op};
use wasm_store::{Store, Trap};

/// What came of an instruction.
#[derive(Clone, Copy)]
pub(crate) enum Step {
    /// The function goes on.
    Goes,
    /// It calls the function at this address. Its arguments are the last operands.
    Calls(usize),
    /// It traps.
    Traps(Trap),
}

/// Makes the next instruction of a function.
///
/// `Memory` comes where memory runs out, and then the store is as it was.
pub(crate) fn make_step(frame: &mut Frame, store: &mut Store) -> Result<Step, Memory>
    requires placed { IsPlaced frame.old }
    requires store { StoreTyped store.old }
    requires typed { IsTyped store.old (frame_of frame.old) }
    requires next { HasNext (frame_of frame.old).rest }
    ensures placed { IfOk result (λ s. PlacedAfter s frame.new) }
    ensures gives { IfOk result (λ s. StepGives store.old (frame_of frame.old) s store.new (frame_of frame.new)) }
    ensures stays { OnErr result (store.new ≡ store.old) }
{
    match frame.control() {
        Control::Unreachable => Ok(Step::Traps(Trap::Unreachable)),
        Control::Branch(depth) => Ok(branch(frame, depth)),
        Control::BranchIf(depth) => Ok(branch_if(frame, depth)),
        Control::BranchTable => Ok(branch_table(frame)),
        Control::Return => Ok(return_from(frame)),
        Control::Call(index) => Ok(call(frame, store, index)),
        Control::CallIndirect(index, table) => Ok(call_indirect(frame, store, index, table)),
        Control::Block(block_type) => enter_block(frame, store, block_type),
        Control::Loop(block_type) => enter_loop(frame, store, block_type),
        Control::If(block_type) => enter_one_of(frame, store, block_type),
        Control::Effect => make_effect(frame, store),
        Control::End => unreachable!(),
    }
}

/// `br`.
fn branch(frame: &mut Frame, depth: usize) -> Step
    requires placed { IsPlaced frame.old }
    requires typed { (s : Store) × IsTyped s (frame_of frame.old) }
    requires next { (r : Expr) × ((frame_of frame.old).rest ≡ Plain (instr.Br depth) r) }
    ensures placed { IsPlaced frame.new }
    ensures gives { OnwardAlone (frame_of frame.old) (frame_of frame.new) }
    ensures goes { result ≡ step.Goes }
{
    frame.branch(depth);
    Step::Goes
}

/// `br_if`.
fn branch_if(frame: &mut Frame, depth: usize) -> Step
    requires placed { IsPlaced frame.old }
    requires typed { (s : Store) × IsTyped s (frame_of frame.old) }
    requires next { (r : Expr) × ((frame_of frame.old).rest ≡ Plain (instr.BrIf depth) r) }
    ensures placed { IsPlaced frame.new }
    ensures gives { OnwardAlone (frame_of frame.old) (frame_of frame.new) }
    ensures goes { result ≡ step.Goes }
{
    if frame.pop() == 0 {
        frame.advance();
        return Step::Goes;
    }
    frame.branch(depth);
    Step::Goes
}

/// `br_table`.
fn branch_table(frame: &mut Frame) -> Step
    requires placed { IsPlaced frame.old }
    requires typed { (s : Store) × IsTyped s (frame_of frame.old) }
    requires next { (others : List ℕ) × (last : ℕ) × (r : Expr) × ((frame_of frame.old).rest ≡ Plain (instr.BrTable others last) r) }
    ensures placed { IsPlaced frame.new }
    ensures gives { OnwardAlone (frame_of frame.old) (frame_of frame.new) }
    ensures goes { result ≡ step.Goes }
{
    let number = frame.pop();
    let depth = frame.table_label(number);
    frame.branch(depth);
    Step::Goes
}

/// `return`.
fn return_from(frame: &mut Frame) -> Step
    requires placed { IsPlaced frame.old }
    requires next { (r : Expr) × ((frame_of frame.old).rest ≡ Plain instr.Return r) }
    ensures placed { IsPlaced frame.new }
    ensures gives { OnwardAlone (frame_of frame.old) (frame_of frame.new) }
    ensures goes { result ≡ step.Goes }
{
    frame.go_to_end();
    Step::Goes
}

/// Makes an instruction that leaves the blocks and calls around it as they are.
///
/// `Memory` comes where memory runs out, and then the store is as it was.
fn make_effect(frame: &mut Frame, store: &mut Store) -> Result<Step, Memory>
    requires placed { IsPlaced frame.old }
    requires store { StoreTyped store.old }
    requires typed { IsTyped store.old (frame_of frame.old) }
    requires next { (p : Instr) × (r : Expr) × ((frame_of frame.old).rest ≡ Plain p r) × IsEffect p }
    ensures placed { IfOk result (λ s. PlacedAfter s frame.new) }
    ensures gives { IfOk result (λ s. StepGives store.old (frame_of frame.old) s store.new (frame_of frame.new)) }
    ensures stays { OnErr result (store.new ≡ store.old) }
{
    let Some(Op::Plain(instr)) = frame.code.op_at(frame.at) else {
        unreachable!()
    };
    let trap = store.effect(
        instr,
        frame.instance,
        &mut frame.locals,
        &mut frame.operands,
    )?;
    if let Some(why) = trap {
        return Ok(Step::Traps(why));
    }
    frame.advance();
    Ok(Step::Goes)
}

impl Frame {
    /// The label that the `br_table` here has at a number, or its last one.
    fn table_label(&self, number: u64) -> usize
        requires { (others : List ℕ) × (last : ℕ) × (r : Expr) × ((frame_of self.now).rest ≡ Plain (instr.BrTable others last) r) }
        ensures { (others : List ℕ) × (last : ℕ) × (r : Expr) × ((frame_of self.now).rest ≡ Plain (instr.BrTable others last) r) × (result ≡ table_label (slice_get others number) last) }
    {
        let Some(Op::Plain(Instr::BrTable(others, last))) = self.code.op_at(self.at) else {
            unreachable!()
        };
        match others.as_slice().get(number as usize) {
            None => *last as usize,
            Some(label) => *label as usize,
        }
    }
}
