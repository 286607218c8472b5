//! What instructions make of the operands (Core 2.0, sections 3.3.1 to 3.3.8).

ghost use Rattle.std.specs.Prelude.{◌≡◌, ◌∷◌, [], IfOk, Some};
ghost use Rattle.std.specs.List.{slice_get};
ghost use Rattle.std.specs.Option.{option_map};
ghost use Rattle.wasm_typing.specs.Context.{arrow};
ghost use Rattle.wasm_typing.specs.Instrs.{numeric_type, instr_type, select_type, unless, where_there, has_memory, func_type};
ghost use Rattle.wasm_typing.specs.Checking.{branched, tabled, taken, selected, joined, turned, learn, labels_in, may_go, may_go_all};
ghost use Rattle.wasm_valid.specs.State.{Turned, all_of, access_type};

use crate::checker::Checker;
use std::alloc::AllocError;
use syntax_trees::module_types::ValType;
use syntax_trees::{Instr, Mutability, NumericOp};
use wasm_typing::Context;

/// What an instruction does with a local.
#[derive(Clone, Copy)]
pub(crate) enum Access {
    /// It reads it.
    Get,
    /// It sets it.
    Set,
    /// It sets it and leaves the value.
    Tee,
}

/// What `select` gives of two operands, where there is something: `None` in it where both may have any type.
fn join(first: Option<ValType>, second: Option<ValType>) -> Option<Option<ValType>>
    ensures { result ≡ joined first second }
{
    match first {
        None => Some(second),
        Some(found) => match second {
            None => Some(first),
            Some(other) => {
                if !found.is_same(other) {
                    return None;
                }
                Some(Some(found))
            }
        },
    }
}

impl Checker {
    /// A branch to a label.
    fn branch(&mut self, context: &Context, label: u32) -> bool
        ensures { Turned (branched (slice_get (labels_in context.now (all_of self.old)) label) (Some self.old.0.known)) result self.old self.new }
    {
        let Some(types) = self.label(context, label) else {
            return false;
        };
        self.leave_by(types)
    }

    /// A branch to a label under a condition.
    fn branch_if(&mut self, context: &Context, label: u32) -> Result<bool, AllocError>
        ensures { IfOk result (λ passed. Turned (turned (instr_type context.now (labels_in context.now (all_of self.old)) (Instr.BrIf label)) self.old.0.known) passed self.old self.new) }
    {
        let Some(types) = self.label(context, label) else {
            return Ok(false);
        };
        Ok(self.test_and_turn(types, types)?)
    }

    /// Whether the last operands may go to a label of so many types.
    fn may_go(&self, context: &Context, label: u32, count: usize) -> bool
        ensures { result ≡ may_go (slice_get (labels_in context.now (all_of self.now)) label) count self.now.0.known }
    {
        let Some(types) = self.label(context, label) else {
            return false;
        };
        if types.len() != count {
            return false;
        }
        self.accepts(types)
    }

    /// Whether they may go to each of these labels.
    fn may_go_all(&self, context: &Context, labels: &[u32], count: usize) -> bool
        ensures { result ≡ may_go_all (labels_in context.now (all_of self.now)) labels.now count self.now.0.known }
    {
        for label in labels {
            if !self.may_go(context, *label, count) {
                return false;
            }
        }
        true
    }

    /// A branch to one of some labels.
    fn branch_table(&mut self, context: &Context, others: &[u32], label: u32) -> bool
        ensures { Turned (tabled (labels_in context.now (all_of self.old)) others.now label (taken ValType.I32 self.old.0.known)) result self.old self.new }
    {
        if !self.take(ValType::I32) {
            return false;
        }
        let Some(types) = self.label(context, label) else {
            return false;
        };
        if !self.may_go_all(context, others, types.len()) {
            return false;
        }
        self.leave_by(types)
    }

    /// `select` without types.
    fn select(&mut self) -> Result<bool, AllocError>
        ensures { IfOk result (λ passed. Turned (selected (taken ValType.I32 self.old.0.known)) passed self.old self.new) }
    {
        if !self.take(ValType::I32) {
            return Ok(false);
        }
        let Some(first) = self.pop() else {
            return Ok(false);
        };
        let Some(second) = self.pop() else {
            return Ok(false);
        };
        let Some(operand) = join(first, second) else {
            return Ok(false);
        };
        self.push(operand)?;
        Ok(true)
    }

    /// `select` with types.
    fn select_typed(&mut self, types: &[ValType]) -> Result<bool, AllocError>
        ensures { IfOk result (λ passed. Turned (turned (select_type types.now) self.old.0.known) passed self.old self.new) }
    {
        match types {
            [val_type] => Ok(self.turn(&[*val_type, *val_type, ValType::I32], &[*val_type])?),
            _ => Ok(false),
        }
    }

    /// A numeric instruction.
    fn numeric(&mut self, op: NumericOp) -> Result<bool, AllocError>
        ensures { IfOk result (λ passed. Turned (turned (Some (numeric_type op)) self.old.0.known) passed self.old self.new) }
    {
        match op {
            NumericOp::Eqz(width) => self.turn(&[width.val_type()], &[ValType::I32]),
            NumericOp::Relation(width, _) => {
                self.turn(&[width.val_type(), width.val_type()], &[ValType::I32])
            }
            NumericOp::Unary(width, _) => self.turn(&[width.val_type()], &[width.val_type()]),
            NumericOp::Binary(width, _) => {
                self.turn(&[width.val_type(), width.val_type()], &[width.val_type()])
            }
            NumericOp::WrapI64 => self.turn(&[ValType::I64], &[ValType::I32]),
            NumericOp::ExtendI32S => self.turn(&[ValType::I32], &[ValType::I64]),
            NumericOp::ExtendI32U => self.turn(&[ValType::I32], &[ValType::I64]),
            NumericOp::I64Extend32S => self.turn(&[ValType::I64], &[ValType::I64]),
        }
    }

    /// An instruction of these types on the memory, by whether its alignment is too large.
    fn on_memory(
        &mut self,
        context: &Context,
        misaligned: bool,
        params: &[ValType],
        results: &[ValType],
    ) -> Result<bool, AllocError>
        ensures { IfOk result (λ passed. Turned (turned (unless misaligned (where_there (has_memory context.now) (arrow params.now results.now))) self.old.0.known) passed self.old self.new) }
    {
        if misaligned {
            return Ok(false);
        }
        if !context.has_memory() {
            return Ok(false);
        }
        Ok(self.turn(params, results)?)
    }

    /// A call of a function.
    fn call(&mut self, context: &Context, index: u32) -> Result<bool, AllocError>
        ensures { IfOk result (λ passed. Turned (turned (func_type context.now index) self.old.0.known) passed self.old self.new) }
    {
        let Some(func_type) = context.func_type(index) else {
            return Ok(false);
        };
        Ok(self.turn(func_type.params.as_slice(), func_type.results.as_slice())?)
    }

    /// A call through a table.
    fn call_indirect(
        &mut self,
        context: &Context,
        index: u32,
        table: u32,
    ) -> Result<bool, AllocError>
        ensures { IfOk result (λ passed. Turned (turned (instr_type context.now (labels_in context.now (all_of self.old)) (Instr.CallIndirect index table)) self.old.0.known) passed self.old self.new) }
    {
        let Some(func_type) = context.type_at(index) else {
            return Ok(false);
        };
        if context.tables <= table as usize {
            return Ok(false);
        }
        Ok(self.test_and_turn(func_type.params.as_slice(), func_type.results.as_slice())?)
    }

    /// An instruction on a local of a type, where it is there.
    fn on_local(&mut self, found: Option<ValType>, access: Access) -> Result<bool, AllocError>
        ensures { IfOk result (λ passed. Turned (turned (option_map (access_type access) found) self.old.0.known) passed self.old self.new) }
    {
        let Some(val_type) = found else {
            return Ok(false);
        };
        match access {
            Access::Get => self.turn(&[], &[val_type]),
            Access::Set => self.turn(&[val_type], &[]),
            Access::Tee => self.turn(&[val_type], &[val_type]),
        }
    }

    /// `global.get`.
    fn global_get(&mut self, context: &Context, index: u32) -> Result<bool, AllocError>
        ensures { IfOk result (λ passed. Turned (turned (instr_type context.now (labels_in context.now (all_of self.old)) (Instr.GlobalGet index)) self.old.0.known) passed self.old self.new) }
    {
        let Some(global) = context.global(index) else {
            return Ok(false);
        };
        Ok(self.turn(&[], &[global.val_type])?)
    }

    /// `global.set`.
    fn global_set(&mut self, context: &Context, index: u32) -> Result<bool, AllocError>
        ensures { IfOk result (λ passed. Turned (turned (instr_type context.now (labels_in context.now (all_of self.old)) (Instr.GlobalSet index)) self.old.0.known) passed self.old self.new) }
    {
        let Some(global) = context.global(index) else {
            return Ok(false);
        };
        match global.mutability {
            Mutability::Constant => Ok(false),
            Mutability::Variable => Ok(self.turn(&[global.val_type], &[])?),
        }
    }

    /// What an instruction makes of the operands.
    pub fn apply(&mut self, context: &Context, instr: &Instr) -> Result<bool, AllocError>
        ensures { IfOk result (λ passed. Turned (learn context.now (labels_in context.now (all_of self.old)) instr.now self.old.0.known) passed self.old self.new) }
    {
        match instr {
            Instr::Unreachable => {
                self.forget();
                Ok(true)
            }
            Instr::Nop => self.turn(&[], &[]),
            Instr::Br(label) => Ok(self.branch(context, *label)),
            Instr::BrIf(label) => self.branch_if(context, *label),
            Instr::BrTable(others, label) => {
                Ok(self.branch_table(context, others.as_slice(), *label))
            }
            Instr::Return => Ok(self.leave_by(context.results)),
            Instr::Call(index) => self.call(context, *index),
            Instr::CallIndirect(index, table) => self.call_indirect(context, *index, *table),
            Instr::Drop => Ok(self.pop().is_some()),
            Instr::Select => self.select(),
            Instr::SelectTyped(types) => self.select_typed(types.as_slice()),
            Instr::LocalGet(index) => self.on_local(context.local(*index), Access::Get),
            Instr::LocalSet(index) => self.on_local(context.local(*index), Access::Set),
            Instr::LocalTee(index) => self.on_local(context.local(*index), Access::Tee),
            Instr::GlobalGet(index) => self.global_get(context, *index),
            Instr::GlobalSet(index) => self.global_set(context, *index),
            Instr::Load(op, arg) => self.on_memory(
                context,
                op.width() < arg.align,
                &[ValType::I32],
                &[op.val_type()],
            ),
            Instr::Store(op, arg) => self.on_memory(
                context,
                op.width() < arg.align,
                &[ValType::I32, op.val_type()],
                &[],
            ),
            Instr::MemorySize => self.on_memory(context, false, &[], &[ValType::I32]),
            Instr::MemoryGrow => self.on_memory(context, false, &[ValType::I32], &[ValType::I32]),
            Instr::MemoryCopy => self.on_memory(
                context,
                false,
                &[ValType::I32, ValType::I32, ValType::I32],
                &[],
            ),
            Instr::MemoryFill => self.on_memory(
                context,
                false,
                &[ValType::I32, ValType::I32, ValType::I32],
                &[],
            ),
            Instr::I32Const(_) => self.turn(&[], &[ValType::I32]),
            Instr::I64Const(_) => self.turn(&[], &[ValType::I64]),
            Instr::Numeric(op) => self.numeric(*op),
        }
    }
}
