//! Why the rules don't get past an item of flat code, where they don't.

ghost use Rattle.std.specs.Prelude.{◌≡◌, length, [], cond};
ghost use Rattle.std.specs.List.{list_any};
ghost use Rattle.wasm_typing.specs.Checking.{why_of, labels_in, ends_in, second_in};
ghost use Rattle.wasm_typing.specs.Faults.{bad_index, bad_index_in, bad_label, bad_label_in, misaligned, need, need_in, no_label};
ghost use Rattle.wasm_typing.specs.Instrs.{numeric_type};
ghost use Rattle.wasm_valid.specs.State.{all_of};

use crate::checker::Checker;
use syntax_trees::{Instr, NumericOp, Op};
use wasm_typing::{BlockKind, Context, ValidWhy};

/// Whether an instruction names something that is not there.
fn has_bad_index(context: &Context, instr: &Instr) -> bool
    ensures { result ≡ bad_index_in context.now instr.now }
{
    match instr {
        Instr::Call(index) => context.func_type(*index).is_none(),
        Instr::CallIndirect(index, table) => {
            context.type_at(*index).is_none() || context.tables <= *table as usize
        }
        Instr::LocalGet(index) | Instr::LocalSet(index) | Instr::LocalTee(index) => {
            context.local(*index).is_none()
        }
        Instr::GlobalGet(index) | Instr::GlobalSet(index) => context.global(*index).is_none(),
        Instr::Load(_, _)
        | Instr::Store(_, _)
        | Instr::MemorySize
        | Instr::MemoryGrow
        | Instr::MemoryCopy
        | Instr::MemoryFill => !context.has_memory(),
        _ => false,
    }
}

/// Whether an item names something that is not there.
fn names_nothing(context: &Context, op: &Op) -> bool
    ensures { result ≡ bad_index context.now op.now }
{
    match op {
        Op::Plain(instr) => has_bad_index(context, instr),
        Op::OpenBlock(block_type) | Op::OpenLoop(block_type) | Op::OpenIf(block_type) => {
            context.has_no_type(*block_type)
        }
        Op::Else | Op::End => false,
    }
}

/// Whether an alignment of an item is above that of what it reads or writes.
fn is_misaligned(op: &Op) -> bool
    ensures { result ≡ misaligned op.now }
{
    match op {
        Op::Plain(Instr::Load(op, arg)) => op.width() < arg.align,
        Op::Plain(Instr::Store(op, arg)) => op.width() < arg.align,
        _ => false,
    }
}

/// How many parameters a numeric instruction has.
fn numeric_count(op: NumericOp) -> usize
    ensures { result ≡ length (numeric_type op).params }
{
    match op {
        NumericOp::Relation(_, _) | NumericOp::Binary(_, _) => 2,
        _ => 1,
    }
}

/// So many, where something is there.
fn where_there(there: bool, count: usize) -> usize
    ensures { result ≡ cond there count 0 }
{
    if there { count } else { 0 }
}

impl Checker {
    /// Whether a label is not there.
    fn has_no_label(&self, context: &Context, label: u32) -> bool
        ensures { result ≡ no_label (labels_in context.now (all_of self.now)) label }
    {
        self.label(context, label).is_none()
    }

    /// Whether one of some labels is not there.
    fn has_none_of(&self, context: &Context, labels: &[u32]) -> bool
        ensures { result ≡ list_any (no_label (labels_in context.now (all_of self.now))) labels.now }
    {
        for label in labels {
            if self.has_no_label(context, *label) {
                return true;
            }
        }
        false
    }

    /// Whether an item has a label that is not there.
    fn has_bad_label(&self, context: &Context, op: &Op) -> bool
        ensures { result ≡ bad_label (labels_in context.now (all_of self.now)) op.now }
    {
        match op {
            Op::Plain(Instr::Br(label)) | Op::Plain(Instr::BrIf(label)) => {
                self.has_no_label(context, *label)
            }
            Op::Plain(Instr::BrTable(others, label)) => {
                self.has_none_of(context, others.as_slice()) || self.has_no_label(context, *label)
            }
            _ => false,
        }
    }

    /// How many operands an instruction wants.
    fn wanted_by(&self, context: &Context, instr: &Instr) -> usize
        ensures { result ≡ need_in context.now (labels_in context.now (all_of self.now)) instr.now }
    {
        match instr {
            Instr::Br(label) => match self.label(context, *label) {
                None => 0,
                Some(types) => types.len(),
            },
            Instr::BrIf(label) => match self.label(context, *label) {
                None => 0,
                Some(types) => types.len() + 1,
            },
            Instr::BrTable(_, label) => match self.label(context, *label) {
                None => 1,
                Some(types) => types.len() + 1,
            },
            Instr::Return => context.results.len(),
            Instr::Drop => 1,
            Instr::Select => 3,
            Instr::SelectTyped(types) => where_there(types.len() == 1, 3),
            Instr::Call(index) => match context.func_type(*index) {
                None => 0,
                Some(func_type) => func_type.params.len(),
            },
            Instr::CallIndirect(index, table) => match context.type_at(*index) {
                None => 0,
                Some(func_type) => where_there(
                    (*table as usize) < context.tables,
                    func_type.params.as_slice().len() + 1,
                ),
            },
            Instr::LocalSet(index) | Instr::LocalTee(index) => {
                where_there(context.local(*index).is_some(), 1)
            }
            Instr::GlobalSet(index) => where_there(context.global(*index).is_some(), 1),
            Instr::Load(_, _) | Instr::MemoryGrow => where_there(context.has_memory(), 1),
            Instr::Store(_, _) => where_there(context.has_memory(), 2),
            Instr::MemoryCopy | Instr::MemoryFill => where_there(context.has_memory(), 3),
            Instr::Numeric(op) => numeric_count(*op),
            _ => 0,
        }
    }

    /// How many operands an item wants.
    fn wanted(&self, context: &Context, op: &Op) -> usize
        ensures { result ≡ need context.now (labels_in context.now (all_of self.now)) (ends_in context.now (all_of self.now)) op.now }
    {
        match op {
            Op::Plain(instr) => self.wanted_by(context, instr),
            Op::OpenBlock(block_type) | Op::OpenLoop(block_type) => {
                context.params(*block_type).len()
            }
            Op::OpenIf(block_type) => context.params(*block_type).len() + 1,
            Op::Else | Op::End => context.results(self.block_type()).len(),
        }
    }

    /// Whether an `if` without `else` ends here whose empty second part has too few operands: its parameters alone.
    fn ends_short(&self, context: &Context, op: &Op) -> bool
        ensures { result ≡ second_in context.now op.now (all_of self.now) }
    {
        let Op::End = op else {
            return false;
        };
        let BlockKind::If = self.kind() else {
            return false;
        };
        let block_type = self.block_type();
        context.params(block_type).len() < context.results(block_type).len()
    }

    /// Why the rules don't get past an item, where they don't.
    pub fn why(&self, context: &Context, op: &Op) -> ValidWhy
        ensures { result ≡ why_of context.now op.now (all_of self.now) }
    {
        if names_nothing(context, op) {
            return ValidWhy::Index;
        }
        if self.has_bad_label(context, op) {
            return ValidWhy::Label;
        }
        if is_misaligned(op) {
            return ValidWhy::Align;
        }
        if self.is_short(self.wanted(context, op)) || self.ends_short(context, op) {
            return ValidWhy::Stack;
        }
        ValidWhy::Typing
    }
}

/// Whether an item has a label, of which there is none behind the end of a body.
fn has_label(op: &Op) -> bool
    ensures { result ≡ bad_label [] op.now }
{
    match op {
        Op::Plain(Instr::Br(_)) | Op::Plain(Instr::BrIf(_)) | Op::Plain(Instr::BrTable(_, _)) => {
            true
        }
        _ => false,
    }
}

/// Why the rules don't get past an item behind the end of a body.
pub(crate) fn why_behind(context: &Context, op: &Op) -> ValidWhy
    ensures { result ≡ why_of context.now op.now [] }
{
    if names_nothing(context, op) {
        return ValidWhy::Index;
    }
    if has_label(op) {
        return ValidWhy::Label;
    }
    if is_misaligned(op) {
        return ValidWhy::Align;
    }
    ValidWhy::Typing
}
