//! Operations and types once more. Each copy fails for want of memory alone.

ghost use Rattle.std.specs.Prelude.{◌≡◌, IfOk};

use std::alloc::{AllocError, Global};
use syntax_trees::module_types::FuncType;
use syntax_trees::{Body, Instr, Op, Seq};

/// A copy of a body.
pub(crate) fn copy_body(alloc: Global, body: &Body) -> Result<Body, AllocError>
    ensures { IfOk result (λ copy. copy ≡ body.now) }
{
    let code = copy_ops(alloc, body.ops())?;
    Ok(Body::from_code(code))
}

/// Copies of operations.
fn copy_ops(alloc: Global, ops: &[Op]) -> Result<Vec<Op>, AllocError>
    ensures { IfOk result (λ copies. copies.items ≡ ops.now) }
{
    let mut copies = Vec::with_capacity(alloc, ops.len())?;
    for op in ops {
        let copy = copy_op(alloc, op)?;
        copies.push(copy)?;
    }
    Ok(copies)
}

/// A copy of an operation.
fn copy_op(alloc: Global, op: &Op) -> Result<Op, AllocError>
    ensures { IfOk result (λ copy. copy ≡ op.now) }
{
    match op {
        Op::Plain(instr) => Ok(Op::Plain(copy_instr(alloc, instr)?)),
        Op::OpenBlock(block_type) => Ok(Op::OpenBlock(*block_type)),
        Op::OpenLoop(block_type) => Ok(Op::OpenLoop(*block_type)),
        Op::OpenIf(block_type) => Ok(Op::OpenIf(*block_type)),
        Op::Else => Ok(Op::Else),
        Op::End => Ok(Op::End),
    }
}

/// A copy of an instruction.
fn copy_instr(alloc: Global, instr: &Instr) -> Result<Instr, AllocError>
    ensures { IfOk result (λ copy. copy ≡ instr.now) }
{
    match instr {
        Instr::Unreachable => Ok(Instr::Unreachable),
        Instr::Nop => Ok(Instr::Nop),
        Instr::Br(label) => Ok(Instr::Br(*label)),
        Instr::BrIf(label) => Ok(Instr::BrIf(*label)),
        Instr::BrTable(labels, default) => Ok(Instr::BrTable(copy_seq(alloc, labels)?, *default)),
        Instr::Return => Ok(Instr::Return),
        Instr::Call(func) => Ok(Instr::Call(*func)),
        Instr::CallIndirect(func_type, table) => Ok(Instr::CallIndirect(*func_type, *table)),
        Instr::Drop => Ok(Instr::Drop),
        Instr::Select => Ok(Instr::Select),
        Instr::SelectTyped(types) => Ok(Instr::SelectTyped(copy_seq(alloc, types)?)),
        Instr::LocalGet(local) => Ok(Instr::LocalGet(*local)),
        Instr::LocalSet(local) => Ok(Instr::LocalSet(*local)),
        Instr::LocalTee(local) => Ok(Instr::LocalTee(*local)),
        Instr::GlobalGet(global) => Ok(Instr::GlobalGet(*global)),
        Instr::GlobalSet(global) => Ok(Instr::GlobalSet(*global)),
        Instr::Load(op, mem_arg) => Ok(Instr::Load(*op, *mem_arg)),
        Instr::Store(op, mem_arg) => Ok(Instr::Store(*op, *mem_arg)),
        Instr::MemorySize => Ok(Instr::MemorySize),
        Instr::MemoryGrow => Ok(Instr::MemoryGrow),
        Instr::MemoryCopy => Ok(Instr::MemoryCopy),
        Instr::MemoryFill => Ok(Instr::MemoryFill),
        Instr::I32Const(number) => Ok(Instr::I32Const(*number)),
        Instr::I64Const(number) => Ok(Instr::I64Const(*number)),
        Instr::Numeric(op) => Ok(Instr::Numeric(*op)),
    }
}

/// Copies of function types. It fails for want of memory alone.
pub fn copy_types(alloc: Global, types: &[FuncType]) -> Result<Seq<FuncType>, AllocError>
    ensures { IfOk result (λ copies. copies ≡ types.now) }
{
    let mut copies = Vec::new(alloc);
    for func_type in types {
        copies.push(copy_type(alloc, func_type)?)?;
    }
    Ok(Seq::from_vec(copies))
}

/// A copy of a function type.
fn copy_type(alloc: Global, func_type: &FuncType) -> Result<FuncType, AllocError>
    ensures { IfOk result (λ copy. copy ≡ func_type.now) }
{
    let params = copy_seq(alloc, &func_type.params)?;
    let results = copy_seq(alloc, &func_type.results)?;
    Ok(FuncType { params, results })
}

/// A copy of a list.
fn copy_seq<T: Copy>(alloc: Global, items: &Seq<T>) -> Result<Seq<T>, AllocError>
    ensures { IfOk result (λ copy. copy ≡ items.now) }
{
    let copies = Vec::from_slice(alloc, items.as_slice())?;
    Ok(Seq::from_vec(copies))
}
