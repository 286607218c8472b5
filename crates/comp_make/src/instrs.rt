//! Instructions in bytes (Core 2.0, section 5.4).

ghost use Rattle.std.specs.Prelude.{◌≡◌, ◌++◌, OnOk};
ghost use Rattle.comp_make.specs.Numbers.{unsigned_bytes};
ghost use Rattle.comp_make.specs.Lists.{vec_bytes};
ghost use Rattle.comp_make.specs.Instrs.{memarg_bytes, immediates, instr_bytes, block_type_bytes, const_expr_bytes};

use crate::lists::push_vec;
use crate::numbers::{Indices, push_signed, push_unsigned};
use crate::opcodes::opcode;
use crate::types::{ValTypes, val_type_byte};
use faults::Memory;
use std::alloc::Global;
use syntax_trees::{BlockType, ConstInstr, Instr, MemArg, Op};
use value_texts::{Text, push_all};

/// Appends what a load or a store says of its address.
fn push_memarg(arg: MemArg, to: &mut Vec<u8>) -> Result<(), Memory>
    ensures { OnOk result (to.new.items ≡ to.old.items ++ memarg_bytes arg) }
{
    push_unsigned(u64::from(arg.align), to)?;
    push_unsigned(u64::from(arg.offset), to)
}

/// Appends two indices.
fn push_pair(first: u32, second: u32, to: &mut Vec<u8>) -> Result<(), Memory>
    ensures { OnOk result (to.new.items ≡ to.old.items ++ (unsigned_bytes first ++ unsigned_bytes second)) }
{
    push_unsigned(u64::from(first), to)?;
    push_unsigned(u64::from(second), to)
}

/// Appends the labels of a branch by a table, and the one behind them.
fn push_labels(alloc: Global, labels: &[u32], last: u32, to: &mut Vec<u8>) -> Result<(), Memory>
    ensures { OnOk result (to.new.items ≡ to.old.items ++ (vec_bytes unsigned_bytes labels.now ++ unsigned_bytes last)) }
{
    push_vec::<Indices>(alloc, labels, to)?;
    push_unsigned(u64::from(last), to)
}

/// Appends bytes as they are.
fn push_bytes(bytes: &[u8], to: &mut Vec<u8>) -> Result<(), Memory>
    ensures { OnOk result (to.new.items ≡ to.old.items ++ bytes.now) }
{
    to.extend_from_slice(bytes)?;
    Ok(())
}

/// Appends what stands behind the first byte of an instruction.
#[tactic(auto, unfolding(crate::specs::Instrs::immediates))]
fn push_immediates(alloc: Global, instr: &Instr, to: &mut Vec<u8>) -> Result<(), Memory>
    ensures { OnOk result (to.new.items ≡ to.old.items ++ immediates instr.now) }
{
    match instr {
        Instr::Br(index)
        | Instr::BrIf(index)
        | Instr::Call(index)
        | Instr::LocalGet(index)
        | Instr::LocalSet(index)
        | Instr::LocalTee(index)
        | Instr::GlobalGet(index)
        | Instr::GlobalSet(index) => push_unsigned(u64::from(*index), to),
        Instr::BrTable(labels, last) => push_labels(alloc, labels.as_slice(), *last, to),
        Instr::CallIndirect(type_index, table) => push_pair(*type_index, *table, to),
        Instr::SelectTyped(types) => push_vec::<ValTypes>(alloc, types.as_slice(), to),
        Instr::Load(_, arg) | Instr::Store(_, arg) => push_memarg(*arg, to),
        Instr::MemorySize | Instr::MemoryGrow => push_bytes(&[0x00], to),
        Instr::MemoryCopy => push_bytes(&[0x0A, 0x00, 0x00], to),
        Instr::MemoryFill => push_bytes(&[0x0B, 0x00], to),
        Instr::I32Const(value) => push_signed(i64::from(*value), to),
        Instr::I64Const(value) => push_signed(*value, to),
        Instr::Unreachable
        | Instr::Nop
        | Instr::Return
        | Instr::Drop
        | Instr::Select
        | Instr::Numeric(_) => Ok(()),
    }
}

/// Appends an instruction that holds no others.
fn push_instr(alloc: Global, instr: &Instr, to: &mut Vec<u8>) -> Result<(), Memory>
    ensures { OnOk result (to.new.items ≡ to.old.items ++ instr_bytes instr.now) }
{
    to.push(opcode(instr))?;
    push_immediates(alloc, instr, to)
}

/// Appends the type of a block.
fn push_block_type(block_type: BlockType, to: &mut Vec<u8>) -> Result<(), Memory>
    ensures { OnOk result (to.new.items ≡ to.old.items ++ block_type_bytes block_type) }
{
    match block_type {
        BlockType::Empty => push_bytes(&[0x40], to),
        BlockType::Value(val_type) => push_bytes(&[val_type_byte(val_type)], to),
        BlockType::TypeIndex(index) => push_signed(i64::from(index), to),
    }
}

/// What stands in flat code.
pub(crate) struct Ops;

impl Text for Ops {
    ghost use Rattle.comp_make.specs.Instrs.{op_bytes};

    type Item = Op;

    ghost text = { op_bytes };

    fn push(alloc: Global, item: &Op, to: &mut Vec<u8>) -> Result<(), Memory> {
        match item {
            Op::Plain(instr) => push_instr(alloc, instr, to),
            Op::OpenBlock(block_type) => {
                to.push(0x02)?;
                push_block_type(*block_type, to)
            }
            Op::OpenLoop(block_type) => {
                to.push(0x03)?;
                push_block_type(*block_type, to)
            }
            Op::OpenIf(block_type) => {
                to.push(0x04)?;
                push_block_type(*block_type, to)
            }
            Op::Else => push_bytes(&[0x05], to),
            Op::End => push_bytes(&[0x0B], to),
        }
    }
}

/// Instructions of constant expressions.
struct ConstInstrs;

impl Text for ConstInstrs {
    ghost use Rattle.comp_make.specs.Instrs.{const_instr_bytes};

    type Item = ConstInstr;

    ghost text = { const_instr_bytes };

    fn push(_alloc: Global, item: &ConstInstr, to: &mut Vec<u8>) -> Result<(), Memory> {
        match item {
            ConstInstr::I32Const(value) => {
                to.push(0x41)?;
                push_signed(i64::from(*value), to)
            }
            ConstInstr::I64Const(value) => {
                to.push(0x42)?;
                push_signed(*value, to)
            }
            ConstInstr::GlobalGet(index) => {
                to.push(0x23)?;
                push_unsigned(u64::from(*index), to)
            }
        }
    }
}

/// Appends a constant expression, with its end.
pub(crate) fn push_const_expr(
    alloc: Global,
    instrs: &[ConstInstr],
    to: &mut Vec<u8>,
) -> Result<(), Memory>
    ensures { OnOk result (to.new.items ≡ to.old.items ++ const_expr_bytes instrs.now) }
{
    push_all::<ConstInstrs>(alloc, instrs, to)?;
    to.push(0x0B)?;
    Ok(())
}
