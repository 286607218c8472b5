//! The readers of instructions that hold no others, and of the types of those that do (Core 2.0, section 5.4).

ghost use Rattle.std.specs.Prelude.{◌≡◌};
ghost use Rattle.ca_base.specs.Grammar.{Reads, MayRead};
ghost use Rattle.wasm_code_reader.specs.Instrs.{is_index, block_type, memarg, br_table, call_indirect, memory_copy, memory_fill, prefixed, numeric_instr, memory_instr, variable_instr, instr};

use crate::fault::{ModuleWhy, refused_byte};
use crate::opcodes::{is_float, load, numeric, store};
use crate::type_kinds::ValTypes;
use ca_base::{Kind, ReadError, Refusal, Window, read_vec};
use std::alloc::Global;
use syntax_trees::module_types::ValType;
use syntax_trees::{BlockType, Instr, MemArg};

/// Indices.
pub struct Indices;

impl Kind for Indices {
    ghost use Rattle.ca_base.specs.Items.{u32 as number};
    ghost use Rattle.wasm_code_reader.specs.Reasons.{numbers};

    type Why = ModuleWhy;

    type Item = u32;

    ghost grammar = { number numbers };

    fn read(_alloc: Global, window: &mut Window<ModuleWhy>) -> Result<u32, ReadError<ModuleWhy>> {
        let read = window.u32()?;
        Ok(read)
    }
}

/// Whether a number is an index.
fn is_index(number: i64) -> bool
    ensures { result ≡ is_index number }
{
    0 <= number && number < 1 << 32
}

/// Reads the type of a block (Core 2.0, section 5.4.1).
#[tactic(auto, unfolding(crate::specs::Instrs::block_type))]
pub(crate) fn read_block_type(
    window: &mut Window<ModuleWhy>,
) -> Result<BlockType, Refusal<ModuleWhy>>
    ensures { Reads (λ i. i) block_type window.old window.new result }
{
    let place = window.at();
    let first = window.next().unwrap_or(0);
    let number = window.s33()?;
    if is_index(number) {
        return Ok(BlockType::TypeIndex(number as u32));
    }
    match first {
        0x40 => Ok(BlockType::Empty),
        0x7F => Ok(BlockType::Value(ValType::I32)),
        0x7E => Ok(BlockType::Value(ValType::I64)),
        _ => {
            let of_floats = first == 0x7D || first == 0x7C;
            Err(refused_byte(of_floats, place, first))
        }
    }
}

/// Reads the alignment and the offset of a memory access (Core 2.0, section 5.4.6).
#[tactic(auto, unfolding(crate::specs::Instrs::memarg))]
fn read_memarg(window: &mut Window<ModuleWhy>) -> Result<MemArg, Refusal<ModuleWhy>>
    ensures { Reads (λ i. i) memarg window.old window.new result }
{
    let align = window.u32()?;
    let offset = window.u32()?;
    Ok(MemArg { align, offset })
}

/// Reads the labels of a branch by a table (Core 2.0, section 5.4.1).
#[tactic(auto, unfolding(crate::specs::Instrs::br_table))]
fn read_br_table(
    alloc: Global,
    window: &mut Window<ModuleWhy>,
) -> Result<Instr, ReadError<ModuleWhy>>
    ensures { MayRead (λ i. i) br_table window.old window.new result }
{
    let labels = read_vec::<Indices>(alloc, window)?;
    let last = window.u32()?;
    Ok(Instr::BrTable(labels, last))
}

/// Reads the indices of an indirect call (Core 2.0, section 5.4.1).
#[tactic(auto, unfolding(crate::specs::Instrs::call_indirect))]
fn read_call_indirect(window: &mut Window<ModuleWhy>) -> Result<Instr, Refusal<ModuleWhy>>
    ensures { Reads (λ i. i) call_indirect window.old window.new result }
{
    let type_index = window.u32()?;
    let table = window.u32()?;
    Ok(Instr::CallIndirect(type_index, table))
}

/// Reads what stands behind the opcode of `memory.copy` (Core 2.0, section 5.4.6).
#[tactic(auto, unfolding(crate::specs::Instrs::memory_copy))]
fn read_memory_copy(window: &mut Window<ModuleWhy>) -> Result<Instr, Refusal<ModuleWhy>>
    ensures { Reads (λ i. i) memory_copy window.old window.new result }
{
    window.marker(0)?;
    window.marker(0)?;
    Ok(Instr::MemoryCopy)
}

/// Reads what stands behind the opcode of `memory.fill` (Core 2.0, section 5.4.6).
#[tactic(auto, unfolding(crate::specs::Instrs::memory_fill))]
fn read_memory_fill(window: &mut Window<ModuleWhy>) -> Result<Instr, Refusal<ModuleWhy>>
    ensures { Reads (λ i. i) memory_fill window.old window.new result }
{
    window.marker(0)?;
    Ok(Instr::MemoryFill)
}

/// Reads what stands behind the byte FC (Core 2.0, sections 5.4.6 and 5.4.7).
#[tactic(auto, unfolding(crate::specs::Instrs::prefixed))]
fn read_prefixed(window: &mut Window<ModuleWhy>) -> Result<Instr, Refusal<ModuleWhy>>
    ensures { Reads (λ i. i) prefixed window.old window.new result }
{
    let place = window.at();
    let first = window.next().unwrap_or(0);
    let number = window.u32()?;
    match number {
        10 => read_memory_copy(window),
        11 => read_memory_fill(window),
        _ => Err(refused_byte(number <= 7, place, first)),
    }
}

/// Reads a numeric instruction (Core 2.0, section 5.4.7).
#[tactic(auto, unfolding(crate::specs::Instrs::numeric_instr))]
fn read_numeric_instr(
    place: usize,
    opcode: u8,
    window: &mut Window<ModuleWhy>,
) -> Result<Instr, Refusal<ModuleWhy>>
    ensures { Reads (λ i. i) (numeric_instr place opcode) window.old window.new result }
{
    match opcode {
        0x41 => Ok(Instr::I32Const(window.s32()?)),
        0x42 => Ok(Instr::I64Const(window.s64()?)),
        _ => match numeric(opcode) {
            Some(op) => Ok(Instr::Numeric(op)),
            None => Err(refused_byte(is_float(opcode), place, opcode)),
        },
    }
}

/// Reads an instruction of memory (Core 2.0, section 5.4.6), or a numeric one.
#[tactic(auto, unfolding(crate::specs::Instrs::memory_instr))]
fn read_memory_instr(
    place: usize,
    opcode: u8,
    window: &mut Window<ModuleWhy>,
) -> Result<Instr, Refusal<ModuleWhy>>
    ensures { Reads (λ i. i) (memory_instr place opcode) window.old window.new result }
{
    if let Some(op) = load(opcode) {
        return Ok(Instr::Load(op, read_memarg(window)?));
    }
    if let Some(op) = store(opcode) {
        return Ok(Instr::Store(op, read_memarg(window)?));
    }
    match opcode {
        0x3F => {
            window.marker(0)?;
            Ok(Instr::MemorySize)
        }
        0x40 => {
            window.marker(0)?;
            Ok(Instr::MemoryGrow)
        }
        0xFC => read_prefixed(window),
        _ => read_numeric_instr(place, opcode, window),
    }
}

/// Reads an instruction of variables (Core 2.0, section 5.4.4), of memory, or a numeric one.
#[tactic(auto, unfolding(crate::specs::Instrs::variable_instr))]
fn read_variable_instr(
    place: usize,
    opcode: u8,
    window: &mut Window<ModuleWhy>,
) -> Result<Instr, Refusal<ModuleWhy>>
    ensures { Reads (λ i. i) (variable_instr place opcode) window.old window.new result }
{
    match opcode {
        0x20 => Ok(Instr::LocalGet(window.u32()?)),
        0x21 => Ok(Instr::LocalSet(window.u32()?)),
        0x22 => Ok(Instr::LocalTee(window.u32()?)),
        0x23 => Ok(Instr::GlobalGet(window.u32()?)),
        0x24 => Ok(Instr::GlobalSet(window.u32()?)),
        _ => read_memory_instr(place, opcode, window),
    }
}

/// Reads the instruction of an opcode that stood at a place (Core 2.0, section 5.4), one that holds no others.
#[tactic(auto, unfolding(crate::specs::Instrs::instr))]
pub(crate) fn read_instr(
    alloc: Global,
    place: usize,
    opcode: u8,
    window: &mut Window<ModuleWhy>,
) -> Result<Instr, ReadError<ModuleWhy>>
    ensures { MayRead (λ i. i) (instr place opcode) window.old window.new result }
{
    match opcode {
        0x00 => Ok(Instr::Unreachable),
        0x01 => Ok(Instr::Nop),
        0x0C => Ok(Instr::Br(window.u32()?)),
        0x0D => Ok(Instr::BrIf(window.u32()?)),
        0x0E => read_br_table(alloc, window),
        0x0F => Ok(Instr::Return),
        0x10 => Ok(Instr::Call(window.u32()?)),
        0x11 => Ok(read_call_indirect(window)?),
        0x1A => Ok(Instr::Drop),
        0x1B => Ok(Instr::Select),
        0x1C => Ok(Instr::SelectTyped(read_vec::<ValTypes>(alloc, window)?)),
        _ => Ok(read_variable_instr(place, opcode, window)?),
    }
}
