//! The reader of constant expressions (Core 2.0, section 3.3.10).

ghost use Rattle.ca_base.specs.Grammar.{Reads, MayRead};
ghost use Rattle.wasm_code_reader.specs.Consts.{const_prefixed, const_instr, const_expr};

use crate::fault::{ModuleWhy, refused_byte};
use crate::opcodes::is_float;
use ca_base::{ReadError, Refusal, Window};
use std::alloc::Global;
use syntax_trees::{ConstInstr, Seq};

/// The opcode that ends an expression.
const END: u8 = 0x0B;

/// A constant expression without its end, and the place of each instruction and of the end.
#[derive(Drop)]
pub struct PlacedConst {
    /// The instructions.
    pub instrs: Seq<ConstInstr>,
    /// The first byte of each instruction, and at last that of the end.
    pub places: Seq<usize>,
}

/// Reads what stands behind the byte FC, of which no instruction is constant.
#[tactic(auto, unfolding(crate::specs::Consts::const_prefixed))]
fn read_const_prefixed(window: &mut Window<ModuleWhy>) -> Result<ConstInstr, Refusal<ModuleWhy>>
    ensures { Reads (λ i. i) const_prefixed window.old window.new result }
{
    let place = window.at();
    let first = window.next().unwrap_or(0);
    let number = window.u32()?;
    Err(refused_byte(number <= 7, place, first))
}

/// Reads the constant instruction of an opcode that stood at a place.
#[tactic(auto, unfolding(crate::specs::Consts::const_instr))]
fn read_const_instr(
    place: usize,
    opcode: u8,
    window: &mut Window<ModuleWhy>,
) -> Result<ConstInstr, Refusal<ModuleWhy>>
    ensures { Reads (λ i. i) (const_instr place opcode) window.old window.new result }
{
    match opcode {
        0x23 => Ok(ConstInstr::GlobalGet(window.u32()?)),
        0x41 => Ok(ConstInstr::I32Const(window.s32()?)),
        0x42 => Ok(ConstInstr::I64Const(window.s64()?)),
        0xFC => read_const_prefixed(window),
        _ => Err(refused_byte(is_float(opcode), place, opcode)),
    }
}

/// Reads constant instructions up to an end, with no more bytes than are left.
#[tactic(auto, unfolding(crate::specs::Consts::const_expr), using(crate::proofs::ConstExprs::none_before, crate::proofs::ConstExprs::consts_go, crate::proofs::ConstExprs::consts_end, crate::proofs::ConstExprs::consts_refused, crate::proofs::ConstExprs::consts_short, crate::proofs::ConstExprs::consts_long))]
pub fn read_const_expr(
    alloc: Global,
    window: &mut Window<ModuleWhy>,
) -> Result<PlacedConst, ReadError<ModuleWhy>>
    ensures { MayRead (λ read. read) const_expr window.old window.new result }
{
    let mut instrs = Seq::new(alloc);
    let mut places = Seq::new(alloc);
    let count = window.left();
    for _index in 0..count {
        let place = window.at();
        let opcode = window.byte()?;
        if opcode == END {
            places.push(place)?;
            return Ok(PlacedConst { instrs, places });
        }
        let instr = read_const_instr(place, opcode, window)?;
        instrs.push(instr)?;
        places.push(place)?;
    }
    let place = window.at();
    let byte = window.byte()?;
    Err(ReadError::Fault(Refusal {
        place,
        why: ModuleWhy::Unsupported(byte),
    }))
}
