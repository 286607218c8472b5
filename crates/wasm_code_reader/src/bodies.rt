//! The readers of the locals and of the body of a function (Core 2.0, sections 5.4.9 and 5.5.13).

ghost use Rattle.ca_base.specs.Grammar.{MayRead};
ghost use Rattle.wasm_code_reader.specs.Bodies.{locals, all_locals, body};

use crate::fault::ModuleWhy;
use crate::instrs::{read_block_type, read_instr};
use crate::parts::{Part, is_else, leave};
use crate::type_kinds::ValTypes;
use ca_base::{Kind, ReadError, Refusal, Window};
use std::alloc::Global;
use syntax_trees::{Body, DeclaredLocals, Locals, Op, Seq};

/// The opcode that ends an expression.
const END: u8 = 0x0B;

/// The opcode that begins a block.
const BLOCK: u8 = 0x02;

/// The opcode that begins a loop.
const LOOP: u8 = 0x03;

/// The opcode that begins an `if`.
const IF: u8 = 0x04;

/// How many locals a function may declare.
const LOCALS_LIMIT: u64 = 50_000;

/// A body, and the place of each of its operations.
#[derive(Drop)]
pub struct PlacedBody {
    /// The body.
    pub body: Body,
    /// The first byte of each operation, `else` and `end` among them, the body's own `end` last.
    pub ops: Seq<usize>,
}

/// Reads the groups of locals of a function.
#[tactic(auto, unfolding(crate::specs::Bodies::all_locals))]
pub fn read_all_locals(
    alloc: Global,
    window: &mut Window<ModuleWhy>,
) -> Result<DeclaredLocals, ReadError<ModuleWhy>>
    ensures { MayRead (λ groups. groups) all_locals window.old window.new result }
{
    let count = window.u32()?;
    let groups = read_locals(alloc, count, window)?;
    Ok(groups)
}

/// Reads so many groups of locals. A number with which there are too many locals is refused.
#[tactic(auto, using(crate::proofs::Groups::locals_none, crate::proofs::Groups::locals_go, crate::proofs::Groups::locals_past, crate::proofs::Groups::locals_uncounted, crate::proofs::Groups::locals_untyped, crate::proofs::Groups::one_counted))]
fn read_locals(
    alloc: Global,
    groups: u32,
    window: &mut Window<ModuleWhy>,
) -> Result<DeclaredLocals, ReadError<ModuleWhy>>
    ensures { MayRead (λ read. read) (locals groups 0) window.old window.new result }
{
    let mut read = Seq::new(alloc);
    let mut before: u64 = 0;
    for _index in 0..groups {
        let place = window.at();
        let count = window.u32()?;
        let total = before + u64::from(count);
        if LOCALS_LIMIT < total {
            return Err(ReadError::Fault(Refusal {
                place,
                why: ModuleWhy::Limit,
            }));
        }
        let val_type = ValTypes::read(alloc, window)?;
        before = total;
        read.push(Locals { count, val_type })?;
    }
    Ok(DeclaredLocals::of(read))
}

/// Reads operations up to the end of the whole, with no more bytes than are left.
pub fn read_body(
    alloc: Global,
    window: &mut Window<ModuleWhy>,
) -> Result<PlacedBody, ReadError<ModuleWhy>>
    ensures { MayRead (λ read. read) body window.old window.new result }
{
    let mut code = Vec::new(alloc);
    let mut places = Vec::new(alloc);
    let mut part = Part::Other;
    let mut around = Vec::new(alloc);
    let count = window.left();
    for _index in 0..count {
        let place = window.at();
        let opcode = window.byte()?;
        places.push(place)?;
        if opcode == END {
            code.push(Op::End)?;
            match leave(&mut around) {
                None => {
                    return Ok(PlacedBody {
                        body: Body::from_code(code),
                        ops: Seq::from_vec(places),
                    });
                }
                Some(outer) => part = outer,
            }
            continue;
        }
        if is_else(part, opcode) {
            code.push(Op::Else)?;
            part = Part::Other;
            continue;
        }
        if opcode == BLOCK {
            let block_type = read_block_type(window)?;
            code.push(Op::OpenBlock(block_type))?;
            around.push(part)?;
            part = Part::Other;
            continue;
        }
        if opcode == LOOP {
            let block_type = read_block_type(window)?;
            code.push(Op::OpenLoop(block_type))?;
            around.push(part)?;
            part = Part::Other;
            continue;
        }
        if opcode == IF {
            let block_type = read_block_type(window)?;
            code.push(Op::OpenIf(block_type))?;
            around.push(part)?;
            part = Part::First;
            continue;
        }
        let instr = read_instr(alloc, place, opcode, window)?;
        code.push(Op::Plain(instr))?;
    }
    let place = window.at();
    let byte = window.byte()?;
    Err(ReadError::Fault(Refusal {
        place,
        why: ModuleWhy::Unsupported(byte),
    }))
}
