//! Opcodes of instructions without immediates and of memory accesses (Core 2.0, section 5.4), in groups.

ghost use Rattle.std.specs.Prelude.{◌≡◌, slice_get};
ghost use Rattle.wasm_code_reader.specs.Opcodes.{among, numeric, load, store, is_float};

use syntax_trees::Width::{W32, W64};
use syntax_trees::{BinaryOp, LoadOp, NumericOp, RelationOp, StoreOp, UnaryOp};

/// The comparisons, in the order of their opcodes.
const RELATIONS: [RelationOp; 10] = [
    RelationOp::Eq,
    RelationOp::Ne,
    RelationOp::LtS,
    RelationOp::LtU,
    RelationOp::GtS,
    RelationOp::GtU,
    RelationOp::LeS,
    RelationOp::LeU,
    RelationOp::GeS,
    RelationOp::GeU,
];

/// The operations of one integer, in the order of their opcodes.
const UNARIES: [UnaryOp; 3] = [UnaryOp::Clz, UnaryOp::Ctz, UnaryOp::Popcnt];

/// The extensions of the lower bits, in the order of their opcodes.
const EXTENSIONS: [UnaryOp; 2] = [UnaryOp::Extend8S, UnaryOp::Extend16S];

/// The operations of two integers, in the order of their opcodes.
const BINARIES: [BinaryOp; 15] = [
    BinaryOp::Add,
    BinaryOp::Sub,
    BinaryOp::Mul,
    BinaryOp::DivS,
    BinaryOp::DivU,
    BinaryOp::RemS,
    BinaryOp::RemU,
    BinaryOp::And,
    BinaryOp::Or,
    BinaryOp::Xor,
    BinaryOp::Shl,
    BinaryOp::ShrS,
    BinaryOp::ShrU,
    BinaryOp::Rotl,
    BinaryOp::Rotr,
];

/// The loads of whole integers, in the order of their opcodes.
const WHOLE_LOADS: [LoadOp; 2] = [LoadOp::I32Load, LoadOp::I64Load];

/// The loads of fewer bits, in the order of their opcodes.
const PART_LOADS: [LoadOp; 10] = [
    LoadOp::I32Load8S,
    LoadOp::I32Load8U,
    LoadOp::I32Load16S,
    LoadOp::I32Load16U,
    LoadOp::I64Load8S,
    LoadOp::I64Load8U,
    LoadOp::I64Load16S,
    LoadOp::I64Load16U,
    LoadOp::I64Load32S,
    LoadOp::I64Load32U,
];

/// The stores of whole integers, in the order of their opcodes.
const WHOLE_STORES: [StoreOp; 2] = [StoreOp::I32Store, StoreOp::I64Store];

/// The stores of fewer bits, in the order of their opcodes.
const PART_STORES: [StoreOp; 5] = [
    StoreOp::I32Store8,
    StoreOp::I32Store16,
    StoreOp::I64Store8,
    StoreOp::I64Store16,
    StoreOp::I64Store32,
];

/// What stands so far in a group.
fn in_group<T: Copy>(group: &[T], at: u8) -> Option<T>
    ensures { result ≡ slice_get group.now at }
{
    group.get(usize::from(at)).copied()
}

/// The numeric instruction of an opcode, if it is the opcode of one (Core 2.0, section 5.4.7).
#[tactic(auto, unfolding(crate::specs::Opcodes::numeric))]
pub fn numeric(opcode: u8) -> Option<NumericOp>
    ensures { result ≡ numeric opcode }
{
    match opcode {
        0x45 => Some(NumericOp::Eqz(W32)),
        0x46..=0x4F => in_group(&RELATIONS, opcode - 0x46).map(|op| NumericOp::Relation(W32, op)),
        0x50 => Some(NumericOp::Eqz(W64)),
        0x51..=0x5A => in_group(&RELATIONS, opcode - 0x51).map(|op| NumericOp::Relation(W64, op)),
        0x67..=0x69 => in_group(&UNARIES, opcode - 0x67).map(|op| NumericOp::Unary(W32, op)),
        0x6A..=0x78 => in_group(&BINARIES, opcode - 0x6A).map(|op| NumericOp::Binary(W32, op)),
        0x79..=0x7B => in_group(&UNARIES, opcode - 0x79).map(|op| NumericOp::Unary(W64, op)),
        0x7C..=0x8A => in_group(&BINARIES, opcode - 0x7C).map(|op| NumericOp::Binary(W64, op)),
        0xA7 => Some(NumericOp::WrapI64),
        0xAC => Some(NumericOp::ExtendI32S),
        0xAD => Some(NumericOp::ExtendI32U),
        0xC0..=0xC1 => in_group(&EXTENSIONS, opcode - 0xC0).map(|op| NumericOp::Unary(W32, op)),
        0xC2..=0xC3 => in_group(&EXTENSIONS, opcode - 0xC2).map(|op| NumericOp::Unary(W64, op)),
        0xC4 => Some(NumericOp::I64Extend32S),
        _ => None,
    }
}

/// The load of an opcode, if it is the opcode of one (Core 2.0, section 5.4.6).
#[tactic(auto, unfolding(crate::specs::Opcodes::load))]
pub fn load(opcode: u8) -> Option<LoadOp>
    ensures { result ≡ load opcode }
{
    match opcode {
        0x28..=0x29 => in_group(&WHOLE_LOADS, opcode - 0x28),
        0x2C..=0x35 => in_group(&PART_LOADS, opcode - 0x2C),
        _ => None,
    }
}

/// The store of an opcode, if it is the opcode of one (Core 2.0, section 5.4.6).
#[tactic(auto, unfolding(crate::specs::Opcodes::store))]
pub fn store(opcode: u8) -> Option<StoreOp>
    ensures { result ≡ store opcode }
{
    match opcode {
        0x36..=0x37 => in_group(&WHOLE_STORES, opcode - 0x36),
        0x3A..=0x3E => in_group(&PART_STORES, opcode - 0x3A),
        _ => None,
    }
}

/// Whether an opcode is from the first to the last of a group.
fn among(first: u8, last: u8, opcode: u8) -> bool
    ensures { result ≡ among first last opcode }
{
    first <= opcode && opcode <= last
}

/// Whether an opcode is one of floats.
pub(crate) fn is_float(opcode: u8) -> bool
    ensures { result ≡ is_float opcode }
{
    among(0x2A, 0x2B, opcode)
        || among(0x38, 0x39, opcode)
        || among(0x43, 0x44, opcode)
        || among(0x5B, 0x66, opcode)
        || among(0x8B, 0xA6, opcode)
        || among(0xA8, 0xAB, opcode)
        || among(0xAE, 0xBF, opcode)
}
