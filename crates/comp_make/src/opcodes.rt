//! The opcodes of instructions (Core 2.0, section 5.4).

ghost use Rattle.std.specs.Prelude.{◌≡◌, ◌≤◌};
ghost use Rattle.comp_make.specs.Opcodes.{relation_at, binary_at, unary_opcode, numeric_opcode, load_opcode, store_opcode, opcode};

use syntax_trees::{BinaryOp, Instr, LoadOp, NumericOp, RelationOp, StoreOp, UnaryOp, Width};

/// How far a comparison stands behind the first one of its width.
fn relation_at(op: RelationOp) -> u8
    ensures value { result ≡ relation_at op }
    ensures bound { result ≤ 9 }
{
    match op {
        RelationOp::Eq => 0,
        RelationOp::Ne => 1,
        RelationOp::LtS => 2,
        RelationOp::LtU => 3,
        RelationOp::GtS => 4,
        RelationOp::GtU => 5,
        RelationOp::LeS => 6,
        RelationOp::LeU => 7,
        RelationOp::GeS => 8,
        RelationOp::GeU => 9,
    }
}

/// How far an operation of two integers stands behind the first one of its width.
fn binary_at(op: BinaryOp) -> u8
    ensures value { result ≡ binary_at op }
    ensures bound { result ≤ 14 }
{
    match op {
        BinaryOp::Add => 0,
        BinaryOp::Sub => 1,
        BinaryOp::Mul => 2,
        BinaryOp::DivS => 3,
        BinaryOp::DivU => 4,
        BinaryOp::RemS => 5,
        BinaryOp::RemU => 6,
        BinaryOp::And => 7,
        BinaryOp::Or => 8,
        BinaryOp::Xor => 9,
        BinaryOp::Shl => 10,
        BinaryOp::ShrS => 11,
        BinaryOp::ShrU => 12,
        BinaryOp::Rotl => 13,
        BinaryOp::Rotr => 14,
    }
}

/// The opcode of an operation of one integer.
fn unary_opcode(width: Width, op: UnaryOp) -> u8
    ensures { result ≡ unary_opcode width op }
{
    match (width, op) {
        (Width::W32, UnaryOp::Clz) => 0x67,
        (Width::W32, UnaryOp::Ctz) => 0x68,
        (Width::W32, UnaryOp::Popcnt) => 0x69,
        (Width::W32, UnaryOp::Extend8S) => 0xC0,
        (Width::W32, UnaryOp::Extend16S) => 0xC1,
        (Width::W64, UnaryOp::Clz) => 0x79,
        (Width::W64, UnaryOp::Ctz) => 0x7A,
        (Width::W64, UnaryOp::Popcnt) => 0x7B,
        (Width::W64, UnaryOp::Extend8S) => 0xC2,
        (Width::W64, UnaryOp::Extend16S) => 0xC3,
    }
}

/// The opcode of a numeric instruction.
fn numeric_opcode(op: NumericOp) -> u8
    ensures { result ≡ numeric_opcode op }
{
    match op {
        NumericOp::Eqz(Width::W32) => 0x45,
        NumericOp::Eqz(Width::W64) => 0x50,
        NumericOp::Relation(Width::W32, op) => 0x46 + relation_at(op),
        NumericOp::Relation(Width::W64, op) => 0x51 + relation_at(op),
        NumericOp::Unary(width, op) => unary_opcode(width, op),
        NumericOp::Binary(Width::W32, op) => 0x6A + binary_at(op),
        NumericOp::Binary(Width::W64, op) => 0x7C + binary_at(op),
        NumericOp::WrapI64 => 0xA7,
        NumericOp::ExtendI32S => 0xAC,
        NumericOp::ExtendI32U => 0xAD,
        NumericOp::I64Extend32S => 0xC4,
    }
}

/// The opcode of a load.
fn load_opcode(op: LoadOp) -> u8
    ensures { result ≡ load_opcode op }
{
    match op {
        LoadOp::I32Load => 0x28,
        LoadOp::I64Load => 0x29,
        LoadOp::I32Load8S => 0x2C,
        LoadOp::I32Load8U => 0x2D,
        LoadOp::I32Load16S => 0x2E,
        LoadOp::I32Load16U => 0x2F,
        LoadOp::I64Load8S => 0x30,
        LoadOp::I64Load8U => 0x31,
        LoadOp::I64Load16S => 0x32,
        LoadOp::I64Load16U => 0x33,
        LoadOp::I64Load32S => 0x34,
        LoadOp::I64Load32U => 0x35,
    }
}

/// The opcode of a store.
fn store_opcode(op: StoreOp) -> u8
    ensures { result ≡ store_opcode op }
{
    match op {
        StoreOp::I32Store => 0x36,
        StoreOp::I64Store => 0x37,
        StoreOp::I32Store8 => 0x3A,
        StoreOp::I32Store16 => 0x3B,
        StoreOp::I64Store8 => 0x3C,
        StoreOp::I64Store16 => 0x3D,
        StoreOp::I64Store32 => 0x3E,
    }
}

/// The first byte of an instruction that holds no others.
#[tactic(auto, unfolding(crate::specs::Opcodes::opcode))]
pub(crate) fn opcode(instr: &Instr) -> u8
    ensures { result ≡ opcode instr.now }
{
    match instr {
        Instr::Unreachable => 0x00,
        Instr::Nop => 0x01,
        Instr::Br(_) => 0x0C,
        Instr::BrIf(_) => 0x0D,
        Instr::BrTable(_, _) => 0x0E,
        Instr::Return => 0x0F,
        Instr::Call(_) => 0x10,
        Instr::CallIndirect(_, _) => 0x11,
        Instr::Drop => 0x1A,
        Instr::Select => 0x1B,
        Instr::SelectTyped(_) => 0x1C,
        Instr::LocalGet(_) => 0x20,
        Instr::LocalSet(_) => 0x21,
        Instr::LocalTee(_) => 0x22,
        Instr::GlobalGet(_) => 0x23,
        Instr::GlobalSet(_) => 0x24,
        Instr::Load(op, _) => load_opcode(*op),
        Instr::Store(op, _) => store_opcode(*op),
        Instr::MemorySize => 0x3F,
        Instr::MemoryGrow => 0x40,
        Instr::MemoryCopy => 0xFC,
        Instr::MemoryFill => 0xFC,
        Instr::I32Const(_) => 0x41,
        Instr::I64Const(_) => 0x42,
        Instr::Numeric(op) => numeric_opcode(*op),
    }
}
