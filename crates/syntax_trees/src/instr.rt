//! Instructions (Core 2.0, section 2.4).

use crate::module_types::ValType;
use crate::seq::Seq;

/// The width of an integer, in bits.
#[derive(Clone, Copy)]
pub enum Width {
    /// 32 bits, the type `i32`.
    W32,
    /// 64 bits, the type `i64`.
    W64,
}

/// An operation of one integer that gives another one of its width, and that both widths have.
#[derive(Clone, Copy)]
pub enum UnaryOp {
    Clz,
    Ctz,
    Popcnt,
    Extend8S,
    Extend16S,
}

/// An operation of two integers that gives one of their width.
#[derive(Clone, Copy)]
pub enum BinaryOp {
    Add,
    Sub,
    Mul,
    DivS,
    DivU,
    RemS,
    RemU,
    And,
    Or,
    Xor,
    Shl,
    ShrS,
    ShrU,
    Rotl,
    Rotr,
}

/// A comparison of two integers, which gives an `i32` that is 1 or 0.
#[derive(Clone, Copy)]
pub enum RelationOp {
    Eq,
    Ne,
    LtS,
    LtU,
    GtS,
    GtU,
    LeS,
    LeU,
    GeS,
    GeU,
}

/// A numeric instruction, but for constants (Core 2.0, section 2.4.1).
#[derive(Clone, Copy)]
pub enum NumericOp {
    /// `eqz`: whether an integer of this width is 0, as an `i32`.
    Eqz(Width),
    /// A comparison of integers of this width.
    Relation(Width, RelationOp),
    /// An operation of an integer of this width.
    Unary(Width, UnaryOp),
    /// An operation of integers of this width.
    Binary(Width, BinaryOp),
    /// `i32.wrap_i64`.
    WrapI64,
    /// `i64.extend_i32_s`.
    ExtendI32S,
    /// `i64.extend_i32_u`.
    ExtendI32U,
    /// `i64.extend32_s`, which an `i32` does not have.
    I64Extend32S,
}

/// A load from memory (Core 2.0, section 2.4.7): the type, and where fewer bits are read, these and how they are extended.
#[derive(Clone, Copy)]
pub enum LoadOp {
    I32Load,
    I64Load,
    I32Load8S,
    I32Load8U,
    I32Load16S,
    I32Load16U,
    I64Load8S,
    I64Load8U,
    I64Load16S,
    I64Load16U,
    I64Load32S,
    I64Load32U,
}

/// A store into memory (Core 2.0, section 2.4.7): the type, and where fewer bits are written, these.
#[derive(Clone, Copy)]
pub enum StoreOp {
    I32Store,
    I64Store,
    I32Store8,
    I32Store16,
    I64Store8,
    I64Store16,
    I64Store32,
}

/// What a load or a store says of its address (Core 2.0, section 2.4.7).
#[derive(Clone, Copy)]
pub struct MemArg {
    /// The alignment that is expected, as the exponent of a power of 2.
    pub align: u32,
    /// What is added to the operand.
    pub offset: u32,
}

/// An instruction that holds no others (Core 2.0, section 2.4).
#[derive(Drop)]
pub enum Instr {
    /// `unreachable`.
    Unreachable,
    /// `nop`.
    Nop,
    /// `br`: a branch to this label.
    Br(u32),
    /// `br_if`: a branch to this label, if the last operand is not 0.
    BrIf(u32),
    /// `br_table`: a branch to the label at the number that the last operand tells, or to the one behind these.
    BrTable(Seq<u32>, u32),
    /// `return`.
    Return,
    /// `call`: a call of the function of this index.
    Call(u32),
    /// `call_indirect`: a call of a function of the type of the first index, through the table of the second.
    CallIndirect(u32, u32),
    /// `drop`.
    Drop,
    /// `select` without types.
    Select,
    /// `select` with the types of its result, as many as stand there.
    SelectTyped(Seq<ValType>),
    /// `local.get`: the value of the local of this index.
    LocalGet(u32),
    /// `local.set`.
    LocalSet(u32),
    /// `local.tee`.
    LocalTee(u32),
    /// `global.get`: the value of the global of this index.
    GlobalGet(u32),
    /// `global.set`.
    GlobalSet(u32),
    /// A load.
    Load(LoadOp, MemArg),
    /// A store.
    Store(StoreOp, MemArg),
    /// `memory.size`.
    MemorySize,
    /// `memory.grow`.
    MemoryGrow,
    /// `memory.copy`.
    MemoryCopy,
    /// `memory.fill`.
    MemoryFill,
    /// `i32.const`.
    I32Const(i32),
    /// `i64.const`.
    I64Const(i64),
    /// A numeric instruction.
    Numeric(NumericOp),
}

/// The type of a block, a loop or an `if` (Core 2.0, section 2.4.8).
#[derive(Clone, Copy)]
pub enum BlockType {
    /// No parameters and no result.
    Empty,
    /// No parameters and a result of this type.
    Value(ValType),
    /// The function type of this index.
    TypeIndex(u32),
}

/// What stands in flat code: an instruction that holds no others, the beginning of one that does, `else` or `end`.
#[derive(Drop)]
pub enum Op {
    /// An instruction that holds no others.
    Plain(Instr),
    /// The beginning of a block.
    OpenBlock(BlockType),
    /// The beginning of a loop.
    OpenLoop(BlockType),
    /// The beginning of an `if`.
    OpenIf(BlockType),
    /// The end of the first part of an `if`, behind which its second one stands.
    Else,
    /// The end of a block, a loop, an `if`, or of the whole.
    End,
}

/// An instruction of a constant expression (Core 2.0, section 3.3.10).
#[derive(Clone, Copy)]
pub enum ConstInstr {
    /// `i32.const`.
    I32Const(i32),
    /// `i64.const`.
    I64Const(i64),
    /// `global.get`: the value of the global of this index.
    GlobalGet(u32),
}
