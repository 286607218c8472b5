//! Types (Core 2.0, section 2.3).

use crate::seq::Seq;

/// The type of a value (Core 2.0, section 2.3.4).
#[derive(Clone, Copy, Debug)]
pub enum ValType {
    /// A 32-bit integer.
    I32,
    /// A 64-bit integer.
    I64,
}

/// The type of a function (Core 2.0, section 2.3.6).
#[derive(Drop)]
pub struct FuncType {
    /// The types of its parameters, in order.
    pub params: Seq<ValType>,
    /// The types of its results, in order.
    pub results: Seq<ValType>,
}

/// How far a memory, in pages of 65,536 bytes, or a table, in entries, may grow (Core 2.0, section 2.3.7).
#[derive(Clone, Copy)]
pub struct Limits {
    /// What it has from the start.
    pub min: u32,
    /// What it may have at most, or `None` where nothing is said.
    pub max: Option<u32>,
}

/// Whether a global may be set (Core 2.0, section 2.3.10).
#[derive(Clone, Copy)]
pub enum Mutability {
    /// It keeps its value.
    Constant,
    /// It may be set.
    Variable,
}

/// The type of a global (Core 2.0, section 2.3.10).
#[derive(Clone, Copy)]
pub struct GlobalType {
    /// The type of its value.
    pub val_type: ValType,
    /// Whether it may be set.
    pub mutability: Mutability,
}

/// Locals of one type that stand side by side (Core 2.0, section 5.5.13).
#[derive(Clone, Copy)]
pub struct Locals {
    /// How many there are.
    pub count: u32,
    /// Their type.
    pub val_type: ValType,
}
