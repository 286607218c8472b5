//! What numeric instructions, loads and stores are on (Core 2.0, sections 2.4.1 and 2.4.7).

ghost use Rattle.std.specs.Prelude.{◌≡◌};
ghost use Rattle.syntax_trees.specs.Accesses.{integer, load_gives, load_width, store_takes, store_width};

use crate::instr::{LoadOp, StoreOp, Width};
use crate::module_types::ValType;

impl Width {
    /// The type of integers of this width.
    pub fn val_type(self) -> ValType
        ensures { result ≡ integer self }
    {
        match self {
            Width::W32 => ValType::I32,
            Width::W64 => ValType::I64,
        }
    }
}

impl LoadOp {
    /// The type of what it gives.
    pub fn val_type(self) -> ValType
        ensures { result ≡ load_gives self }
    {
        match self {
            LoadOp::I32Load
            | LoadOp::I32Load8S
            | LoadOp::I32Load8U
            | LoadOp::I32Load16S
            | LoadOp::I32Load16U => ValType::I32,
            LoadOp::I64Load
            | LoadOp::I64Load8S
            | LoadOp::I64Load8U
            | LoadOp::I64Load16S
            | LoadOp::I64Load16U
            | LoadOp::I64Load32S
            | LoadOp::I64Load32U => ValType::I64,
        }
    }

    /// How many bytes it reads, as the exponent of a power of 2.
    pub fn width(self) -> u32
        ensures { result ≡ load_width self }
    {
        match self {
            LoadOp::I32Load8S | LoadOp::I32Load8U | LoadOp::I64Load8S | LoadOp::I64Load8U => 0,
            LoadOp::I32Load16S | LoadOp::I32Load16U | LoadOp::I64Load16S | LoadOp::I64Load16U => 1,
            LoadOp::I32Load | LoadOp::I64Load32S | LoadOp::I64Load32U => 2,
            LoadOp::I64Load => 3,
        }
    }
}

impl StoreOp {
    /// The type of what it takes.
    pub fn val_type(self) -> ValType
        ensures { result ≡ store_takes self }
    {
        match self {
            StoreOp::I32Store | StoreOp::I32Store8 | StoreOp::I32Store16 => ValType::I32,
            StoreOp::I64Store | StoreOp::I64Store8 | StoreOp::I64Store16 | StoreOp::I64Store32 => {
                ValType::I64
            }
        }
    }

    /// How many bytes it writes, as the exponent of a power of 2.
    pub fn width(self) -> u32
        ensures { result ≡ store_width self }
    {
        match self {
            StoreOp::I32Store8 | StoreOp::I64Store8 => 0,
            StoreOp::I32Store16 | StoreOp::I64Store16 => 1,
            StoreOp::I32Store | StoreOp::I64Store32 => 2,
            StoreOp::I64Store => 3,
        }
    }
}
