//! Numeric instructions (Core 2.0, section 4.3.2): what they make of their operands, and when they trap.
//!
//! A value is a number below 2^32 or 2^64, as its type is `i32` or `i64`. `specs/Numeric` says once for both widths what each
//! instruction makes of its operands, and `specs/Types` the types of these and of its result.
//!
//! - `instructions`: an instruction over its operands
//! - `unaries`, `relations`, `binaries`: groups of instructions; `division`: quotients and remainders
//! - `words`: whether numbers are operands of an instruction
//! - `trap`: why an instruction has no result
//! - `laws`: that results have their types
#![tactic(auto)]

mod binaries;
mod division;
mod instructions;
pub mod laws;
mod relations;
mod trap;
mod unaries;
mod words;

pub use binaries::binary;
pub use instructions::{apply, of_one, of_two, operand_count};
pub use relations::relation;
pub use trap::NumberTrap;
pub use unaries::unary;
pub use words::{is_word, takes_one, takes_two};
