//! How values lie in memory, apart from their types: sizes and alignments, as far as memory can reach (Component Model,
//! CanonicalABI.md, "Alignment" and "Element Size").
//!
//! - `laying`: a size and an alignment, and rows, payloads and numbers of cases over them
#![tactic(auto)]

mod laying;

pub use laying::{Laying, aligned, bits_size, tag_size};
