//! Linear memories (Core 2.0, sections 4.2.8 and 4.4.7): bytes in pages of 65,536, which grow, and are loaded, stored, copied
//! and filled.
//!
//! Contracts see a memory as its bytes and its maximum of pages.
//!
//! - `memory`: the memory
//! - `loads`, `stores`: loads and stores by instruction, over bytes; `bulk`: bytes that are put, copied and filled
//! - `bounds`: what is outside
//! - `laws`: that what is stored is loaded
#![tactic(auto)]

mod bounds;
mod bulk;
pub mod laws;
mod loads;
mod memory;
mod stores;

pub use bounds::OutOfBounds;
pub use memory::{LinearMemory, MOST_PAGES, PAGE_SIZE};
