//! Tables of types and tables of handles, of words, for the crates of tests.
//!
//! Types are as `type_texts` reads them. Those of which no clause is needed, as most of those on values, have none.
//!
//! - `numbers`: numbers of texts
//! - `putting`: types put into a table, layer by layer; `making`: types of words put into a table
//! - `things`: tables of handles and ends
//! - `fitting`: whether values are of a type
#![tactic(auto)]

mod fitting;
mod making;
mod numbers;
mod putting;
mod things;

pub use fitting::{are_all_of, holds, is_of, may_all_lower, may_lower};
pub use making::{Made, Put, put_all, put_made, types_told};
pub use numbers::number;
pub use things::{Thing, slots_of, table_of, write_moved, write_slots, write_table};
