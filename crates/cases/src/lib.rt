//! What the tables of the crates of tests are written in, and how they are gone through.
//!
//! - `bytes`: bytes as hexadecimal text
//! - `table`: cases in a text, each with the answer that is wanted, or of which something holds
//! - `tables`: programs that go through files of such cases
//! - `acts`: what words make of something, one after the other; `steps`: what lines make of it
#![tactic(auto)]

mod acts;
mod bytes;
mod steps;
mod table;
mod tables;

pub use acts::{Acts, acted, write_acts};
pub use bytes::{bytes_of, bytes_of_lines};
pub use steps::{Steps, check_steps};
pub use table::{
    Answers, Holds, check_all_lines, check_all_paragraphs, check_lines, check_paragraphs,
};
pub use tables::{Tables, lines_told, paragraphs_told, run_tables, steps_told};
