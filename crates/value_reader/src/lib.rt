//! The values in the texts of scripts, read by their types.
//!
//! The contract for the layer above: `read_value` answers the value of a type that a text stands for, and `read_arguments`
//! the arguments of a function's parameters, exactly where the text is one of theirs (`specs/Values`), and else none; only
//! want of memory is free. How values are written is told apart from that (`specs/Written`), and the laws say that both are
//! the same. A type of another kind is one more case of `value_at`.
//!
//! - `fault`: why a text is not read
//! - `text`: texts that are read from front to back: blanks, marks, words, labels and digits
//! - `numbers`: numbers
//! - `quoted`: characters and texts between quotes
//! - `labels`: labels that are looked up: flags and enums
//! - `values`: values by their types
//! - `reading`: whole texts: a value, and the arguments of a call
//! - `host`: which types have values that no script can write
//! - `laws`: what holds of the format alone
#![tactic(auto)]

mod fault;
mod host;
mod labels;
mod laws;
mod numbers;
mod quoted;
mod reading;
mod text;
mod values;

pub use host::{func_has_host_type, has_host_type};
pub use laws::{
    arguments_are_texts, calls_are_read_back, chars_are_read_back, literals_are_texts,
    numbers_are_read_back, numbers_are_texts, read_arguments_fit, read_values_fit,
    signed_numbers_are_read_back, signed_numbers_are_texts, sound_values_are_small,
    texts_are_one_call, texts_are_one_value, texts_are_read_back, values_are_read_back,
    values_are_texts,
};
pub use reading::{read_arguments, read_value};
