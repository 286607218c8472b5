//! Scripts: the text that says how much fuel a run has, which exported functions it calls, which of these calls it asks to
//! come to an end, and which alternatives it takes.
//!
//! The contract for the layer above: `read_script` answers `Ok` exactly for the text of a script (`specs/Script`), with
//! what the script says, and else the first line that is refused, and why. Values are read by `value_reader`; another kind of
//! line is one more case of `Draft::add_line`.
//!
//! - `script`: what a script says
//! - `fault`: why a text is refused
//! - `text`: blanks, words and lines
//! - `parts`: the parts of a text that a byte parts
//! - `number`: numbers
//! - `directory`: the exports of a component, to be found by their names
//! - `call`: the calls of exported functions
//! - `draft`: a script in the making: what the lines so far say
//! - `reading`: the reader
//! - `laws`: what holds of the format alone
#![tactic(auto)]

mod call;
mod directory;
mod draft;
mod fault;
mod laws;
mod number;
mod parts;
mod reading;
mod script;
mod text;

pub use fault::{ScriptFault, ScriptWhy};
pub use laws::{
    arguments_are_texts, calls_are_lines, cancel_is_a_line, first_fault_is_told, fuel_is_a_line,
    one_script, other_calls_are_refused, other_cancels_are_refused, other_fuel_is_refused,
    other_lines_are_refused, other_picks_are_refused, picks_are_a_line, scripts_are_texts,
    scripts_call_exports,
};
pub use reading::read_script;
pub use script::{Call, Item, Script};
