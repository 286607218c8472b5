//! What is told of a component and of a script: the line of a refusal, and what `check` and `show` answer.
//!
//! The layer above takes the text for each: it is exactly the one that `specs/` defines, or memory is wanting.
//!
//! - `refusals`: the lines of a component that is refused or not linked, and of a script that is refused
//! - `shown`: that a component is linked, and what can be called of it
#![tactic(auto)]

mod refusals;
mod shown;

pub use refusals::{link_refused_line, refused_line, script_refused_line};
pub use shown::{accepted_text, graph_text};
