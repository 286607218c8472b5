//! Programs of graphs and scripts: what a run looks up of them, by numbers (Component Model, CanonicalABI.md, "Lifting and Lowering Values").
//!
//! - `program`: the program of a graph and a script
//! - `passed`: the numbers of the types of what functions and built-ins pass
//! - `calls`: the calls of a script; `resources`: the resources that each component instance defines
#![tactic(auto)]

mod calls;
mod passed;
mod program;
mod resources;

pub use program::program_of;
