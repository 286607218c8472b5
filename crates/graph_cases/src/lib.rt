//! A graph for the crates of tests, made without linking: three component instances, each with all canonical functions that cases name, over types
//! of streams and futures of several elements.
//!
//! The public functions have no clauses: the proof of a test that calls them has nothing to read of what a graph is. A crate that hands its
//! graphs to `let_go` proves nothing of how their parts are let go.
//!
//! - `tabling`: the types of what canonical functions pass
//! - `canons`: canonical functions by their names
//! - `graphs`: the graph
#![tactic(auto)]

mod canons;
mod graphs;
mod tabling;

pub use graphs::{NamedGraph, graph, let_go};
pub use tabling::{EndNumbers, Numbers};
