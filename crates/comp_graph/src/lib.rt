//! Graphs: what a component is linked to, as data.
//!
//! Linking makes a graph, and what runs a component reads it: which component instances begin and which core modules are
//! instantiated, in which order, what their imports are, which core functions the Canonical ABI makes, and which functions can be
//! called. `specs/Graph` says what a graph is and what its lifts, lowers, built-ins and core instances stand on, `specs/CoreItems` what
//! core instances have, `specs/Needs` what lifts, lowers and built-ins need of them, `specs/Passed` which types of values functions and
//! built-ins pass, `specs/Running` which graphs have synchronous functions alone, and `specs/Closed` what types are in which no index is
//! left.
//!
//! - `func_types`: function types over a table of types of values
//! - `graph`: the graph
//! - `numbers`: numbers in graphs
//! - `running`: which graphs run
#![tactic(auto)]

mod func_types;
mod graph;
mod numbers;
mod running;

pub use func_types::{FuncTypes, GraphTypes, NumberedFunc, PassedTypes};
pub use graph::{
    Action, Builtin, BuiltinKind, CanonFunc, CoreExtern, CoreMake, CoreRef, EndOp, FuncRef, Graph,
    Lift, Lower, Options, Resource,
};
pub use numbers::graph_number;
pub use running::runs_now;
