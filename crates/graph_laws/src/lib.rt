//! What the graph of a component that is read and linked has (Component Model, Explainer.md, "Instance Definitions" and "Canonical
//! Definitions"): definitions and laws, without a body.
//!
//! `specs/Laws` says of every linked graph that its plan makes its core instances in order, and of the modules of a component that is
//! read of bytes that they are typed, that their memories are in range, and that their data are bytes. What its functions pass has
//! labels that are counted (`specs/Counted`), and what the calls of a script pass that is read for such exports is in its ranges.
//! What the laws of `abi_machine` ask of a graph stands on these, in `async_graph_laws`.
//!
//! - `laws`: what holds of every linked graph, and of the modules that are read
//! - `examples`: a component that is linked, and its graph
#![tactic(auto)]

pub mod examples;
pub mod laws;
