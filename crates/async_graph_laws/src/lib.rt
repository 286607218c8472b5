//! What the laws of asynchronous calls ask of a graph, of every linked one (Component Model, Explainer.md, "Instance Definitions" and
//! "Canonical Definitions"): laws, without a body.
//!
//! The laws of `abi_machine` ask of a graph that core definitions stay in the component instance that makes them, that its core instances are
//! typed, in range and made in order, and that what its lifts and lowers use is there. `specs/Laws` says so of every linked graph, and of one
//! that is read where it asks something of modules. So all that the laws of reached worlds (`reach_laws`) ask of a graph and a script is so of
//! each component file that is read and linked, and of each script that is read for it: `specs/ReadRuns` has that in each world which the
//! machine reaches a step or the end of the run comes next, and one alone, and that there is exactly one run; and `specs/ReadFits` that they are
//! all that laws of runs of the code ask of a graph and a script.
//!
//! - `laws`: what holds of every linked graph, and of what is read
//! - `examples`: a component that is linked, and its graph
#![tactic(auto)]

pub mod examples;
pub mod laws;
