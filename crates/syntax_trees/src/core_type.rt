//! Core types and core functions.

use crate::seq::Seq;

/// The type of a core value (Core 2.0, section 2.3.1).
#[derive(Clone, Copy)]
pub enum CoreType {
    /// A 32-bit integer.
    I32,
    /// A 64-bit integer.
    I64,
}

/// A list of core types.
pub type CoreTypes = Seq<CoreType>;

/// The type of a core function (Core 2.0, section 2.3.6).
#[derive(Drop)]
pub struct CoreFunc {
    /// The types of its parameters, in order.
    pub params: CoreTypes,
    /// The types of its results, in order.
    pub results: CoreTypes,
}

/// The five ways in which a core function and a function stand for each other (Component Model, CanonicalABI.md,
/// "Flattening": `flatten_functype`).
#[derive(Clone, Copy)]
pub enum FlatKind {
    /// A core function is lifted, and its caller waits for it.
    SyncLift,
    /// A core function is lifted, and returns by `task.return`.
    AsyncLift,
    /// A core function is lifted, returns by `task.return`, and is called back at each event.
    CallbackLift,
    /// A function is lowered, and its caller waits for it.
    SyncLower,
    /// A function is lowered, and its caller goes on.
    AsyncLower,
}
