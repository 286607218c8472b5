//! Kinds of canonical built-ins (Component Model, Explainer.md, "Canonical Built-ins"), as a component's tree and its graph both
//! name them.
#![tactic(auto)]

/// What a built-in does with handles of a resource (Component Model, CanonicalABI.md, `canon resource.new`, `canon resource.drop`,
/// `canon resource.rep`).
#[derive(Clone, Copy)]
pub enum ResourceOp {
    /// `resource.new`: it makes an owning handle.
    New,
    /// `resource.drop`: it drops a handle.
    Drop,
    /// `resource.rep`: it gives the representation that a handle names.
    Rep,
}

/// A built-in that names no type, no memory and no word (Component Model, CanonicalABI.md, `canon task.cancel` and its fellows).
#[derive(Clone, Copy)]
pub enum PlainBuiltin {
    /// `task.cancel`: the task resolves as cancelled.
    TaskCancel,
    /// `backpressure.set`
    BackpressureSet,
    /// `backpressure.inc`
    BackpressureInc,
    /// `backpressure.dec`
    BackpressureDec,
    /// `subtask.cancel`: a subtask is asked to come to an end.
    SubtaskCancel {
        /// Whether it answers before the subtask has come to its end.
        is_async: bool,
    },
    /// `subtask.drop`: a subtask that has resolved leaves the table.
    SubtaskDrop,
    /// `yield`: others may run.
    Yield {
        /// Whether a cancellation ends the wait.
        cancellable: bool,
    },
    /// `waitable-set.new`
    WaitableSetNew,
    /// `waitable-set.drop`
    WaitableSetDrop,
    /// `waitable.join`: a waitable joins a set, or leaves its own.
    WaitableJoin,
}

/// What a built-in does with a word of the task (Component Model, CanonicalABI.md, `canon context.get`, `canon context.set`).
#[derive(Clone, Copy)]
pub enum ContextOp {
    /// `context.get`
    Get,
    /// `context.set`
    Set,
}

/// How a built-in asks for an event of a set (Component Model, CanonicalABI.md, `canon waitable-set.wait`, `canon
/// waitable-set.poll`).
#[derive(Clone, Copy)]
pub enum WaitOp {
    /// `waitable-set.wait`: the task waits for one.
    Wait,
    /// `waitable-set.poll`: the task takes one where there is one.
    Poll,
}

/// What an end belongs to (Component Model, Explainer.md, "Asynchronous Value Types").
#[derive(Clone, Copy)]
pub enum EndKind {
    /// A stream.
    Stream,
    /// A future.
    Future,
}

/// Which end of a stream or a future (Component Model, Explainer.md, "Asynchronous Value Types").
#[derive(Clone, Copy)]
pub enum EndSide {
    /// The readable end.
    Readable,
    /// The writable end.
    Writable,
}
