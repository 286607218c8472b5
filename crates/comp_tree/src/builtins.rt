//! Canonical built-ins (Component Model, Explainer.md, "Canonical Built-ins").

use crate::items::CanonOption;
use crate::types::ValTypeRef;
use builtin_kinds::{ContextOp, EndKind, EndSide, PlainBuiltin, ResourceOp, WaitOp};
use syntax_trees::Seq;

/// What a built-in does with the end of a stream or a future (Component Model, Binary.md, `canon`).
#[derive(Drop)]
pub enum CanonEndOp {
    /// Both ends are made.
    New,
    /// Elements are read or written.
    Copy {
        /// The end: the readable one reads, the writable one writes.
        side: EndSide,
        /// The options, in order.
        options: Seq<CanonOption>,
    },
    /// A read or a write is cancelled.
    Cancel {
        /// The end.
        side: EndSide,
        /// Whether it answers before the other side has come to its end.
        is_async: bool,
    },
    /// The end is dropped.
    Drop {
        /// The end.
        side: EndSide,
    },
}

/// A built-in as it is written (Component Model, Binary.md, `canon`).
#[derive(Drop)]
pub enum CanonBuiltin {
    /// A built-in of a resource.
    Resource {
        /// What it does.
        op: ResourceOp,
        /// The index of the resource's type.
        resource: u32,
    },
    /// `task.return`: the task returns its result.
    TaskReturn {
        /// The type of the result, if there is one.
        result: Option<ValTypeRef>,
        /// The options, in order.
        options: Seq<CanonOption>,
    },
    /// A built-in that names nothing.
    Plain(PlainBuiltin),
    /// A built-in of a word of the task.
    Context {
        /// What it does.
        op: ContextOp,
        /// The number of the word.
        slot: u32,
    },
    /// A built-in that asks for an event of a set.
    Wait {
        /// How it asks.
        op: WaitOp,
        /// Whether a cancellation ends the wait.
        cancellable: bool,
        /// The index of the memory into which the event goes.
        memory: u32,
    },
    /// A built-in of the ends of streams or futures.
    End {
        /// What the ends belong to.
        kind: EndKind,
        /// The index of the type of the streams or futures.
        end_type: u32,
        /// What it does.
        op: CanonEndOp,
    },
}
