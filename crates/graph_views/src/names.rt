//! The names of built-ins, and of a lowered import.

ghost use Rattle.std.specs.Prelude.{◌≡◌};
ghost use Rattle.graph_views.specs.Names.{resource_name, plain_name, context_name, wait_name, stream_name, future_name, end_name, kind_name, builtin_of};

use builtin_kinds::{ContextOp, EndKind, EndSide, PlainBuiltin, ResourceOp, WaitOp};
use comp_graph::{BuiltinKind, CanonFunc, EndOp};
use trace_labels::Builtin;

/// The name of a canonical function.
pub fn builtin_of(canon: &CanonFunc) -> Builtin
    ensures { result ≡ builtin_of canon.now }
{
    match canon {
        CanonFunc::Lower(_) => Builtin::Lower,
        CanonFunc::Builtin(builtin) => kind_name(&builtin.kind),
    }
}

/// The name of a built-in.
fn kind_name(kind: &BuiltinKind) -> Builtin
    ensures { result ≡ kind_name kind.now }
{
    match kind {
        BuiltinKind::Resource { op, resource: _ } => resource_name(*op),
        BuiltinKind::TaskReturn {
            result: _,
            options: _,
        } => Builtin::TaskReturn,
        BuiltinKind::Plain(op) => plain_name(*op),
        BuiltinKind::Context { op, slot: _ } => context_name(*op),
        BuiltinKind::Wait {
            op,
            cancellable: _,
            memory: _,
        } => wait_name(*op),
        BuiltinKind::End {
            kind,
            element: _,
            op,
        } => end_name(*kind, op),
    }
}

/// The name of one of a resource.
fn resource_name(op: ResourceOp) -> Builtin
    ensures { result ≡ resource_name op }
{
    match op {
        ResourceOp::New => Builtin::ResourceNew,
        ResourceOp::Drop => Builtin::ResourceDrop,
        ResourceOp::Rep => Builtin::ResourceRep,
    }
}

/// The name of one that names nothing.
fn plain_name(op: PlainBuiltin) -> Builtin
    ensures { result ≡ plain_name op }
{
    match op {
        PlainBuiltin::TaskCancel => Builtin::TaskCancel,
        PlainBuiltin::BackpressureSet => Builtin::BackpressureSet,
        PlainBuiltin::BackpressureInc => Builtin::BackpressureInc,
        PlainBuiltin::BackpressureDec => Builtin::BackpressureDec,
        PlainBuiltin::SubtaskCancel { is_async: _ } => Builtin::SubtaskCancel,
        PlainBuiltin::SubtaskDrop => Builtin::SubtaskDrop,
        PlainBuiltin::Yield { cancellable: _ } => Builtin::Yield,
        PlainBuiltin::WaitableSetNew => Builtin::WaitableSetNew,
        PlainBuiltin::WaitableSetDrop => Builtin::WaitableSetDrop,
        PlainBuiltin::WaitableJoin => Builtin::WaitableJoin,
    }
}

/// The name of one of a word of the task.
fn context_name(op: ContextOp) -> Builtin
    ensures { result ≡ context_name op }
{
    match op {
        ContextOp::Get => Builtin::ContextGet,
        ContextOp::Set => Builtin::ContextSet,
    }
}

/// The name of one that asks for an event of a set.
fn wait_name(op: WaitOp) -> Builtin
    ensures { result ≡ wait_name op }
{
    match op {
        WaitOp::Wait => Builtin::WaitableSetWait,
        WaitOp::Poll => Builtin::WaitableSetPoll,
    }
}

/// The name of one of the ends of streams or futures.
fn end_name(kind: EndKind, op: &EndOp) -> Builtin
    ensures { result ≡ end_name kind op.now }
{
    match kind {
        EndKind::Stream => stream_name(op),
        EndKind::Future => future_name(op),
    }
}

/// The name of one of the ends of streams.
fn stream_name(op: &EndOp) -> Builtin
    ensures { result ≡ stream_name op.now }
{
    match op {
        EndOp::New => Builtin::StreamNew,
        EndOp::Copy { side, options: _ } => match side {
            EndSide::Readable => Builtin::StreamRead,
            EndSide::Writable => Builtin::StreamWrite,
        },
        EndOp::Cancel { side, is_async: _ } => match side {
            EndSide::Readable => Builtin::StreamCancelRead,
            EndSide::Writable => Builtin::StreamCancelWrite,
        },
        EndOp::Drop { side } => match side {
            EndSide::Readable => Builtin::StreamDropReadable,
            EndSide::Writable => Builtin::StreamDropWritable,
        },
    }
}

/// The name of one of the ends of futures.
fn future_name(op: &EndOp) -> Builtin
    ensures { result ≡ future_name op.now }
{
    match op {
        EndOp::New => Builtin::FutureNew,
        EndOp::Copy { side, options: _ } => match side {
            EndSide::Readable => Builtin::FutureRead,
            EndSide::Writable => Builtin::FutureWrite,
        },
        EndOp::Cancel { side, is_async: _ } => match side {
            EndSide::Readable => Builtin::FutureCancelRead,
            EndSide::Writable => Builtin::FutureCancelWrite,
        },
        EndOp::Drop { side } => match side {
            EndSide::Readable => Builtin::FutureDropReadable,
            EndSide::Writable => Builtin::FutureDropWritable,
        },
    }
}
