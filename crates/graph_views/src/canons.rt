//! Canonical functions by their numbers, and what each uses.

ghost use Rattle.std.specs.Prelude.{◌≡◌};
ghost use Rattle.std.specs.Option.{option_copied};
ghost use Rattle.graph_views.specs.Canons.{canon_at, instance_of, options_of_end, options_of_kind, memory_alone, options_of, options_at, flag_of_plain, flag_of_kind, flag_of, flag_at, is_async, is_made_in};

use builtin_kinds::PlainBuiltin;
use comp_graph::{BuiltinKind, CanonFunc, CoreRef, EndOp, Graph, Options};

/// No memory and no functions.
const NO_OPTIONS: Options = Options {
    memory: None,
    realloc: None,
    post_return: None,
    callback: None,
    is_async: false,
};

/// The canonical function of a number.
pub fn canon_at<'g>(graph: &'g Graph<'_>, number: u32) -> Option<&'g CanonFunc>
    ensures { option_copied result ≡ canon_at graph.now number }
{
    graph.canons().get(number as usize)
}

/// The component instance that made it.
pub fn instance_of(canon: &CanonFunc) -> u32
    ensures { result ≡ instance_of canon.now }
{
    match canon {
        CanonFunc::Lower(lower) => lower.get().instance,
        CanonFunc::Builtin(builtin) => builtin.instance,
    }
}

/// What else a canonical function uses: of a wait the memory for its event.
pub fn options_of(canon: &CanonFunc) -> Options
    ensures { result ≡ options_of canon.now }
{
    match canon {
        CanonFunc::Lower(lower) => lower.get().options,
        CanonFunc::Builtin(builtin) => options_of_kind(&builtin.kind),
    }
}

/// What else a built-in uses.
fn options_of_kind(kind: &BuiltinKind) -> Options
    ensures { result ≡ options_of_kind kind.now }
{
    match kind {
        BuiltinKind::Resource { op: _, resource: _ } => NO_OPTIONS,
        BuiltinKind::TaskReturn { result: _, options } => *options.get(),
        BuiltinKind::Plain(_) => NO_OPTIONS,
        BuiltinKind::Context { op: _, slot: _ } => NO_OPTIONS,
        BuiltinKind::Wait {
            op: _,
            cancellable: _,
            memory,
        } => memory_alone(*memory),
        BuiltinKind::End {
            kind: _,
            element: _,
            op,
        } => options_of_end(op),
    }
}

/// Options that have this memory and no functions.
fn memory_alone(memory: CoreRef) -> Options
    ensures { result ≡ memory_alone memory }
{
    Options {
        memory: Some(memory),
        realloc: None,
        post_return: None,
        callback: None,
        is_async: false,
    }
}

/// What else a built-in of the ends of streams or futures uses.
fn options_of_end(op: &EndOp) -> Options
    ensures { result ≡ options_of_end op.now }
{
    match op {
        EndOp::New => NO_OPTIONS,
        EndOp::Copy { side: _, options } => *options.get(),
        EndOp::Cancel {
            side: _,
            is_async: _,
        } => NO_OPTIONS,
        EndOp::Drop { side: _ } => NO_OPTIONS,
    }
}

/// What else the canonical function of a number uses; nothing where it is not there.
pub fn options_at(graph: &Graph<'_>, number: u32) -> Options
    ensures { result ≡ options_at graph.now number }
{
    match canon_at(graph, number) {
        Some(canon) => options_of(canon),
        None => NO_OPTIONS,
    }
}

/// Whether a call by the canonical function of a number goes on before what it began is done. Where it is not there the answer is false.
pub fn is_async(graph: &Graph<'_>, number: u32) -> bool
    ensures { result ≡ is_async graph.now number }
{
    options_at(graph, number).is_async
}

/// The flag of a canonical function: of a wait and of `yield` that a cancellation ends it, of `subtask.cancel` that it does not wait.
pub fn flag_of(canon: &CanonFunc) -> bool
    ensures { result ≡ flag_of canon.now }
{
    match canon {
        CanonFunc::Lower(_) => false,
        CanonFunc::Builtin(builtin) => flag_of_kind(&builtin.kind),
    }
}

/// The flag of a built-in.
fn flag_of_kind(kind: &BuiltinKind) -> bool
    ensures { result ≡ flag_of_kind kind.now }
{
    match kind {
        BuiltinKind::Resource { op: _, resource: _ } => false,
        BuiltinKind::TaskReturn {
            result: _,
            options: _,
        } => false,
        BuiltinKind::Plain(op) => flag_of_plain(*op),
        BuiltinKind::Context { op: _, slot: _ } => false,
        BuiltinKind::Wait {
            op: _,
            cancellable,
            memory: _,
        } => *cancellable,
        BuiltinKind::End {
            kind: _,
            element: _,
            op: _,
        } => false,
    }
}

/// The flag of a built-in that names nothing.
fn flag_of_plain(op: PlainBuiltin) -> bool
    ensures { result ≡ flag_of_plain op }
{
    match op {
        PlainBuiltin::SubtaskCancel { is_async } => is_async,
        PlainBuiltin::Yield { cancellable } => cancellable,
        PlainBuiltin::TaskCancel => false,
        PlainBuiltin::BackpressureSet => false,
        PlainBuiltin::BackpressureInc => false,
        PlainBuiltin::BackpressureDec => false,
        PlainBuiltin::SubtaskDrop => false,
        PlainBuiltin::WaitableSetNew => false,
        PlainBuiltin::WaitableSetDrop => false,
        PlainBuiltin::WaitableJoin => false,
    }
}

/// The flag of the canonical function of a number, false where it is not there.
pub fn flag_at(graph: &Graph<'_>, number: u32) -> bool
    ensures { result ≡ flag_at graph.now number }
{
    match canon_at(graph, number) {
        Some(canon) => flag_of(canon),
        None => false,
    }
}

/// Whether the canonical function of a number is there, and this component instance made it.
pub fn is_made_in(graph: &Graph<'_>, number: u32, instance: usize) -> bool
    ensures { result ≡ is_made_in graph.now number instance }
{
    match canon_at(graph, number) {
        Some(canon) => instance_of(canon) as usize == instance,
        None => false,
    }
}
