//! How the built-ins of streams and futures are answered.

ghost use Rattle.std.specs.Prelude.{◌≡◌};
ghost use Rattle.world_parts.specs.Held.{Does};
ghost use Rattle.copy_replies.specs.Replies.{side_of, op_reply, kind_reply, canon_reply, end_reply};

use crate::copies::{channel_new, copy_cancel, end_drop};
use crate::elements::element_at;
use crate::reading::copy_asked;
use builtin_kinds::{EndKind, EndSide};
use comp_graph::{BuiltinKind, CanonFunc, EndOp, Graph};
use graph_views::canon_at;
use laid_types::LaidType;
use std::alloc::Global;
use stream_ends::Side;
use world_parts::{Flow, Part, Parts, Stop};

/// The side of an end.
fn side_of(side: EndSide) -> Side
    ensures { result ≡ side_of side }
{
    match side {
        EndSide::Readable => Side::Reader,
        EndSide::Writable => Side::Writer,
    }
}

/// A built-in of ends of the type of a number, by what it does.
fn op_reply(
    alloc: Global,
    graph: &Graph<'_>,
    parts: &mut Parts,
    element: &Option<LaidType<'_>>,
    task: u32,
    at: usize,
    number: u32,
    kind: EndKind,
    end_type: usize,
    op: &EndOp,
    words: &[u64],
) -> Part<Flow>
    ensures { Does (op_reply graph.now element.now task at number kind end_type op.now words.now) parts.old result parts.new }
{
    match op {
        EndOp::New => channel_new(alloc, parts, task, at, kind, end_type),
        EndOp::Copy { side, options: _ } => copy_asked(
            alloc,
            graph,
            parts,
            element,
            task,
            at,
            number,
            kind,
            side_of(*side),
            end_type,
            words,
        ),
        EndOp::Cancel { side, is_async: _ } => copy_cancel(
            alloc,
            graph,
            parts,
            task,
            at,
            kind,
            side_of(*side),
            end_type,
            words,
        ),
        EndOp::Drop { side } => end_drop(
            alloc,
            parts,
            task,
            at,
            kind,
            side_of(*side),
            end_type,
            words,
        ),
    }
}

/// A built-in, where it is one of streams or futures.
fn kind_reply(
    alloc: Global,
    graph: &Graph<'_>,
    end_types: &[Option<u32>],
    parts: &mut Parts,
    element: &Option<LaidType<'_>>,
    task: u32,
    at: usize,
    number: u32,
    kind: &BuiltinKind,
    words: &[u64],
) -> Part<Flow>
    ensures { Does (kind_reply graph.now end_types.now element.now task at number kind.now words.now) parts.old result parts.new }
{
    match kind {
        BuiltinKind::End {
            kind,
            element: _,
            op,
        } => {
            let Some(known) = end_types.get(number as usize).copied() else {
                return Err(Stop::Stuck);
            };
            let Some(end_type) = known else {
                return Err(Stop::Stuck);
            };
            let end_type = end_type as usize;
            op_reply(
                alloc, graph, parts, element, task, at, number, *kind, end_type, op, words,
            )
        }
        BuiltinKind::Resource { op: _, resource: _ } => Err(Stop::Stuck),
        BuiltinKind::TaskReturn {
            result: _,
            options: _,
        } => Err(Stop::Stuck),
        BuiltinKind::Plain(_) => Err(Stop::Stuck),
        BuiltinKind::Context { op: _, slot: _ } => Err(Stop::Stuck),
        BuiltinKind::Wait {
            op: _,
            cancellable: _,
            memory: _,
        } => Err(Stop::Stuck),
    }
}

/// A canonical function, where it is a built-in of streams or futures.
fn canon_reply(
    alloc: Global,
    graph: &Graph<'_>,
    end_types: &[Option<u32>],
    parts: &mut Parts,
    element: &Option<LaidType<'_>>,
    task: u32,
    number: u32,
    canon: &CanonFunc,
    words: &[u64],
) -> Part<Flow>
    ensures { Does (canon_reply graph.now end_types.now element.now task number canon.now words.now) parts.old result parts.new }
{
    match canon {
        CanonFunc::Lower(_) => Err(Stop::Stuck),
        CanonFunc::Builtin(builtin) => kind_reply(
            alloc,
            graph,
            end_types,
            parts,
            element,
            task,
            builtin.instance as usize,
            number,
            &builtin.kind,
            words,
        ),
    }
}

/// The canonical function of a number is answered, whose line is told, where it is a built-in of streams or futures. Of each canonical
/// function the number of the type of its ends is said, where it has ends: as a graph has it (`GraphTypes::canons`).
pub fn end_reply(
    alloc: Global,
    graph: &Graph<'_>,
    end_types: &[Option<u32>],
    parts: &mut Parts,
    task: u32,
    number: u32,
    words: &[u64],
) -> Part<Flow>
    ensures { Does (end_reply graph.now end_types.now task number words.now) parts.old result parts.new }
{
    let Some(canon) = canon_at(graph, number) else {
        return Err(Stop::Stuck);
    };
    let element = element_at(graph, number);
    canon_reply(
        alloc, graph, end_types, parts, &element, task, number, canon, words,
    )
}
