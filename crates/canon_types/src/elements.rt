//! What passes in streams and futures, and what reads and writes use for it.

ghost use Rattle.std.specs.Prelude.{◌≡◌};
ghost use Rattle.laid_types.specs.Lists.{held_list};
ghost use Rattle.comp_graph.specs.Graph as graph;
ghost use Rattle.link_spec.specs.Builtins as meanings;
ghost use Rattle.builtin_kinds.specs.declared.EndKind.TheVariants as end_kind;

use builtin_kinds::{EndKind, EndSide};
use laid_types::LaidType;
use syntax_trees::ValType;

/// What passes in the streams of a type, where it is one of streams.
fn stream_elements<'t>(ends: &LaidType<'t>) -> Option<Option<LaidType<'t>>>
    ensures { result ≡ meanings.elements_of end_kind.Stream ends.now }
{
    match ends.val_type() {
        ValType::Stream(_) => Some(ends.part(0)),
        _ => None,
    }
}

/// What passes in the futures of a type, where it is one of futures.
fn future_elements<'t>(ends: &LaidType<'t>) -> Option<Option<LaidType<'t>>>
    ensures { result ≡ meanings.elements_of end_kind.Future ends.now }
{
    match ends.val_type() {
        ValType::Future(_) => Some(ends.part(0)),
        _ => None,
    }
}

/// What passes in the streams or the futures of a type, where it is one of these (Component Model, Explainer.md, "Type Definitions").
pub fn elements_of<'t>(kind: EndKind, ends: &LaidType<'t>) -> Option<Option<LaidType<'t>>>
    ensures { result ≡ meanings.elements_of kind ends.now }
{
    match kind {
        EndKind::Stream => stream_elements(ends),
        EndKind::Future => future_elements(ends),
    }
}

/// Whether a read or a write of these elements lowers a string or a list (Component Model, CanonicalABI.md, `canon stream.read` and its
/// fellows).
pub fn lowers_list(side: EndSide, element: &Option<LaidType<'_>>) -> bool
    ensures { result ≡ graph.lowers_list side element.now }
{
    match side {
        EndSide::Readable => holds_list(element),
        EndSide::Writable => false,
    }
}

/// Whether a string or a list stands in a type, if there is one.
fn holds_list(element: &Option<LaidType<'_>>) -> bool
    ensures { result ≡ held_list element.now }
{
    match element {
        Some(val_type) => val_type.has_list(),
        None => false,
    }
}
