//! Which graphs run: those of synchronous functions.

ghost use Rattle.std.specs.Prelude.{◌≡◌};
ghost use Rattle.std.specs.List.{list_all};
ghost use Rattle.comp_graph.specs.Running as running;

use crate::graph::{CanonFunc, Graph, Lift};

/// Whether a lift has no `async`.
fn is_sync_lift(lift: &Lift) -> bool
    ensures { result ≡ running.is_sync_lift lift.now }
{
    !lift.options.is_async
}

/// Whether a core function calls a function, and neither has `async`.
fn is_sync_canon(canon: &CanonFunc) -> bool
    ensures { result ≡ running.is_sync_canon canon.now }
{
    match canon {
        CanonFunc::Lower(lower) => {
            let lower = lower.get();
            !lower.options.is_async && is_sync_lift(&lower.lift)
        }
        CanonFunc::Builtin(_) => false,
    }
}

/// Whether core functions call functions, and none has `async`.
fn are_sync_canons(canons: &[CanonFunc]) -> bool
    ensures { result ≡ list_all running.is_sync_canon canons.now }
{
    canons.iter().all(|canon| is_sync_canon(canon))
}

/// Whether lifts have no `async`.
fn are_sync_lifts(lifts: &[Lift]) -> bool
    ensures { result ≡ list_all running.is_sync_lift lifts.now }
{
    lifts.iter().all(|lift| is_sync_lift(lift))
}

/// Whether all functions of a graph are synchronous, no core function is a built-in, and no type of resources is defined (Component
/// Model, CanonicalABI.md, `canon lift` and `canon lower`).
pub fn runs_now(graph: &Graph<'_>) -> bool
    ensures { result ≡ running.runs_now graph.now }
{
    are_sync_canons(graph.canons()) && are_sync_lifts(graph.lifts()) && graph.resources().is_empty()
}
