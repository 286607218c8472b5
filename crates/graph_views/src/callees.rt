//! The functions that tasks run, and resources.

ghost use Rattle.std.specs.Prelude.{◌≡◌};
ghost use Rattle.graph_views.specs.Callees.{kind_of, resource_at, lowered_lift, lifted_at, destructor_lift, destructor_at, lift_of};

use crate::canons::canon_at;
use comp_graph::{CanonFunc, FuncRef, Graph, Lift, Options, Resource};
use entry_gate::Kind;
use task_table::Callee;

/// How a function is lifted with these options.
pub fn kind_of(options: &Options) -> Kind
    ensures { result ≡ kind_of options.now }
{
    if options.is_async {
        if options.callback.is_some() {
            Kind::Callback
        } else {
            Kind::Stackful
        }
    } else {
        Kind::Sync
    }
}

/// The resource of a number, counted from 1.
pub fn resource_at(graph: &Graph<'_>, number: u32) -> Option<Resource>
    ensures { result ≡ resource_at graph.now number }
{
    if number == 0 {
        return None;
    }
    graph.resources().get(number as usize - 1).copied()
}

/// The function that a task runs: where it is lifted, its core function, and what else the lift uses. A task that instantiates runs none.
/// A destructor is a core function with nothing else.
pub fn lift_of(graph: &Graph<'_>, callee: Callee) -> Option<Lift>
    ensures { result ≡ lift_of graph.now callee }
{
    match callee {
        Callee::Init => None,
        Callee::Export(number) => graph.lifts().get(number).copied(),
        Callee::Lowered(canon) => lifted_at(graph, canon),
        Callee::Destroys(resource) => destructor_at(graph, resource),
    }
}

/// What is lifted of the function that the canonical function of a number lowers.
pub fn lifted_at(graph: &Graph<'_>, number: u32) -> Option<Lift>
    ensures { result ≡ lifted_at graph.now number }
{
    match canon_at(graph, number) {
        Some(canon) => lowered_lift(canon),
        None => None,
    }
}

/// What is lifted of the function that a canonical function lowers.
fn lowered_lift(canon: &CanonFunc) -> Option<Lift>
    ensures { result ≡ lowered_lift canon.now }
{
    match canon {
        CanonFunc::Lower(lower) => Some(lower.get().lift),
        CanonFunc::Builtin(_) => None,
    }
}

/// The destructor of the resource of a number, where it has one.
fn destructor_at(graph: &Graph<'_>, number: u32) -> Option<Lift>
    ensures { result ≡ destructor_at graph.now number }
{
    match resource_at(graph, number) {
        Some(resource) => match resource.destructor {
            Some(core) => Some(destructor_lift(resource.instance, core)),
            None => None,
        },
        None => None,
    }
}

/// A destructor, as a function of a component instance.
fn destructor_lift(instance: u32, core: FuncRef) -> Lift
    ensures { result ≡ destructor_lift instance core }
{
    Lift {
        instance,
        core,
        options: Options {
            memory: None,
            realloc: None,
            post_return: None,
            callback: None,
            is_async: false,
        },
    }
}
