//! Linking: from a component to its graph, or to the first item that is refused.

ghost use Rattle.std.specs.Prelude.{◌≡◌, ◌<◌, ◌≤◌, ◌∷◌, List, length, Some, Ok, IfOk, IfErr, OnOk};
ghost use Rattle.std.specs.List.{AllByRecursion};
ghost use Rattle.faults.specs.Faults.{IfFault};
ghost use Rattle.syntax_trees.specs.declared.exports.Export.{Export};
ghost use Rattle.comp_graph.specs.Graph.{instance_limit, core_instance_limit};
ghost use Rattle.comp_tree.specs.declared.items.Item.TheOpen.{Item-F};
ghost use Rattle.link_spec.specs.Definitions.{Exports, AComponent, AModule};
ghost use Rattle.link_spec.specs.Spaces.{Spaces, Linking};
ghost use Rattle.link_spec.specs.Linked.{begun, with_instance, IsLinked, HasRoom, IsLinkRefused};
ghost use Rattle.link_spec.specs.Shallow.{HasShallowTypes};
ghost use Rattle.link_spec.specs.Computed.{after, one_more, outcome_case, item_outcome, run_within, step};
ghost use Rattle.link_instances.specs.References.{IsInstance};
ghost use Rattle.link_parts.specs.Told.{IsTold};
ghost use Rattle.link_state.specs.State.{world_of, IsState, IsAt, IsMade, IsLive, StayLive, ended};
ghost use Rattle.link_state.specs.State as state;
ghost use Rattle.link_state.specs.Next.{IsNext};
ghost use Rattle.link_state.specs.Reached.{IsReached};
ghost use Rattle.link_state.specs.Running.{inside};
ghost use Rattle.comp_link.specs.Placed.{placed_error, next_of};

use crate::aliases::link_alias;
use crate::builtins::link_builtin;
use crate::exports::link_export;
use crate::imports::link_import;
use crate::lifts::link_lift;
use crate::lowers::link_lower;
use crate::types::link_type;
use ca_base::Placed;
use comp_graph::Graph;
use comp_tree::{Canon, Component, Item};
use faults::MemoryOr;
use link_core_exports::CoreModule;
use link_instances::InstanceRef;
use link_parts::{ItemError, LinkError};
use link_spec::LinkFault;
use link_spec::laws::graphs_are_sound;
use link_state::{INSTANCE_LIMIT, Linker, Next, ROOT, graph_of, link_core_instance, link_instance};
use std::alloc::Global;
use syntax_trees::{Seq, Shared};
use wasm_typing::Valid;

/// Adds a core module.
fn link_core_module<'a>(
    alloc: Global,
    linker: &mut Linker<'a>,
    n: usize,
    valid: &'a Valid,
) -> Result<(), ItemError>
    requires { n < length linker.old.scopes.items }
    ensures made { (bases : List Exports) (l : Linking) (s : Spaces) → IsAt bases linker.old n l s → IsTold (λ _ outcome. IsMade linker.new outcome) result (Ok (one_more l n s (AModule valid.now))) }
    ensures scopes { OnOk result (length linker.new.scopes.items ≡ length linker.old.scopes.items) }
    ensures live { OnOk result (ended linker.new ≡ ended linker.old) }
{
    let made = Shared::new(alloc, CoreModule::new(alloc, valid)?)?;
    linker.add_module(n, made)?;
    Ok(())
}

/// Adds a component.
fn link_component<'a>(
    alloc: Global,
    linker: &mut Linker<'a>,
    n: usize,
    component: &'a Component,
) -> Result<(), ItemError>
    requires { n < length linker.old.scopes.items }
    ensures made { (bases : List Exports) (l : Linking) (s : Spaces) → IsAt bases linker.old n l s → IsTold (λ _ outcome. IsMade linker.new outcome) result (Ok (one_more l n s (AComponent (record { items = component.now.items; around = n ∷ s.around })))) }
    ensures scopes { OnOk result (length linker.new.scopes.items ≡ length linker.old.scopes.items) }
    ensures live { OnOk result (ended linker.new ≡ ended linker.old) }
{
    linker.add_component(alloc, n, component)?;
    Ok(())
}

/// Links a canonical function.
fn link_canon(
    alloc: Global,
    linker: &mut Linker<'_>,
    n: usize,
    canon: &Canon,
) -> Result<(), ItemError>
    requires { n < length linker.old.scopes.items }
    ensures made { (bases : List Exports) (l : Linking) (s : Spaces) → IsAt bases linker.old n l s → IsTold (λ _ outcome. IsMade linker.new outcome) result (outcome_case l n s (Item-F.Canon canon.now)) }
    ensures scopes { OnOk result (length linker.new.scopes.items ≡ length linker.old.scopes.items) }
    ensures live { OnOk result (ended linker.new ≡ ended linker.old) }
{
    match canon {
        Canon::Lift {
            core_func,
            options,
            func_type,
        } => link_lift(linker, n, *core_func, options.as_slice(), *func_type),
        Canon::Lower { func, options } => link_lower(alloc, linker, n, *func, options.as_slice()),
        Canon::Builtin(builtin) => link_builtin(alloc, linker, n, builtin),
    }
}

/// What comes next where an item made what it makes.
fn next<'a>(made: Result<(), ItemError>) -> Result<Next<'a>, ItemError>
    ensures { result ≡ next_of made }
{
    match made {
        Ok(()) => Ok(Next::Made),
        Err(error) => Err(error),
    }
}

/// Links an item.
fn link_item<'a>(
    alloc: Global,
    linker: &mut Linker<'a>,
    n: usize,
    item: &'a Item,
) -> Result<Next<'a>, ItemError>
    requires { n < length linker.old.scopes.items }
    ensures made { (bases : List Exports) (l : Linking) (s : Spaces) → IsAt bases linker.old n l s → IsReached l → IsTold (IsNext linker.new l) result (item_outcome l n s item.now) }
    ensures scopes { OnOk result (length linker.new.scopes.items ≡ length linker.old.scopes.items) }
    ensures live { OnOk result (ended linker.new ≡ ended linker.old) }
{
    match item {
        Item::CoreModule(valid) => next(link_core_module(alloc, linker, n, valid.get())),
        Item::CoreInstance(made) => next(link_core_instance(alloc, linker, n, made)),
        Item::Component(component) => next(link_component(alloc, linker, n, component)),
        Item::Instance(instance) => link_instance(alloc, linker, n, instance),
        Item::Alias(alias) => next(link_alias(alloc, linker, n, alias)),
        Item::Type(def_type) => next(link_type(alloc, linker, n, def_type)),
        Item::Canon(canon) => next(link_canon(alloc, linker, n, canon)),
        Item::Import(import) => next(link_import(alloc, linker, n, import)),
        Item::Export(export) => next(link_export(alloc, linker, n, export)),
    }
}

/// A reason at a place.
fn at_place(place: usize, error: ItemError) -> LinkError
    ensures { result ≡ placed_error place error }
{
    match error {
        MemoryOr::Memory => MemoryOr::Memory,
        MemoryOr::Fault(why) => MemoryOr::Fault(LinkFault { place, why }),
    }
}

/// Links an item, and the items of the component that it instantiates, if it instantiates one. So many more component instances
/// may begin in one another.
#[cycle(items)]
fn link_placed<'a>(
    alloc: Global,
    linker: &mut Linker<'a>,
    n: usize,
    placed: &'a Placed<Item>,
    depth: usize,
) -> Result<(), LinkError>
    requires { n < length linker.old.scopes.items }
    ensures told { (bases : List Exports) (l : Linking) (s : Spaces) → IsAt bases linker.old n l s → IsReached l → IsTold (λ _ next. state.Stands linker.new next) result (step (inside depth) l n placed.now (Some s)) }
    ensures scopes { OnOk result (length linker.old.scopes.items ≤ length linker.new.scopes.items) }
    ensures live { OnOk result (StayLive linker.old linker.new) }
{
    match link_item(alloc, linker, n, &placed.item) {
        Ok(Next::Made) => Ok(()),
        Ok(
            Next::Begins {
                component,
                around,
                arguments,
            },
        ) => link_nested(alloc, linker, n, component, around, arguments, depth),
        Err(error) => Err(at_place(placed.place, error)),
    }
}

/// Begins an instance of a component, links its items, and adds the instance.
#[cycle(items)]
fn link_nested<'a>(
    alloc: Global,
    linker: &mut Linker<'a>,
    n: usize,
    component: &'a Component,
    around: Shared<Seq<usize>>,
    arguments: InstanceRef,
    depth: usize,
) -> Result<(), LinkError>
    requires { n < length linker.old.scopes.items }
    ensures told { (bases : List Exports) (l : Linking) (s : Spaces) (given : Exports) → IsAt bases linker.old n l s → IsReached (begun l (record { items = component.now.items; around = around }) given) → IsInstance linker.old.types (world_of bases linker.old) arguments given → IsTold (λ _ next. state.Stands linker.new next) result (after (inside depth (begun l (record { items = component.now.items; around = around }) given) (length l.scopes) component.now.items) (λ inner. Ok (with_instance inner n s (length l.scopes)))) }
    ensures scopes { OnOk result (length linker.old.scopes.items ≤ length linker.new.scopes.items) }
    ensures live { OnOk result (StayLive linker.old linker.new) }
{
    let instance = linker.scopes.len();
    linker.begin(alloc, around, arguments)?;
    link_inside(alloc, linker, instance, component.items.as_slice(), depth)?;
    linker.end(alloc, n, instance)?;
    Ok(())
}

/// Links the items of a component that begins: none, where no component instance may begin.
#[cycle(items)]
fn link_inside<'a>(
    alloc: Global,
    linker: &mut Linker<'a>,
    n: usize,
    items: &'a [Placed<Item>],
    depth: usize,
) -> Result<(), LinkError>
    requires { n < length linker.old.scopes.items }
    ensures told { (bases : List Exports) (l : Linking) → IsState bases linker.old l → IsLive linker.old n → IsReached l → IsTold (λ _ last. state.Stands linker.new last) result (inside depth l n items.now) }
    ensures scopes { OnOk result (length linker.old.scopes.items ≤ length linker.new.scopes.items) }
    ensures live { OnOk result (StayLive linker.old linker.new) }
{
    if depth == 0 {
        return Ok(());
    }
    link_items(alloc, linker, n, items, depth - 1)
}

/// Links items in a component instance, one behind the other.
#[cycle(items)]
fn link_items<'a>(
    alloc: Global,
    linker: &mut Linker<'a>,
    n: usize,
    items: &'a [Placed<Item>],
    depth: usize,
) -> Result<(), LinkError>
    requires { n < length linker.old.scopes.items }
    ensures told { (bases : List Exports) (l : Linking) → IsState bases linker.old l → IsLive linker.old n → IsReached l → IsTold (λ _ last. state.Stands linker.new last) result (run_within depth l n items.now) }
    ensures scopes { OnOk result (length linker.old.scopes.items ≤ length linker.new.scopes.items) }
    ensures live { OnOk result (StayLive linker.old linker.new) }
{
    for placed in items {
        link_placed(alloc, linker, n, placed, depth)?;
    }
    Ok(())
}

/// Links a component (Component Model, Explainer.md and CanonicalABI.md).
///
/// It answers the graph that the component is linked to, or the first item that is refused, with its place and the reason.
/// `Memory` is want of memory.
pub fn link<'a>(alloc: Global, component: &'a Component) -> Result<Graph<'a>, LinkError>
    // What is answered is the component's graph.
    ensures ok { IfOk result (λ g. IsLinked component.now g) }
    // There are numbers for all resources that types of instances bring.
    ensures room { IfOk result (λ _. HasRoom component.now) }
    // What is refused is the first item that has a reason against it, those of components that are instantiated among them.
    ensures refused { IfErr result (λ e. IfFault e (λ fault. IsLinkRefused component.now fault)) }
    // There are at most 256 component instances, and at most 256 core instances.
    ensures few { IfOk result (λ g. (g.instance_count ≤ instance_limit) × (length g.cores ≤ core_instance_limit)) }
    // The types of values of what can be called nest at most 32 types in one another.
    ensures shallow { IfOk result (λ g. AllByRecursion (λ (e : Export). HasShallowTypes e.func_type) g.exports) }
{
    graphs_are_sound();
    let mut linker = Linker::new(alloc)?;
    let items = component.items.as_slice();
    link_items(alloc, &mut linker, ROOT, items, INSTANCE_LIMIT)?;
    Ok(graph_of(alloc, linker)?)
}
