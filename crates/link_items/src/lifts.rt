//! Lifts of core items.

ghost use Rattle.std.specs.Prelude.{◌≡◌};
ghost use Rattle.syntax_trees.specs.declared.types.FuncType.{FuncType};
ghost use Rattle.link_spec.specs.Canons as canons;
ghost use Rattle.link_spec.specs.Computed.{lifted_to};
ghost use Rattle.link_types.specs.Laid.{IsLaid};
ghost use Rattle.link_types.specs.Table.{IsFunc};
ghost use Rattle.link_instances.specs.References.{IsLifted};
ghost use Rattle.link_parts.specs.Told.{IsTold};

use canon_types::{
    callback_type, lift_needs_memory, lift_needs_realloc, lift_type, post_return_type,
    realloc_type, stand_once,
};
use comp_graph::graph_number;
use comp_tree::CanonOption;
use faults::MemoryOr;
use link_core_exports::{CoreItem, Given};
use link_instances::LiftedRef;
use link_parts::ItemError;
use link_spec::LinkWhy;
use link_types::{FuncTypeRef, LaidFunc, Types};

/// Whether a core item, and the core functions that options give, have the types that a lift to a function of a type needs.
fn are_of_types(laid: &LaidFunc, item: &CoreItem<'_>, given: &Given<'_>) -> bool
    ensures { (f : FuncType) → IsLaid laid.now f → result ≡ canons.are_of_types f item.now given.now }
{
    item.is_of_type(&lift_type(laid, &given.options()))
        && given.realloc_is(&realloc_type())
        && given.post_return_is(&post_return_type(laid))
        && given.callback_is(&callback_type())
}

/// Whether a core function that is called when the result was lifted is given without `async` alone, and one that is called with
/// events with it alone.
fn are_of_kind(given: &Given<'_>) -> bool
    ensures { result ≡ canons.are_of_kind given.now }
{
    (!given.has_post_return() || !given.is_async()) && (!given.has_callback() || given.is_async())
}

/// Whether a core item can be lifted to a function of a type, with what options give (Component Model, CanonicalABI.md, `canon
/// lift`). It takes no longer for a function of many parameters.
fn can_be_lifted(laid: &LaidFunc, item: &CoreItem<'_>, given: &Given<'_>) -> bool
    ensures { (f : FuncType) → IsLaid laid.now f → result ≡ canons.can_be_lifted f item.now given.now }
{
    are_of_types(laid, item, given)
        && are_of_kind(given)
        && (!lift_needs_memory(laid, given.is_async()) || given.has_memory())
        && (!lift_needs_realloc(laid) || given.has_realloc())
}

/// The lift of a core item to a function of this type, with what options give, in the component instance of this number.
pub fn lifted_to(
    types: &Types<'_>,
    n: usize,
    item: &CoreItem<'_>,
    options: &[CanonOption],
    given: &Given<'_>,
    func_type: FuncTypeRef,
) -> Result<LiftedRef, ItemError>
    ensures { (f : FuncType) → IsFunc types.now func_type f → IsTold (IsLifted types.now) result (lifted_to n f item.now options.now given.now) }
{
    if !stand_once(options) {
        return Err(MemoryOr::Fault(LinkWhy::Canon));
    }
    let Some(laid) = types.laid_func(func_type) else {
        return Err(MemoryOr::Fault(LinkWhy::Canon));
    };
    if !can_be_lifted(laid, item, given) {
        return Err(MemoryOr::Fault(LinkWhy::Canon));
    }
    let Some(core) = item.core_func() else {
        return Err(MemoryOr::Fault(LinkWhy::Canon));
    };
    let instance = graph_number(n)?;
    Ok(LiftedRef {
        instance,
        core,
        options: given.options(),
        func_type,
    })
}
