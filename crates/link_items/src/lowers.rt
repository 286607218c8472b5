//! Lowers of functions.

ghost use Rattle.std.specs.Prelude.{◌≡◌};
ghost use Rattle.syntax_trees.specs.declared.types.FuncType.{FuncType};
ghost use Rattle.link_spec.specs.Canons as canons;
ghost use Rattle.link_spec.specs.Canons.{options_of};
ghost use Rattle.link_spec.specs.Computed.{lowered_from};
ghost use Rattle.link_types.specs.Laid.{IsLaid};
ghost use Rattle.link_types.specs.Table.{IsFunc};
ghost use Rattle.link_parts.specs.Told.{IsTold};

use crate::used::can_be_used;
use canon_types::{lower_needs_memory, lower_needs_realloc, stand_once};
use comp_graph::Options;
use comp_tree::CanonOption;
use faults::MemoryOr;
use link_core_exports::Given;
use link_parts::ItemError;
use link_spec::LinkWhy;
use link_types::{FuncTypeRef, LaidFunc, Types};

/// Whether a function of a type can be lowered with what options give (Component Model, CanonicalABI.md, `canon lower`). It takes
/// no longer for a function of many parameters.
fn can_be_lowered(laid: &LaidFunc, given: &Given<'_>) -> bool
    ensures { (f : FuncType) → IsLaid laid.now f → result ≡ canons.can_be_lowered f given.now }
{
    let memory_used = lower_needs_memory(laid, given.is_async());
    can_be_used(given, memory_used, lower_needs_realloc(laid))
}

/// What options give the lowering of a function of this type.
pub fn lowered_from(
    types: &Types<'_>,
    func_type: FuncTypeRef,
    options: &[CanonOption],
    given: &Given<'_>,
) -> Result<Options, ItemError>
    ensures { (f : FuncType) → IsFunc types.now func_type f → IsTold (λ used given. used ≡ options_of given) result (lowered_from f options.now given.now) }
{
    if !stand_once(options) {
        return Err(MemoryOr::Fault(LinkWhy::Canon));
    }
    let Some(laid) = types.laid_func(func_type) else {
        return Err(MemoryOr::Fault(LinkWhy::Canon));
    };
    if !can_be_lowered(laid, given) {
        return Err(MemoryOr::Fault(LinkWhy::Canon));
    }
    Ok(given.options())
}
