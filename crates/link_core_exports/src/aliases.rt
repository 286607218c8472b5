//! What an alias of an export of a core instance stands for.

ghost use Rattle.std.specs.Prelude.{◌≡◌, Some, None, Ok, Err, MatchOption, MatchResult};
ghost use Rattle.std.specs.List.{slice_get};
ghost use Rattle.faults.specs.Faults.{IfFault};
ghost use Rattle.link_spec.specs.Computed.{core_aliased};

use crate::core_item::CoreItem;
use crate::exports::CoreExports;
use crate::names::missing;
use comp_tree::Sort;
use faults::MemoryOr;
use link_spec::LinkWhy;
use std::alloc::Global;
use syntax_trees::Name;

/// What the core instance of an index exports.
pub(crate) fn exports_at<'r, 'a>(
    instances: &'r [CoreExports<'a>],
    index: u32,
) -> Option<&'r CoreExports<'a>>
    ensures { MatchOption result (slice_get instances.now index ≡ None) (λ e. slice_get instances.now index ≡ Some e.now) }
{
    instances.get(index as usize)
}

/// The export of this name and sort of a core instance, among core instances by their indices; or why there is none.
pub fn aliased<'a>(
    alloc: Global,
    instances: &[CoreExports<'a>],
    sort: Sort,
    instance: u32,
    name: &Name,
) -> Result<CoreItem<'a>, MemoryOr<LinkWhy>>
    ensures { MatchResult result (λ i. core_aliased instances.now sort instance name.now ≡ Ok i) (λ e. IfFault e (λ w. core_aliased instances.now sort instance name.now ≡ Err w)) }
{
    let Some(exports) = exports_at(instances, instance) else {
        return Err(MemoryOr::Fault(LinkWhy::Index));
    };
    let Some(item) = exports.exported(name.as_str()) else {
        return Err(missing(alloc, name.as_str()));
    };
    if !item.is_of(sort) {
        return Err(MemoryOr::Fault(LinkWhy::Typing));
    }
    Ok(item)
}
