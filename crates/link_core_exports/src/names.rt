//! Names that stand twice, and names that are not there.

ghost use Rattle.std.specs.Prelude.{◌≡◌, IfOk, map};
ghost use Rattle.faults.specs.Faults.{IfFault};
ghost use Rattle.link_spec.specs.declared.fault.LinkWhy.TheVariants as why;
ghost use Rattle.link_spec.specs.Tests as tests;

use ca_base::first_twice;
use faults::MemoryOr;
use link_spec::LinkWhy;
use std::alloc::{AllocError, Global};
use syntax_trees::{Name, Named};

/// Whether no name stands twice. It fails for want of memory alone.
pub fn are_distinct<T: Named>(alloc: Global, items: &[T]) -> Result<bool, AllocError>
    ensures { IfOk result (λ distinct. distinct ≡ tests.are_distinct (map T.name items.now)) }
{
    Ok(first_twice(alloc, items)?.is_none())
}

/// This name is missing, or memory ran out.
pub fn missing(alloc: Global, name: &str) -> MemoryOr<LinkWhy>
    ensures { IfFault result (λ w. w ≡ why.Missing name.now) }
{
    match Name::new(alloc, name) {
        Ok(name) => MemoryOr::Fault(LinkWhy::Missing(name)),
        Err(_) => MemoryOr::Memory,
    }
}
