//! What lowers and built-ins use of what options give.

ghost use Rattle.std.specs.Prelude.{◌≡◌};
ghost use Rattle.link_spec.specs.Canons as canons;

use canon_types::realloc_type;
use link_core_exports::Given;

/// Whether options give what a lower or a built-in uses (Component Model, CanonicalABI.md, "Canonical ABI Options"): a memory, where
/// it uses one, and a core function that gives places in it, where it uses one.
pub fn can_be_used(given: &Given<'_>, memory_used: bool, realloc_used: bool) -> bool
    ensures { result ≡ canons.can_be_used memory_used realloc_used given.now }
{
    given.realloc_is(&realloc_type())
        && !given.has_post_return()
        && !given.has_callback()
        && (!memory_used || given.has_memory())
        && (!realloc_used || given.has_realloc())
}
