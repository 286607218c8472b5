//! Pairs of an instance and a type that is asked of it.

ghost use Rattle.std.specs.Prelude.{◌≡◌, ◌||◌, OnOk, OnErr};
ghost use Rattle.link_instances.specs.declared.pairs.Pair as declared;
ghost use Rattle.link_instances.specs.Pairs.{has_pair, same_pair};

use crate::references::InstanceRef;
use link_types::InstanceTypeRef;
use std::alloc::AllocError;
use std::collections::BTreeSet;

/// An instance and a type that is asked of it.
#[derive(Clone, Copy, PartialEq, Eq, PartialOrd, Ord)]
pub(crate) struct Pair {
    /// The instance.
    pub(crate) given: InstanceRef,
    /// The type.
    pub(crate) asked: InstanceTypeRef,
}

/// Whether a pair is among some.
pub(crate) fn has(pairs: &BTreeSet<Pair>, pair: Pair) -> bool
    ensures { result ≡ has_pair pairs.now pair }
{
    pairs.contains(&pair)
}

/// Adds a pair to some. It fails for want of memory alone, and then leaves them as they were.
pub(crate) fn add(pairs: &mut BTreeSet<Pair>, pair: Pair) -> Result<(), AllocError>
    ensures ok { OnOk result ((q : declared.Pair) → has_pair pairs.new q ≡ (same_pair pair q || has_pair pairs.old q)) }
    ensures err { OnErr result (pairs.new.keys ≡ pairs.old.keys) }
{
    pairs.insert(pair)?;
    Ok(())
}
