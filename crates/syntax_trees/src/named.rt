//! What has a name, and sets of names.

ghost use Rattle.std.specs.Prelude.{◌≡◌, ℕ, List, IfOk, OnOk, OnErr, not, ◌||◌};
ghost use Rattle.std.specs.Str.{bytes_eq};
ghost use Rattle.syntax_trees.specs.Names.{has};

use std::alloc::AllocError;
use std::collections::BTreeSet;

/// What has a name.
pub trait Named {
    ghost use Rattle.std.specs.Prelude.{ℕ, List};

    /// The name's bytes.
    ghost name: { Self → List ℕ };

    /// The name.
    fn name(&self) -> &str
        ensures { result.now ≡ name self.now };
}

/// Adds a name to a set, and answers whether it is new. It fails for want of memory alone, and then leaves the set as it
/// was.
pub fn adds<'a>(seen: &mut BTreeSet<&'a str>, name: &'a str) -> Result<bool, AllocError>
    ensures new { IfOk result (λ added. added ≡ not (has seen.old name.now)) }
    ensures all { OnOk result ((q : List ℕ) → has seen.new q ≡ (bytes_eq name.now q || has seen.old q)) }
    ensures err { OnErr result (seen.new.keys ≡ seen.old.keys) }
{
    Ok(seen.insert(name)?)
}
