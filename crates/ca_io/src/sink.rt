//! A sink of bytes.

ghost use Rattle.std.specs.Prelude.{◌≡◌, ℕ, ◌≤◌, ◌<◌, List, length, take, Option, IfOk, OnErr};
ghost use Rattle.ca_io.specs.Causes.{HasCause};
ghost use Rattle.ca_io.specs.Bytes.{grown};

use crate::failed::Failed;

/// A sink that takes bytes piece by piece.
pub trait Sink {
    /// The bytes taken so far, where the sink tells them.
    ghost taken: { Self → Option (List ℕ) };

    /// How often a write has failed. It never falls, and stays at `u64::MAX` once it stands there.
    ghost faults: { Self → ℕ };

    /// Takes a front of the part, of at least one byte where the part has one, and answers how many bytes it took.
    ///
    /// `Failed` comes only where the count of faults rose in this call, and then nothing was taken.
    fn write(&mut self, part: &[u8]) -> Result<usize, Failed>
        ensures bound { IfOk result (λ count. count ≤ length part.now) }
        ensures some { IfOk result (λ count. 0 < length part.now → 0 < count) }
        ensures ok { IfOk result (λ count. taken self.new ≡ grown (taken self.old) (take count part.now)) }
        ensures failed { OnErr result (taken self.new ≡ taken self.old) }
        ensures cause { HasCause (faults self.old) (faults self.new) result };
}
