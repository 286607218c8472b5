//! A source of files by name.

ghost use Rattle.std.specs.Prelude.{◌≡◌, ℕ, ◌≤◌, List, length, Option, IfOk, IfSome};
ghost use Rattle.ca_io.specs.Causes.{HasCause};
ghost use Rattle.ca_io.specs.Bytes.{ReadsAt};

use crate::failed::Failed;

/// Files by name, read piece by piece.
pub trait Files {
    /// The bytes under a name, where the source tells them.
    ghost held: { Self → List ℕ → Option (List ℕ) };

    /// How often a read has failed. It never falls, and stays at `u64::MAX` once it stands there.
    ghost faults: { Self → ℕ };

    /// Reads the bytes under a name from a place on into the front of a slice, and answers how many it read. 0 into a
    /// slice with room means that the file has no more bytes.
    ///
    /// `Failed` comes only where the count of faults rose in this call, as for a name that isn't there.
    fn read(&mut self, name: &str, at: u64, into: &mut [u8]) -> Result<usize, Failed>
        ensures bound { IfOk result (λ count. count ≤ length into.new) }
        ensures bytes { IfSome (held self.old name.now) (λ bytes. IfOk result (λ count. ReadsAt bytes at count into.new)) }
        ensures same { (other : List ℕ) → held self.new other ≡ held self.old other }
        ensures cause { HasCause (faults self.old) (faults self.new) result };
}
