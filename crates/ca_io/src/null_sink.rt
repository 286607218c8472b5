//! A sink that keeps nothing.

ghost use Rattle.std.specs.Prelude.{◌≡◌, ℕ, ◌≤◌, ◌<◌, List, length, take, Option, None, IfOk, OnErr, IsOk};
ghost use Rattle.ca_io.specs.Bytes.{grown};
ghost use Rattle.ca_io.specs.Causes.{HasCause};

use crate::failed::Failed;
use crate::sink::Sink;

/// A sink that takes all that is written to it and keeps none of it. It takes no memory, and no write fails. It does not
/// tell what it took.
#[derive(Clone, Copy)]
pub struct NullSink;

impl Sink for NullSink {
    ghost taken = { λ s. None };

    ghost faults = { λ s. 0 };

    /// Takes the whole part, and never fails.
    fn write(&mut self, part: &[u8]) -> Result<usize, Failed>
        ensures bound { IfOk result (λ count. count ≤ length part.now) }
        ensures some { IfOk result (λ count. 0 < length part.now → 0 < count) }
        ensures ok { IfOk result (λ count. let nothing : Option (List ℕ) = None in nothing ≡ grown None (take count part.now)) }
        ensures failed { OnErr result (let nothing : Option (List ℕ) = None in nothing ≡ None) }
        ensures cause { HasCause 0 0 result }
        ensures never_fails { IsOk result }
        ensures whole { IfOk result (λ count. count ≡ length part.now) }
    {
        Ok(part.len())
    }
}
