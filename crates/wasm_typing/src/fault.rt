//! Faults of modules.

ghost use Rattle.std.specs.Prelude.{◌≡◌};

use crate::spot::Spot;
use crate::why::ValidWhy;
use thiserror::Error;

/// A part of a module that is wrong, and how.
#[derive(Clone, Copy, Debug, Error)]
#[error("{why}")]
pub struct Fault {
    /// The part.
    pub spot: Spot,
    /// What is wrong.
    pub why: ValidWhy,
}

impl Fault {
    /// A part that is wrong so.
    pub fn at(spot: Spot, why: ValidWhy) -> Fault
        ensures { result ≡ record { spot = spot; why = why } }
    {
        Fault { spot, why }
    }
}

/// A fault of a part that has parts of its own.
#[derive(Clone, Copy)]
pub struct PartFault {
    /// Behind how many of them it stands.
    pub at: usize,
    /// What is wrong.
    pub why: ValidWhy,
}

/// A fault of a module.
#[derive(Clone, Copy, Debug, Error)]
#[error("at byte {place}: {why}")]
pub struct ValidFault {
    /// The function in whose body it stands, by its number among those that the module defines. `None` outside bodies.
    pub func: Option<u32>,
    /// The byte place, counted from the file's start: of the instruction, index or end that is wrong, or else the first
    /// byte of the item.
    pub place: usize,
    /// What is wrong.
    pub why: ValidWhy,
}
