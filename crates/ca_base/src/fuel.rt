//! A budget of work.

ghost use Rattle.std.specs.Prelude.{◌≡◌, ◌-◌, ◌<◌, ◌↔◌, IsTrue};

use std::marker::Model;

/// A budget of work in units, from 0 to `u64::MAX`. Contracts see it as the number of units that are left.
#[derive(Drop)]
pub struct Fuel {
    units: u64,
}

impl Model for Fuel {
    ghost use Rattle.std.specs.Prelude.{ℕ};

    ghost Value = { ℕ };

    ghost view = { λ f. f.units };
}

impl Fuel {
    /// A budget of this many units.
    pub fn new(units: u64) -> Fuel
        ensures { result ≡ units }
    {
        Fuel { units }
    }

    /// The units that are left.
    pub fn left(&self) -> u64
        ensures { result ≡ self.now }
    {
        self.units
    }

    /// Spends one unit, and answers whether there was one. With none left it answers `false` and changes nothing.
    pub fn spend(&mut self) -> bool
        ensures spent { IsTrue result ↔ (0 < self.old) }
        ensures left { self.new ≡ self.old - 1 }
    {
        if self.units == 0 {
            return false;
        }
        self.units -= 1;
        true
    }
}
