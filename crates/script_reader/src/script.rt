//! What a script says.

ghost use Rattle.std.specs.Prelude.{◌≡◌, ◌≤◌};
ghost use Rattle.script_reader.specs.Script.{fuel_limit};

use std::marker::Model;
use syntax_trees::{Name, Seq, Values};

/// A call of an exported function.
#[derive(Drop)]
pub struct Call {
    /// The function's name, as it is written.
    pub name: Name,
    /// The arguments, in order. In a script that was read there is one for each parameter, of its type.
    pub values: Values,
}

/// What happens in a run, by its script.
#[derive(Drop)]
pub enum Item {
    /// An exported function is called.
    Call(Call),
    /// The call of this number, in order and counted from 1, is asked to come to an end.
    Cancel(u32),
}

/// A script: what decides the free choices of a run.
#[derive(Drop)]
pub struct Script {
    fuel: u32,
    picks: Seq<u32>,
    items: Seq<Item>,
}

impl Model for Script {
    ghost use Rattle.std.specs.Prelude.{◌≤◌};
    ghost use Rattle.script_reader.specs.Script as scripts;
    ghost use Rattle.script_reader.specs.Script.{fuel_limit};
    ghost use Rattle.script_reader.specs.contracts.script.Item as an_item;
    ghost use Rattle.std.specs.Coded.{codes};

    ghost Value = { scripts.Script };

    ghost coded = { Prim.hlevel (codes, an_item.the_row.coded) };

    ghost view = { λ s. record { fuel = s.fuel; picks = s.picks; items = s.items } };

    ghost invariant = { λ s. (1 ≤ s.fuel) × (s.fuel ≤ fuel_limit) };
}

impl Script {
    /// The script with so many units of fuel, these picks and these items.
    pub(crate) fn new(fuel: u32, picks: Seq<u32>, items: Seq<Item>) -> Script
        requires { (1 ≤ fuel) × (fuel ≤ fuel_limit) }
        ensures { result ≡ record { fuel = fuel; picks = picks; items = items } }
    {
        Script { fuel, picks, items }
    }

    /// The units of fuel of the run: from 1 to 1,000,000,000.
    pub fn fuel(&self) -> u32
        ensures value { result ≡ self.now.fuel }
        ensures range { (1 ≤ result) × (result ≤ fuel_limit) }
    {
        self.fuel
    }

    /// Which alternative is taken at each choice of the run, in order; behind them the first one is.
    pub fn picks(&self) -> &[u32]
        ensures { result.now ≡ self.now.picks }
    {
        self.picks.as_slice()
    }

    /// What happens in the run, in order.
    pub fn items(&self) -> &[Item]
        ensures { result.now ≡ self.now.items }
    {
        self.items.as_slice()
    }
}
