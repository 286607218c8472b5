//! The types of the core values in which values are passed.

ghost use Rattle.std.specs.Prelude.{◌≡◌, ◌≤◌, ◌<◌, ◌++◌, ◌∷◌, [], length, map};
ghost use Rattle.syntax_trees.specs.Flat.{at_most};
ghost use Rattle.comp_graph.specs.Needs.{core_val};

use std::marker::Model;
use syntax_trees::CoreType;
use syntax_trees::module_types::ValType;

/// At most 17 types of core values: those of parameters, and of one place in memory behind them. Contracts see the types.
#[derive(Drop)]
pub struct FewTypes {
    types: [ValType; 17],
    count: u8,
}

impl Model for FewTypes {
    ghost use Rattle.std.specs.Prelude.{◌≤◌, List, take};
    ghost use Rattle.std.specs.Coded.{coded_list};
    ghost use Rattle.syntax_trees.specs.contracts.module_types.ValType as val_type;
    ghost use Rattle.syntax_trees.specs.declared.module_types.ValType.{ValType};

    ghost Value = { List ValType };

    ghost coded = { coded_list val_type.the_row.coded };

    ghost view = { λ f. take f.count f.types };

    ghost invariant = { λ f. f.count ≤ 17 };
}

impl FewTypes {
    /// None.
    pub fn new() -> FewTypes
        ensures { result ≡ [] }
    {
        FewTypes {
            types: [ValType::I32; 17],
            count: 0,
        }
    }

    /// Adds one.
    pub fn push(&mut self, val_type: ValType)
        requires { length self.old < 17 }
        ensures { self.new ≡ self.old ++ val_type ∷ [] }
    {
        self.types[self.count as usize] = val_type;
        self.count += 1;
    }

    /// The types.
    pub fn as_slice(&self) -> &[ValType]
        ensures { result.now ≡ self.now }
    {
        &self.types[..self.count as usize]
    }

    /// The same types.
    pub fn again(&self) -> FewTypes
        ensures { result ≡ self.now }
    {
        FewTypes {
            types: self.types,
            count: self.count,
        }
    }
}

/// The type of core values that a flat type is.
pub fn val_type_of(flat: CoreType) -> ValType
    ensures { result ≡ core_val flat }
{
    match flat {
        CoreType::I32 => ValType::I32,
        CoreType::I64 => ValType::I64,
    }
}

/// The types of core values that flat types are.
fn val_types_of(flat: &[CoreType]) -> FewTypes
    requires { length flat.now ≤ 16 }
    ensures { result ≡ map core_val flat.now }
{
    let mut types = FewTypes::new();
    for core_type in flat {
        types.push(val_type_of(*core_type));
    }
    types
}

/// The types in which values of flat types are passed: of more than so many it is one place in memory.
pub fn passed(flat: &[CoreType], most: usize) -> FewTypes
    requires { most ≤ 16 }
    ensures types { result ≡ map core_val (at_most most flat.now) }
    ensures few { length result ≤ 16 }
{
    if flat.len() <= most {
        return val_types_of(flat);
    }
    let mut place = FewTypes::new();
    place.push(ValType::I32);
    place
}
