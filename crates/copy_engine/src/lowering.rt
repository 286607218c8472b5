//! Values into a memory of a store.

ghost use Rattle.std.specs.Prelude.{◌≡◌, ◌≤◌, ◌∷◌, [], false, true, length, IfOk};
ghost use Rattle.syntax_trees.specs.Ends.{has_end};
ghost use Rattle.syntax_trees.specs.Fits.{fits};
ghost use Rattle.syntax_trees.specs.Flat.{flat};
ghost use Rattle.laid_types.specs.Handles.{has_handle};
ghost use Rattle.value_lower.specs.Fitting.{AllFit};
ghost use Rattle.value_lower.specs.Lowering.{stored, all_stored, placed, flat_lowered};
ghost use Rattle.copy_engine.specs.Rooms.{Same, IfTold, Lowers, state_of};

use crate::nested::NestedTrap;
use crate::store_room::StoreRoom;
use laid_types::LaidType;
use std::alloc::Global;
use syntax_trees::Value;
use value_lower::{
    LowerError, Words, lower_flat_bare, lower_placed_bare, store_bare, store_list_bare,
};

impl<'a> StoreRoom<'a> {
    /// The core values that stand for a value, as `lower_flat_bare` of value_lower answers them: the store, the fuel and the kept call are
    /// then what the plan comes to over them.
    pub fn lower_flat(
        &mut self,
        alloc: Global,
        value: &Value,
        t: &LaidType<'_>,
    ) -> Result<Words, LowerError<NestedTrap>>
        requires handles { has_handle t.now ≡ false }
        requires ends { has_end t.now ≡ false }
        requires fits { fits value.now t.now ≡ true }
        requires few { length (flat t.now) ≤ 16 }
        ensures same { IfTold result (Same self.old self.new) }
        ensures lowers { Lowers self.old.options (flat_lowered t.now value.now) (λ words. words) (state_of self.old) result (state_of self.new) }
        ensures count { IfOk result (λ words. length words ≡ length (flat t.now)) }
    {
        lower_flat_bare(alloc, self, value, t)
    }

    /// Stores a value at a place, as `store_bare` of value_lower.
    pub fn store(
        &mut self,
        alloc: Global,
        place: u32,
        value: &Value,
        t: &LaidType<'_>,
    ) -> Result<(), LowerError<NestedTrap>>
        requires handles { has_handle t.now ≡ false }
        requires ends { has_end t.now ≡ false }
        requires fits { fits value.now t.now ≡ true }
        ensures same { IfTold result (Same self.old self.new) }
        ensures lowers { Lowers self.old.options (stored t.now value.now place) (λ _. []) (state_of self.old) result (state_of self.new) }
    {
        store_bare(alloc, self, place, value, t)
    }

    /// Stores values of a type one after the other from a place on, as `store_list_bare` of value_lower.
    pub fn store_list(
        &mut self,
        alloc: Global,
        place: u32,
        values: &[Value],
        t: &LaidType<'_>,
    ) -> Result<(), LowerError<NestedTrap>>
        requires handles { has_handle t.now ≡ false }
        requires ends { has_end t.now ≡ false }
        requires fit { AllFit values.now t.now }
        ensures same { IfTold result (Same self.old self.new) }
        ensures lowers { Lowers self.old.options (all_stored t.now values.now place) (λ _. []) (state_of self.old) result (state_of self.new) }
    {
        store_list_bare(alloc, self, place, values, t)
    }

    /// Stores a value at a new place, as `lower_placed_bare` of value_lower, and answers the place.
    pub fn lower_placed(
        &mut self,
        alloc: Global,
        value: &Value,
        t: &LaidType<'_>,
    ) -> Result<u32, LowerError<NestedTrap>>
        requires handles { has_handle t.now ≡ false }
        requires ends { has_end t.now ≡ false }
        requires fits { fits value.now t.now ≡ true }
        ensures same { IfTold result (Same self.old self.new) }
        ensures lowers { Lowers self.old.options (placed t.now value.now) (λ place. place ∷ []) (state_of self.old) result (state_of self.new) }
    {
        lower_placed_bare(alloc, self, value, t)
    }
}
