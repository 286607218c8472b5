//! Entries of layers.

ghost use Rattle.std.specs.Prelude.{◌≡◌, ℕ, List, IfOk};
ghost use Rattle.std.specs.BTreeMap.{get_by_text};
ghost use Rattle.syntax_trees.specs.Names.{first_named};
ghost use Rattle.laid_types.specs.Parts.{labels_of, parts_of};
ghost use Rattle.laid_types.specs.Layers.{AreThere, trees_of, type_of, part_numbers};
ghost use Rattle.laid_types.specs.Known.{Stands};

use crate::entry::Entry;
use crate::gathering::{
    case_count, depth_of, flat_of, holding_of, laying_of, payload_laying, top_of,
};
use crate::labels::first_places;
use crate::layer::ValTypeLayer;
use crate::trees::type_of;
use crate::types::LaidTypes;
use std::alloc::{AllocError, Global};
use std::collections::BTreeMap;
use syntax_trees::{Shared, ValType};

/// The entry of a type with these parts, whose labels stand at these places.
fn entry_with(
    alloc: Global,
    types: &LaidTypes,
    val_type: Shared<ValType>,
    parts: Vec<Option<usize>>,
    label_places: BTreeMap<String, usize>,
) -> Result<Entry, AllocError>
    requires there { AreThere types.now parts.items }
    requires parts { trees_of types.now parts.items ≡ parts_of val_type }
    requires labels { (q : List ℕ) → get_by_text label_places q ≡ first_named q (labels_of val_type) }
    ensures { IfOk result (λ e. e ≡ record { val_type = val_type; parts = parts.items }) }
{
    let laying = laying_of(types, val_type.get(), &parts);
    let payload = payload_laying(types, &parts);
    let payload_place = payload.behind_tag(case_count(val_type.get()));
    let flat = flat_of(alloc, types, val_type.get(), &parts)?;
    let holding = holding_of(types, val_type.get(), &parts);
    let depth = depth_of(types, &parts);
    let top = top_of(types, val_type.get(), &parts);
    Ok(Entry {
        val_type,
        laying,
        payload_place,
        flat,
        holding,
        depth,
        top,
        label_places,
        parts,
    })
}

/// The entry of a layer.
#[tactic(auto, using(crate::proofs::OfLayers::parts_of_layer, crate::proofs::OfLayers::labels_of_layer))]
pub(crate) fn entry_of(
    alloc: Global,
    types: &LaidTypes,
    layer: &ValTypeLayer<'_, '_>,
) -> Result<Entry, AllocError>
    requires { AreThere types.now (part_numbers layer.now) }
    ensures val_type { IfOk result (λ e. e.val_type ≡ type_of types.now layer.now) }
    ensures stands { IfOk result (λ e. Stands types.now e) }
{
    let val_type = Shared::new(alloc, type_of(alloc, types, layer)?)?;
    let parts = layer.parts(alloc)?;
    let labels = layer.labels(alloc)?;
    let label_places = first_places(alloc, &labels)?;
    let made = entry_with(alloc, types, val_type, parts, label_places)?;
    Ok(made)
}
