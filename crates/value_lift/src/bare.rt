//! Values without handles and ends.

ghost use Rattle.std.specs.Prelude.{◌≡◌, ◌≤◌, false, length};
ghost use Rattle.faults.specs.Faults.{MayMake};
ghost use Rattle.syntax_trees.specs.Ends.{has_end};
ghost use Rattle.syntax_trees.specs.Flat.{flat};
ghost use Rattle.laid_types.specs.Handles.{has_handle};
ghost use Rattle.value_lift.specs.Lifting.{IsFor, load, load_list, lift_flat};

use crate::by_index::ByIndex;
use crate::counting::LiftOf;
use crate::loads::{load_by, load_list_by};
use crate::trap::LiftError;
use crate::words::word_value_at;
use laid_types::LaidType;
use std::alloc::Global;
use syntax_trees::{Value, Values};

/// The value of a type at a place of a memory, as `load` lifts it (Component Model, CanonicalABI.md, "Loading"). The type holds no
/// handle and no end of a stream or a future, so no table is needed.
///
/// # Errors
///
/// As for `load`, but for `Refused`.
#[tactic(auto, using(crate::proofs::ByItself::loads_bare))]
pub fn load_bare(
    alloc: Global,
    memory: &[u8],
    place: u32,
    t: &LaidType<'_>,
    what: LiftOf,
) -> Result<Value, LiftError>
    requires handles { has_handle t.now ≡ false }
    requires ends { has_end t.now ≡ false }
    requires whole { IsFor what t.now }
    ensures { MayMake (λ v. v) (load what t.now memory.now place) result }
{
    let mut ledger = ByIndex { left: what.most() };
    load_by(alloc, memory, &mut ledger, place, &t.numbered())
}

/// So many values of a type, one after the other from a place of a memory on, as `load_list` lifts them. The type holds no handle
/// and no end of a stream or a future, so no table is needed.
///
/// # Errors
///
/// As for `load_list`, but for `Refused`.
#[tactic(auto, using(crate::proofs::ByItself::lists_bare))]
pub fn load_list_bare(
    alloc: Global,
    memory: &[u8],
    place: u32,
    count: u32,
    t: &LaidType<'_>,
) -> Result<Values, LiftError>
    requires handles { has_handle t.now ≡ false }
    requires ends { has_end t.now ≡ false }
    ensures { MayMake (λ v. v) (load_list t.now memory.now place count) result }
{
    let mut ledger = ByIndex {
        left: LiftOf::Value.most(),
    };
    load_list_by(alloc, memory, &mut ledger, place, count, &t.numbered())
}

/// The value of a type for which core values stand, over a memory, as `lift_flat` lifts it (Component Model, CanonicalABI.md, "Flat
/// Lifting"). The type holds no handle and no end of a stream or a future, so no table is needed.
///
/// # Errors
///
/// As for `lift_flat`, but for `Refused`.
#[tactic(auto, using(crate::proofs::ByItself::flat_bare))]
pub fn lift_flat_bare(
    alloc: Global,
    memory: &[u8],
    t: &LaidType<'_>,
    words: &[u64],
    what: LiftOf,
) -> Result<Value, LiftError>
    requires handles { has_handle t.now ≡ false }
    requires ends { has_end t.now ≡ false }
    requires few { length words.now ≤ 16 }
    requires words { length words.now ≡ length (flat t.now) }
    requires whole { IsFor what t.now }
    ensures { MayMake (λ v. v) (lift_flat what t.now memory.now words.now) result }
{
    let mut ledger = ByIndex { left: what.most() };
    word_value_at(alloc, memory, &mut ledger, words, 0, &t.numbered())
}
