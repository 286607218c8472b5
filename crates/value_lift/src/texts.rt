//! Texts.

ghost use Rattle.std.specs.Prelude.{◌≡◌, true, false, List, MatchResult};
ghost use Rattle.std.specs.Str.{is_utf8};
ghost use Rattle.value_lift.specs.declared.trap.LiftWhy.TheVariants.{BadUtf8};
ghost use Rattle.syntax_trees.specs.declared.types.ValType.{ValType};
ghost use Rattle.value_lift.specs.Leaves.{trap};
ghost use Rattle.value_lift.specs.Ledger.{MayTake};
ghost use Rattle.value_lift.specs.Over.{string_of};

use crate::bytes::{bytes_at, is_inside};
use crate::ledger::Ledger;
use crate::trap::{LiftError, LiftTrap, LiftWhy};
use std::alloc::Global;
use syntax_trees::{Name, Value};

/// Bytes as text, where they are UTF-8.
#[tactic(auto, using(crate::proofs::Places::no_text, crate::proofs::Places::some_text))]
fn as_text(bytes: &[u8], place: u64) -> Result<&str, LiftTrap>
    ensures { MatchResult result (λ s. (s.now ≡ bytes.now) × (is_utf8 bytes.now ≡ true)) (λ e. (e ≡ trap BadUtf8 place) × (is_utf8 bytes.now ≡ false)) }
{
    match std::str::from_utf8(bytes) {
        Ok(text) => Ok(text),
        Err(_) => Err(LiftTrap::at(LiftWhy::BadUtf8, place)),
    }
}

/// The text of so many bytes of the memory, where their place and number stand at another place.
pub(crate) fn string_of<L: Ledger>(
    alloc: Global,
    memory: &[u8],
    ledger: &mut L,
    at: u32,
    length: u32,
    place: u64,
) -> Result<Value, LiftError>
    ensures { (types : List ValType) → MayTake (L.ledger types) (string_of (L.ledger types) at length memory.now place (L.kept ledger.old)) (L.kept ledger.new) result }
{
    if !is_inside(memory, at, u128::from(length)) {
        return Err(LiftTrap::at(LiftWhy::Bounds, place).into());
    }
    ledger.count(length, place)?;
    let bytes = bytes_at(memory, at as usize, length as usize);
    let text = as_text(bytes, place)?;
    Ok(Value::String(Name::new(alloc, text)?))
}
