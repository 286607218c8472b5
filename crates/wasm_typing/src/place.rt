//! Where the faults of a module stand.

ghost use Rattle.std.specs.Prelude.{◌≡◌, ℕ, ◌^◌, ◌≤◌, Some, MatchResult, IsSome};
ghost use Rattle.faults.specs.Faults.{IfFault};
ghost use Rattle.wasm_typing.specs.Untyped.{place_of, func_of};
ghost use Rattle.wasm_typing.specs.Finding.{told};

use crate::fault::{Fault, ValidFault};
use crate::module_places::ModulePlaces;
use crate::spot::{Spot, place_of};
use faults::MemoryOr;
use std::num::TryFromIntError;

/// The function in whose body a part stands. It fails where its number is 2^32 or more.
fn func_of(spot: Spot) -> Result<Option<u32>, TryFromIntError>
    ensures { MatchResult result (λ func. func ≡ func_of spot) (λ _. (number : ℕ) × (func_of spot ≡ Some number) × (2 ^ 32 ≤ number)) }
{
    match spot {
        Spot::Op(number, _) => Ok(Some(u32::try_from(number)?)),
        _ => Ok(None),
    }
}

/// The fault of a part that has a place, with its function and that place.
pub fn told(places: &ModulePlaces, fault: Fault) -> MemoryOr<ValidFault>
    requires { IsSome (place_of places.now fault.spot) }
    ensures fault { IfFault result (λ known. told places.now fault ≡ Some known) }
    ensures memory { result ≡ MemoryOr.Memory → (number : ℕ) × (func_of fault.spot ≡ Some number) × (2 ^ 32 ≤ number) }
{
    let place = place_of(places, fault.spot).unwrap();
    let Ok(func) = func_of(fault.spot) else {
        return MemoryOr::Memory;
    };
    MemoryOr::Fault(ValidFault {
        func,
        place,
        why: fault.why,
    })
}
