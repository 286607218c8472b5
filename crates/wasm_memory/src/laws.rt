//! What loads find of what was stored.

ghost use Rattle.wasm_memory.specs.Laws.{StoredIsLoaded, OthersAreLoaded, LoadsHaveTheirType};

/// What is stored is loaded again from its place, but for the bits that are not stored, other places are loaded as before, and
/// what is loaded of bytes is a value of the load's type.
pub fn loads_find_what_was_stored()
    ensures stored { StoredIsLoaded }
    ensures others { OthersAreLoaded }
    ensures typed { LoadsHaveTheirType }
{}
