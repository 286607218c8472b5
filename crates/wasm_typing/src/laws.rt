//! What the faults of modules have to do with their typing.

ghost use Rattle.wasm_typing.specs.Laws.{FaultFreeWhereTyped, FirstWhereStops, ToldWhereUntyped, ToldOrTyped, TypedOrOneFault};

/// A module has no fault exactly where it is typed, and the fault that is found and told is the first one. Where each of its
/// parts has a place, as in one that is read, a module is typed or has exactly one first fault.
pub fn faults_decide_typing()
    ensures fault_free { FaultFreeWhereTyped }
    ensures first { FirstWhereStops }
    ensures told { ToldWhereUntyped }
    ensures typed { ToldOrTyped }
    ensures either { TypedOrOneFault }
{}
