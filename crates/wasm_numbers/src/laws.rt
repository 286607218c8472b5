//! What the definitions of numeric instructions have in common.

ghost use Rattle.wasm_numbers.specs.Laws.{OperandsAreTaken, ResultsHaveTheirType};

/// Of operands of its types each numeric instruction makes something: a result, which is of its type, or a trap.
pub fn results_have_their_type()
    ensures operands { OperandsAreTaken }
    ensures results { ResultsHaveTheirType }
{}
