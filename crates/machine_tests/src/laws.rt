//! The laws, and the examples of the definitions, are called once.

use crate::agreement::types_are_those_of_validation;
use crate::examples;

/// What holds of the machine, and of numeric instructions.
fn machine_has_laws() {
    wasm_store::laws::typed_stacks_never_get_stuck();
    wasm_store::laws::stacks_stay_typed();
    wasm_store::laws::added_modules_are_typed();
    wasm_store::laws::changed_stores_are_typed();
    wasm_store::laws::stores_without_hosts();
    wasm_store::laws::free_moves_end();
    wasm_store::laws::frames_stay_few();
    wasm_store::laws::moves_are_determined();
    wasm_numbers::laws::results_have_their_type();
    types_are_those_of_validation();
}

/// The definitions on small examples.
fn definitions_have_examples() {
    examples::numbers();
    examples::memories();
    examples::runs();
    examples::costs();
    examples::segments();
}

/// What holds of the definitions.
pub(crate) fn definitions_have_laws() {
    machine_has_laws();
    definitions_have_examples();
}
