//! The laws are called once.

/// What holds of the reader, of the validation and of the maker.
pub(crate) fn modules_have_laws() {
    wasm_reader::laws::one_reading();
    wasm_reader::laws::add_is_read();
    wasm_typing::laws::faults_decide_typing();
    comp_make::laws::numbers_are_read();
    comp_make::laws::opcodes_are_read();
}
