//! The laws of the formats are called once.

/// What holds of the format of scripts.
fn scripts_have_laws() {
    script_reader::one_script();
    script_reader::scripts_are_texts();
    script_reader::first_fault_is_told();
    script_reader::arguments_are_texts();
    script_reader::calls_are_lines();
    script_reader::other_calls_are_refused();
    script_reader::fuel_is_a_line();
    script_reader::other_fuel_is_refused();
    script_reader::cancel_is_a_line();
    script_reader::other_cancels_are_refused();
    script_reader::picks_are_a_line();
    script_reader::other_picks_are_refused();
    script_reader::other_lines_are_refused();
    script_reader::scripts_call_exports();
}

/// What holds of the format of values.
fn values_have_laws() {
    value_reader::numbers_are_texts();
    value_reader::signed_numbers_are_texts();
    value_reader::literals_are_texts();
    value_reader::values_are_texts();
    value_reader::arguments_are_texts();
    value_reader::texts_are_one_value();
    value_reader::texts_are_one_call();
    value_reader::numbers_are_read_back();
    value_reader::signed_numbers_are_read_back();
    value_reader::texts_are_read_back();
    value_reader::chars_are_read_back();
    value_reader::values_are_read_back();
    value_reader::calls_are_read_back();
    value_reader::read_values_fit();
    value_reader::read_arguments_fit();
    value_reader::sound_values_are_small();
}

/// What holds of the formats.
pub(crate) fn formats_have_laws() {
    scripts_have_laws();
    values_have_laws();
}
