//! Instructions have the types and widths with which they are validated.

ghost use Rattle.machine_tests.specs.Agreement.{NumericTypesAgree, LoadsAgree, StoresAgree};

/// Numeric instructions have the types of validation; loads give values of its types, and loads and stores read and write as
/// many bytes as it compares alignments with.
pub(crate) fn types_are_those_of_validation()
    ensures numeric { NumericTypesAgree }
    ensures loads { LoadsAgree }
    ensures stores { StoresAgree }
{}
