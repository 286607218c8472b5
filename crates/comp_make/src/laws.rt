//! What holds of the bytes alone: what is written of a number or an opcode is read back.

ghost use Rattle.std.specs.Prelude.{◌^◌};
ghost use Rattle.ca_base.specs.Items.{s32, s33, s64};
ghost use Rattle.wasm_code_reader.specs.Reasons.{numbers};
ghost use Rattle.comp_make.specs.Laws.{UnsignedIsRead, SignedIsRead, NumericIsRead, LoadIsRead, StoreIsRead};

/// In front of any other bytes, the bytes of a number are read as that number.
pub fn numbers_are_read()
    ensures unsigned { UnsignedIsRead }
    ensures signed_32 { SignedIsRead (s32 numbers) (2 ^ 31) }
    ensures signed_33 { SignedIsRead (s33 numbers) (2 ^ 32) }
    ensures signed_64 { SignedIsRead (s64 numbers) (2 ^ 63) }
{}

/// The opcode of an instruction without immediates, and that of a load or a store, is read as that instruction.
pub fn opcodes_are_read()
    ensures numeric { NumericIsRead }
    ensures load { LoadIsRead }
    ensures store { StoreIsRead }
{}
