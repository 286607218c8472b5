//! What holds of the definitions alone.

ghost use Rattle.wasm_reader.specs.Binary.{IsModule, IsRefused};
ghost use Rattle.wasm_reader.specs.Examples.{bytes_with, add_module, no_such_opcode};
ghost use Rattle.wasm_reader.specs.Laws.{OneReading};

/// Bytes are exactly one module, or are refused at exactly one place for exactly one reason.
pub fn one_reading()
    ensures { OneReading }
{}

/// The format has an example: these bytes are that module, and with another opcode they are refused.
pub fn add_is_read()
    ensures module { IsModule (bytes_with 0x6A) 0 add_module }
    ensures refused { IsRefused (bytes_with 0x06) 0 no_such_opcode }
{}
