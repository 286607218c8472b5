//! What holds of the format alone.

ghost use Rattle.comp_reader.specs.Laws.{OneReading};

/// Bytes are exactly one component, or are refused at exactly one place for exactly one reason.
pub fn one_reading()
    ensures { OneReading }
{}
