//! What holds of the format alone.

ghost use Rattle.script_reader.specs.Laws.{OneScript, ScriptsAreTexts, FirstFaultIsTold, ArgumentsAreTexts, CallsAreLines, OtherCallsAreRefused, OtherLinesAreRefused, FuelIsALine, OtherFuelIsRefused, CancelIsALine, OtherCancelsAreRefused, PicksAreALine, OtherPicksAreRefused, ScriptsCallExports};

/// A text is exactly one script, or is refused at exactly one line for exactly one reason.
pub fn one_script()
    ensures { OneScript }
{}

/// A text is a script exactly where it is written as one.
pub fn scripts_are_texts()
    ensures { ScriptsAreTexts }
{}

/// A text is refused exactly at its first line that is not well said, and for the reason of that line.
pub fn first_fault_is_told()
    ensures { FirstFaultIsTold }
{}

/// Each other line is refused for the reason that its text has.
pub fn other_lines_are_refused()
    ensures { OtherLinesAreRefused }
{}

/// Arguments are values with commas and blanks between them, and a closing parenthesis.
pub fn arguments_are_texts()
    ensures { ArgumentsAreTexts }
{}

/// A call is the name of an export with its arguments in parentheses.
pub fn calls_are_lines()
    ensures { CallsAreLines }
{}

/// Each other text behind the word `call` is refused for the first reason that it has.
pub fn other_calls_are_refused()
    ensures { OtherCallsAreRefused }
{}

/// An amount of fuel is a number from 1 to 1,000,000,000.
pub fn fuel_is_a_line()
    ensures { FuelIsALine }
{}

/// Each other text behind the word `fuel` is refused: as no number, or as one out of range.
pub fn other_fuel_is_refused()
    ensures { OtherFuelIsRefused }
{}

/// The number of a call is that of one before it.
pub fn cancel_is_a_line()
    ensures { CancelIsALine }
{}

/// Each other text behind the word `cancel` is refused: as no number, or as that of no call before it.
pub fn other_cancels_are_refused()
    ensures { OtherCancelsAreRefused }
{}

/// Picks are numbers below 2^32 with one space between two.
pub fn picks_are_a_line()
    ensures { PicksAreALine }
{}

/// Each other text behind the word `pick` is refused.
pub fn other_picks_are_refused()
    ensures { OtherPicksAreRefused }
{}

/// Each item of a script calls an exported function, with values of its parameters' types, or cancels a call before it; its
/// picks are below 2^32.
pub fn scripts_call_exports()
    ensures { ScriptsCallExports }
{}
