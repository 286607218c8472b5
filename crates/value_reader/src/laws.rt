//! What holds of the format alone.

ghost use Rattle.value_reader.specs.Laws.{NumbersAreTexts, SignedAreTexts, LiteralsAreTexts, ValuesAreTexts, ArgumentsAreTexts, TextsAreOneValue, TextsAreOneCall, NumbersAreReadBack, SignedAreReadBack, TextsAreReadBack, CharsAreReadBack, ValuesAreReadBack, CallsAreReadBack, ReadValuesFit, ReadArgumentsFit, SoundValuesAreSmall};

/// A number is read exactly where it is written: one decimal digit or more, and none behind them.
pub fn numbers_are_texts()
    ensures { NumbersAreTexts }
{}

/// A signed number is read exactly where it is written: its digits, with a minus right before them where it is below 0.
pub fn signed_numbers_are_texts()
    ensures { SignedAreTexts }
{}

/// What is between quotes is read exactly where it is written: bytes and escapes, and the quote behind them.
pub fn literals_are_texts()
    ensures { LiteralsAreTexts }
{}

/// A value of any type is read exactly where the whole text is written as one of it, for each form that a type has.
pub fn values_are_texts()
    ensures { ValuesAreTexts }
{}

/// Arguments are read exactly where the text is written as theirs: values in parentheses, with a comma between two.
pub fn arguments_are_texts()
    ensures { ArgumentsAreTexts }
{}

/// A text is written as at most one value of a type.
pub fn texts_are_one_value()
    ensures { TextsAreOneValue }
{}

/// A text is written as at most one list of arguments.
pub fn texts_are_one_call()
    ensures { TextsAreOneCall }
{}

/// The text that a trace has of a number is read as that number.
pub fn numbers_are_read_back()
    ensures { NumbersAreReadBack }
{}

/// The text that a trace has of a signed number is read as that number.
pub fn signed_numbers_are_read_back()
    ensures { SignedAreReadBack }
{}

/// What a trace has between quotes for a text is read as that text.
pub fn texts_are_read_back()
    ensures { TextsAreReadBack }
{}

/// What a trace has between quotes for a character is read as that character.
pub fn chars_are_read_back()
    ensures { CharsAreReadBack }
{}

/// What `value_text` of `value_texts` writes for a value that fits its type is read as that value, where a script can write
/// the type's values as a trace does: it holds no handle, stream or future, and its labels have visible characters of ASCII
/// alone, and no backslashes, brackets, commas, colons and quotes. A label may be empty, but for one of flags, or one that
/// is all that stands for an element of a list: there the text is that of no flag, or of a list without elements.
pub fn values_are_read_back()
    ensures { ValuesAreReadBack }
{}

/// What `value_text` writes for the arguments of a call, as one tuple, is read as these arguments.
pub fn calls_are_read_back()
    ensures { CallsAreReadBack }
{}

/// What is read of a type fits it, and each number, character and text in it is in its range.
pub fn read_values_fit()
    ensures { ReadValuesFit }
{}

/// Arguments that are read are as many as the types, and each fits its type and is in its range.
pub fn read_arguments_fit()
    ensures { ReadArgumentsFit }
{}

/// A value of an unsigned integer of 32 bits that is in its range is a number below 2^32.
pub fn sound_values_are_small()
    ensures { SoundValuesAreSmall }
{}
