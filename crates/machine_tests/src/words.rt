//! Words of texts.

ghost use Rattle.std.specs.Prelude.{◌≡◌, ℕ, List, ◌∷◌, true};
ghost use Rattle.syntax_trees.specs.declared.module_types.ValType.{ValType};
ghost use Rattle.wasm_numbers.specs.Types.{AreWords};

use crate::hex::hex;
use std::alloc::Global;
use std::fmt::Write;
use std::test::Fail;
use syntax_trees::module_types::ValType;

/// The words of a text, as hexadecimal numbers, between which a letter stands. A line stands for none.
pub(crate) fn words_of(alloc: Global, text: &str, between: char) -> Result<Vec<u64>, Fail> {
    let mut words = Vec::new(alloc);
    for word in text.trim_matches('-').split(between) {
        if !word.is_empty() {
            words.push(hex(word))?;
        }
    }
    Ok(words)
}

/// Writes words as hexadecimal numbers, or a line where there are none.
pub(crate) fn write_words(text: &mut String, words: &[u64]) -> Result<(), Fail> {
    if words.is_empty() {
        text.push('-')?;
    }
    let mut between = "";
    for word in words {
        write!(text, "{between}{word:x}")?;
        between = " ";
    }
    Ok(())
}

/// Whether a word is one of a type.
fn is_word(val_type: ValType, word: u64) -> bool
    ensures { result ≡ true → (types : List ValType) → (words : List ℕ) → AreWords types words → AreWords (val_type ∷ types) (word ∷ words) }
{
    match val_type {
        ValType::I32 => word < 1 << 32,
        ValType::I64 => true,
    }
}

/// Whether words are those of types.
pub(crate) fn are_words(types: &[ValType], words: &[u64]) -> bool
    ensures { result ≡ true → AreWords types.now words.now }
{
    let Some((first, types)) = types.split_first() else {
        return words.is_empty();
    };
    let Some((word, words)) = words.split_first() else {
        return false;
    };
    is_word(*first, *word) && are_words(types, words)
}
