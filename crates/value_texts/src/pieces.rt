//! Pieces of texts.

ghost use Rattle.std.specs.Prelude.{◌≡◌, ◌++◌, OnOk};
ghost use Rattle.std.specs.Fmt.{decimal};

use crate::names::push_name;
use crate::text::Text;
use faults::Memory;
use std::alloc::Global;
use syntax_trees::Name;

/// Appends a number in decimal digits. It fails for want of memory alone.
pub fn push_number(alloc: Global, number: u32, to: &mut Vec<u8>) -> Result<(), Memory>
    ensures { OnOk result (to.new.items ≡ to.old.items ++ decimal number) }
{
    let digits = number.to_string(alloc)?;
    to.extend_from_slice(digits.as_bytes())?;
    Ok(())
}

/// Appends a word. It fails for want of memory alone.
pub fn push_word(word: &[u8], to: &mut Vec<u8>) -> Result<(), Memory>
    ensures { OnOk result (to.new.items ≡ to.old.items ++ word.now) }
{
    to.extend_from_slice(word)?;
    Ok(())
}

/// Labels, as names.
pub struct Labels;

impl Text for Labels {
    ghost use Rattle.syntax_trees.specs.NameText.{name_text};

    type Item = Name;

    ghost text = { name_text };

    fn push(_alloc: Global, item: &Name, to: &mut Vec<u8>) -> Result<(), Memory> {
        push_name(item, to)
    }
}
