//! The text of a name.

ghost use Rattle.std.specs.Prelude.{◌≡◌, ◌++◌, OnOk, IfOk};
ghost use Rattle.syntax_trees.specs.NameText.{char_text, name_text};

use crate::characters::push_code;
use faults::Memory;
use std::alloc::Global;
use syntax_trees::{Bytes, Name, Seq};

/// Appends a character: as it is where it is a visible one of ASCII but the backslash, and else its code.
fn push_char(c: char, text: &mut Vec<u8>) -> Result<(), Memory>
    ensures { OnOk result (text.new.items ≡ text.old.items ++ char_text c) }
{
    if '!' <= c && c <= '~' && c != '\\' {
        text.push(c as u8)?;
        return Ok(());
    }
    push_code(c, text)
}

/// Appends the text of a name (`name_text`). It fails for want of memory alone.
pub fn push_name(name: &Name, text: &mut Vec<u8>) -> Result<(), Memory>
    ensures { OnOk result (text.new.items ≡ text.old.items ++ name_text name.now) }
{
    for c in name.as_str().chars() {
        push_char(c, text)?;
    }
    Ok(())
}

/// The text of a name: its characters, of which all but the visible ones of ASCII, and the backslash, stand as their
/// codes, like `\u{e9}`. It fails for want of memory alone.
pub fn name_text(alloc: Global, name: &Name) -> Result<Bytes, Memory>
    ensures { IfOk result (λ text. text ≡ name_text name.now) }
{
    let mut text = Vec::new(alloc);
    push_name(name, &mut text)?;
    Ok(Seq::from_vec(text))
}
