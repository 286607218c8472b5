//! Characters between quotes.

ghost use Rattle.std.specs.Prelude.{◌≡◌, [], ◌∷◌, ◌++◌, OnOk};
ghost use Rattle.std.specs.List.{flat_map};
ghost use Rattle.std.specs.Str.{chars};
ghost use Rattle.std.specs.Char.Escape.{escape_unicode};
ghost use Rattle.syntax_trees.specs.CharText.{char_text, quoted, quoted_chars};

use faults::Memory;
use syntax_trees::Name;

/// Appends a character's code, as `\u{e9}`. It fails for want of memory alone.
pub(crate) fn push_code(c: char, to: &mut Vec<u8>) -> Result<(), Memory>
    ensures { OnOk result (to.new.items ≡ to.old.items ++ escape_unicode c) }
{
    for letter in c.escape_unicode() {
        to.push(letter as u8)?;
    }
    Ok(())
}

/// Appends a character that stands between quotes: as it is where it is a printable one of ASCII, with a backslash before
/// it where it is the quote or a backslash, and any other one as its code. It fails for want of memory alone.
fn push_char(quote: char, c: char, to: &mut Vec<u8>) -> Result<(), Memory>
    ensures { OnOk result (to.new.items ≡ to.old.items ++ char_text quote c) }
{
    if ' ' <= c && c <= '~' {
        if c == quote || c == '\\' {
            to.push(b'\\')?;
            to.push(c as u8)?;
            return Ok(());
        }
        to.push(c as u8)?;
        return Ok(());
    }
    push_code(c, to)
}

/// Appends a character between single quotes. It fails for want of memory alone.
pub fn push_quoted_char(c: char, to: &mut Vec<u8>) -> Result<(), Memory>
    ensures { OnOk result (to.new.items ≡ to.old.items ++ quoted_chars 39 (c ∷ [])) }
{
    to.push(b'\'')?;
    push_char('\'', c, to)?;
    to.push(b'\'')?;
    Ok(())
}

/// Appends the characters of a text as they stand between double quotes. It fails for want of memory alone.
fn push_chars(text: &Name, to: &mut Vec<u8>) -> Result<(), Memory>
    ensures { OnOk result (to.new.items ≡ to.old.items ++ flat_map (char_text 34) (chars text.now)) }
{
    for c in text.as_str().chars() {
        push_char('"', c, to)?;
    }
    Ok(())
}

/// Appends a text between double quotes. It fails for want of memory alone.
pub fn push_quoted(text: &Name, to: &mut Vec<u8>) -> Result<(), Memory>
    ensures { OnOk result (to.new.items ≡ to.old.items ++ quoted 34 text.now) }
{
    to.push(b'"')?;
    push_chars(text, to)?;
    to.push(b'"')?;
    Ok(())
}
