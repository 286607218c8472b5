//! Blanks, words and lines.

ghost use Rattle.std.specs.Prelude.{◌≡◌, ◌≤◌, ◌==◌, length, None, Some, MatchOption};
ghost use Rattle.std.specs.List.{prefix_len, suffix_len, count_by};
ghost use Rattle.std.specs.Str.Lines.{strip_carriage_return};
ghost use Rattle.script_reader.specs.Script as scripts;

/// Whether a byte is a blank: a space or a tab.
pub fn is_blank(byte: u8) -> bool
    ensures { result ≡ scripts.is_blank byte }
{
    byte == b' ' || byte == b'\t'
}

/// How many blanks stand before a text.
fn blanks_before(text: &[u8]) -> usize
    ensures value { result ≡ prefix_len scripts.is_blank text.now }
    ensures within { result ≤ length text.now }
{
    text.iter().take_while(|byte| is_blank(**byte)).count()
}

/// How many blanks stand behind a text.
fn blanks_behind(text: &[u8]) -> usize
    ensures value { result ≡ suffix_len scripts.is_blank text.now }
    ensures within { result ≤ length text.now }
{
    text.iter()
        .rev()
        .take_while(|byte| is_blank(**byte))
        .count()
}

/// A text without the blanks before it.
fn without_blanks(text: &[u8]) -> &[u8]
    ensures { result.now ≡ scripts.without_blanks text.now }
{
    &text[blanks_before(text)..]
}

/// A text without the blanks behind it.
fn without_last_blanks(text: &[u8]) -> &[u8]
    ensures { result.now ≡ scripts.without_last_blanks text.now }
{
    &text[..text.len() - blanks_behind(text)]
}

/// A line without one carriage return at its end.
fn without_carriage_return(line: &[u8]) -> &[u8]
    ensures { result.now ≡ strip_carriage_return line.now }
{
    line.strip_suffix(b"\r").unwrap_or(line)
}

/// The text of a line: without one carriage return at its end, and then without blanks at both ends.
pub fn line_text(line: &[u8]) -> &[u8]
    ensures { result.now ≡ scripts.line_text line.now }
{
    without_last_blanks(without_blanks(without_carriage_return(line)))
}

/// What follows a word, where a text begins with it.
pub fn after<'a>(word: &[u8], text: &'a [u8]) -> Option<&'a [u8]>
    ensures { MatchOption result (scripts.after word.now text.now ≡ None) (λ rest. scripts.after word.now text.now ≡ Some rest.now) }
{
    text.strip_prefix(word)
}

/// What follows a mark of one byte, with or without blanks before it.
pub fn after_mark(mark: u8, text: &[u8]) -> Option<&[u8]>
    ensures { MatchOption result (scripts.after_mark mark text.now ≡ None) (λ rest. scripts.after_mark mark text.now ≡ Some rest.now) }
{
    match without_blanks(text) {
        [first, rest @ ..] if *first == mark => Some(rest),
        _ => None,
    }
}

/// How many lines end in a text.
fn line_ends(text: &[u8]) -> usize
    ensures { result ≡ count_by (λ b. b == 10) text.now }
{
    text.iter().filter(|byte| **byte == b'\n').count()
}

/// The number of the line in which the byte at a place stands.
pub fn line_at(place: usize, bytes: &[u8]) -> usize
    ensures { result ≡ scripts.line_at place bytes.now }
{
    line_ends(&bytes[..place.min(bytes.len())]) + 1
}
