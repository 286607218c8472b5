//! Kinds of tables.

/// What is told of a line.
#[derive(Clone, Copy)]
pub(crate) enum What {
    Type,
    Layout,
    Function,
    Text,
    Read,
    Arguments,
    Held,
    Holder,
    Length,
    Bytes,
    Script,
    Blank,
    Calls,
    Often,
    LongArgument,
}

/// What is wanted of a line.
#[derive(Clone, Copy)]
pub(crate) enum Wanted {
    /// What stands behind the last of such a mark.
    Behind(&'static str),
    /// This word, of the whole line.
    Always(&'static str),
}

/// A kind of tables.
#[derive(Clone, Copy)]
pub(crate) struct Kind {
    pub(crate) what: What,
    pub(crate) wanted: Wanted,
}

/// The kind of tables of which this is told and wanted.
fn some_kind(what: What, wanted: Wanted) -> Option<Kind> {
    Some(Kind { what, wanted })
}

/// The kind of tables of types and values that a word names.
fn of_types(word: &str) -> Option<Kind> {
    match word {
        "type" => some_kind(What::Type, Wanted::Behind(" = ")),
        "layout" => some_kind(What::Layout, Wanted::Behind(" | ")),
        "function" => some_kind(What::Function, Wanted::Behind(" |")),
        "text" => some_kind(What::Text, Wanted::Behind(" | ")),
        "misfit" => some_kind(What::Text, Wanted::Always("misfit")),
        _ => None,
    }
}

/// The kind of tables of the reader of values that a word names.
fn of_reading(word: &str) -> Option<Kind> {
    match word {
        "read" => some_kind(What::Read, Wanted::Behind(" | ")),
        "refused" => some_kind(What::Read, Wanted::Always("none")),
        "arguments" => some_kind(What::Arguments, Wanted::Behind(" | ")),
        "refused-arguments" => some_kind(What::Arguments, Wanted::Always("none")),
        "held" => some_kind(What::Held, Wanted::Behind(" = ")),
        "holder" => some_kind(What::Holder, Wanted::Behind(" = ")),
        "length" => some_kind(What::Length, Wanted::Behind(" = ")),
        "no-text" => some_kind(What::Bytes, Wanted::Always("none")),
        _ => None,
    }
}

/// The kind of tables of the reader of scripts that a word names.
fn of_scripts(word: &str) -> Option<Kind> {
    match word {
        "script" => some_kind(What::Script, Wanted::Behind(" => ")),
        "blank" => some_kind(What::Blank, Wanted::Behind(" = ")),
        "calls" => some_kind(What::Calls, Wanted::Behind(" = ")),
        "often" => some_kind(What::Often, Wanted::Behind(" = ")),
        "long-argument" => some_kind(What::LongArgument, Wanted::Behind(" = ")),
        _ => None,
    }
}

/// The kind of tables that a word names.
pub(crate) fn kind_of(word: &str) -> Option<Kind> {
    if let Some(kind) = of_types(word) {
        return Some(kind);
    }
    if let Some(kind) = of_reading(word) {
        return Some(kind);
    }
    of_scripts(word)
}
