//! Kinds of tables.

/// What is told of a case.
#[derive(Clone, Copy)]
pub(crate) enum What {
    Body,
    Module,
    File,
    Reading,
    Operation,
    Made,
    Text,
    Component,
}

/// What is wanted of a case.
#[derive(Clone, Copy)]
pub(crate) enum Wanted {
    /// What stands behind the last of such a mark.
    Behind(&'static str),
    /// This word, of the whole case.
    Always(&'static str),
}

/// A kind of tables.
#[derive(Clone, Copy)]
pub(crate) struct Kind {
    pub(crate) what: What,
    /// What stands between two cases.
    pub(crate) between: &'static str,
    pub(crate) wanted: Wanted,
}

/// The kind of tables whose cases are lines, of which this is told and wanted.
fn of_lines(what: What, wanted: Wanted) -> Option<Kind> {
    Some(Kind {
        what,
        between: "\n",
        wanted,
    })
}

/// The same of paragraphs.
fn of_paragraphs(what: What, wanted: Wanted) -> Option<Kind> {
    Some(Kind {
        what,
        between: "\n\n",
        wanted,
    })
}

/// The kind of tables that a word names.
pub(crate) fn kind_of(word: &str) -> Option<Kind> {
    match word {
        "body" => of_lines(What::Body, Wanted::Behind(" | ")),
        "module" => of_lines(What::Module, Wanted::Behind("| ")),
        "file" => of_lines(What::File, Wanted::Behind("| ")),
        "reading" => of_paragraphs(What::Reading, Wanted::Behind("\nis")),
        "operation" => of_lines(What::Operation, Wanted::Behind(" | ")),
        "made" => of_lines(What::Made, Wanted::Always("made")),
        "text" => of_paragraphs(What::Text, Wanted::Always("made")),
        "component" => of_lines(What::Component, Wanted::Always("made")),
        _ => None,
    }
}
