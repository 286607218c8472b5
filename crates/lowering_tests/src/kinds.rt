//! Kinds of tables.

/// What is lowered, and where to.
#[derive(Clone, Copy)]
pub(crate) enum Lowers {
    Store,
    StoreAll,
    Flatten,
    Place,
}

/// A kind of tables.
#[derive(Clone, Copy)]
pub(crate) enum Kind {
    Lowered(Lowers),
    Entered(Lowers),
    Large,
    Passed,
}

/// What a word lowers, and where to.
pub(crate) fn lowers_of(word: &str) -> Option<Lowers> {
    match word {
        "store" => Some(Lowers::Store),
        "all" => Some(Lowers::StoreAll),
        "flat" => Some(Lowers::Flatten),
        "place" => Some(Lowers::Place),
        _ => None,
    }
}

/// The kind of tables that a word names.
pub(crate) fn kind_of(word: &str) -> Option<Kind> {
    match word {
        "large" => Some(Kind::Large),
        "pass" => Some(Kind::Passed),
        _ => match word.strip_suffix("-handles") {
            Some(word) => Some(Kind::Entered(lowers_of(word)?)),
            None => Some(Kind::Lowered(lowers_of(word)?)),
        },
    }
}
