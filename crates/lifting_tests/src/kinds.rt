//! Kinds of tables.

/// What is lifted.
#[derive(Clone, Copy)]
pub(crate) enum Lifts {
    Load,
    LoadArguments,
    LoadElements,
    LoadInteger,
    Lift,
    LiftArguments,
}

/// A kind of tables.
#[derive(Clone, Copy)]
pub(crate) enum Kind {
    Lifted(Lifts),
    WithTable(Lifts),
    Texts,
    Layout,
    Parts,
    Label,
    Aligned,
    Doubled,
    DoubledValue,
}

/// What a word lifts.
fn lifts_of(word: &str) -> Option<Lifts> {
    match word {
        "load" => Some(Lifts::Load),
        "load-arguments" => Some(Lifts::LoadArguments),
        "load-elements" => Some(Lifts::LoadElements),
        "load-integer" => Some(Lifts::LoadInteger),
        "lift" => Some(Lifts::Lift),
        "lift-arguments" => Some(Lifts::LiftArguments),
        _ => None,
    }
}

/// What a word lifts, with a table of handles or without.
fn lifted(word: &str) -> Option<Kind> {
    match word.strip_suffix("-handles") {
        Some(word) => Some(Kind::WithTable(lifts_of(word)?)),
        None => Some(Kind::Lifted(lifts_of(word)?)),
    }
}

/// The kind of tables that a word names.
pub(crate) fn kind_of(word: &str) -> Option<Kind> {
    match word {
        "load-texts" => Some(Kind::Texts),
        "layout" => Some(Kind::Layout),
        "parts" => Some(Kind::Parts),
        "label" => Some(Kind::Label),
        "aligned" => Some(Kind::Aligned),
        "doubled" => Some(Kind::Doubled),
        "load-doubled" => Some(Kind::DoubledValue),
        _ => lifted(word),
    }
}
