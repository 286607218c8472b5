//! Examples of texts that are lowered, worked out by hand.

ghost use Rattle.lowering_laws.specs.ValueExamples.{TextBeside, BesideIsApart, TextWithin, WithinIsNotApart};

/// A text whose bytes are given a place beside its own, and one whose bytes are given a place within.
pub fn texts()
    ensures beside { TextBeside }
    ensures apart { BesideIsApart }
    ensures within { TextWithin }
    ensures not_apart { WithinIsNotApart }
{}
