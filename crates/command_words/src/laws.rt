//! What holds of the definitions alone.

ghost use Rattle.command_words.specs.Laws.{PlainWordsAreTaken, TakenWordsAreRead};

/// Plain words are never refused, and lead to the request that they name.
#[tactic(auto, using(crate::proofs::Plain::plain_words))]
pub fn plain_words_are_taken()
    ensures { PlainWordsAreTaken }
{}

/// Words that clap's command takes are those that lead to a request.
#[tactic(auto, using(crate::proofs::Readings::taken_words))]
pub fn taken_words_are_read()
    ensures { TakenWordsAreRead }
{}
