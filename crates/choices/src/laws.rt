//! What holds of every run of choices.

ghost use Rattle.choices.specs.Laws.{IsAmong, InTurn};

/// What is picked is one of the alternatives.
pub fn a_pick_is_among_the_alternatives()
    ensures { IsAmong }
{}

/// The picks are used in turn, each once, and only where there is more than one alternative.
pub fn picks_are_used_in_turn()
    ensures { InTurn }
{}
