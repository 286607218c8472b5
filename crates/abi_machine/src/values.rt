//! Values, words and places of copies: of their types, and inside memories.

ghost use Rattle.abi_machine.specs.sound.TypedPlans.{
  ArgumentsAreTyped,
  ResultIsTyped,
  ElementsAreTyped,
  ScriptValuesAreTyped,
  ArgumentsAreTaken,
  ResultIsTaken,
  ElementsAreTaken,
  PlansSettle,
};
ghost use Rattle.abi_machine.specs.sound.CopyPlaces.{FirstStandInside, CopiesStayInside, ReachedStandInside};
ghost use Rattle.abi_machine.specs.sound.Words.{FirstKeepsWords, WordsStayKept, ReachedKeepWords};
ghost use Rattle.abi_machine.specs.sound.TypedSteps.{TypedWorldsStay, TypedWorldsFeed};

/// What a task lifts from bytes is a value of its type, where the representations of all handles that were ever added to tables are below 2^32, and
/// so they are behind it: arguments, a result, and elements of a stream or a future. The values of a script that fit the types of parameters and
/// are in their ranges are of them.
pub fn lifted_values_are_typed()
    ensures arguments { ArgumentsAreTyped }
    ensures result { ResultIsTyped }
    ensures elements { ElementsAreTyped }
    ensures scripts { ScriptValuesAreTyped }
{}

/// A plan that lowers values of the types of parameters gives words that the core function takes, and one that lowers a result gives words that the
/// caller's core code takes. Each puts bytes inside the memory and asks for places with words of a realloc's type, whatever i32 is answered, over a
/// memory that does not shrink, and so does one that lowers elements where there is room for them. Followed as far as it goes at once, it leaves as
/// many bytes as there were.
pub fn plans_give_words()
    ensures arguments { ArgumentsAreTaken }
    ensures result { ResultIsTaken }
    ensures elements { ElementsAreTaken }
    ensures settles { PlansSettle }
{}

/// A task that waits in a canonical function was called with words of its parameters, and so were those passed by which another task called it;
/// words of context and representations are i32, also of handles that a lowering is to add. So it is in the first world, and so it stays in every
/// step, where what core code calls is given words of its parameters and the script passes no handle with another representation; and so it is in
/// each world that a run reaches, where core code does so in each.
pub fn words_stay_kept()
    ensures first { FirstKeepsWords }
    ensures stays { WordsStayKept }
    ensures reached { ReachedKeepWords }
{}

/// The place of each copy under way is an i32, and where elements hold anything and there are some, it is a multiple of their alignment and all of
/// them lie inside the memory of the canonical function that reads or writes. So it is in the first world, and so it stays in every step whose store
/// extends the one before, where words are kept so, and what core code calls is given words of its parameters; and so it is in each world that a run
/// reaches, where this is so of each.
pub fn copies_stay_inside()
    ensures first { FirstStandInside }
    ensures stays { CopiesStayInside }
    ensures reached { ReachedStandInside }
{}

/// Once all is instantiated, in a graph that has what its lifts, lowers and built-ins use, each task of a typed world that waits goes on with words
/// of what it waits at, plans of lowerings give words that are taken and put bytes inside the memory, and representations, words of context and
/// results that are kept for callers that wait are words of their types. A step leaves such a world, of which what the other laws keep holds too,
/// or comes to a trap, where what is answered is as `answers_are_words` says, what is passed is typed, and elements that are copied are put inside
/// the memory. In such a world there is a rule for core code, a callback gives its word, and a realloc that of a place.
pub fn typed_worlds_stay()
    ensures stays { TypedWorldsStay }
    ensures feeds { TypedWorldsFeed }
{}
