//! What holds of every run of tasks at an instance, where each enters only as the gate lets it.

ghost use Rattle.entry_gate.specs.Laws.{EachRunHasItsGate, AtMostOneHolds, EntryIsExclusive, NobodyIsPassed, BackpressureHolds, StackfulNeedsNone, WordsAreReadBack};

/// Each run has a gate that stands for it.
pub fn each_run_has_its_gate()
    ensures { EachRunHasItsGate }
{}

/// At most one task holds exclusive entry.
pub fn at_most_one_task_holds()
    ensures { AtMostOneHolds }
{}

/// A sync task or one with a callback enters, or goes on in its loop, only where no task holds exclusive entry.
pub fn entry_is_exclusive()
    ensures { EntryIsExclusive }
{}

/// A newcomer does not pass a task that waits to enter.
pub fn nobody_is_passed()
    ensures { NobodyIsPassed }
{}

/// No task enters under backpressure.
pub fn backpressure_holds()
    ensures { BackpressureHolds }
{}

/// A stackful task needs no exclusive entry.
pub fn stackful_tasks_need_no_entry()
    ensures { StackfulNeedsNone }
{}

/// A code and the index of a set, packed into a word, are read back.
pub fn words_are_read_back()
    ensures { WordsAreReadBack }
{}
