//! What holds of every run of a task, and of a subtask.

ghost use Rattle.tasks.specs.Laws.{ResolvesAtMostOnce, NoBorrowOnceResolved, WhatIsToldRises, LendsEndWithTheLastState};

/// A task resolves at most once.
pub fn a_task_resolves_at_most_once()
    ensures { ResolvesAtMostOnce }
{}

/// A resolved task has no live borrow handle.
pub fn a_resolved_task_has_no_borrow()
    ensures { NoBorrowOnceResolved }
{}

/// What the caller is told of a subtask rises, and the last of it is told once.
pub fn what_is_told_rises()
    ensures { WhatIsToldRises }
{}

/// What is lent for a call is lent until its last state is told.
pub fn lends_end_with_the_last_state()
    ensures { LendsEndWithTheLastState }
{}
