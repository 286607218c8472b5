//! Values that are lifted over what is kept, under premises that `specs/Taking` and `specs/Lifted` name with each law: how often handles are lent and
//! what entries tell of ends is kept right, and a type that holds a borrow is lifted where its callers lend. Liftings keep the first two. Of lends all steps
//! do (`steps_keep_all_marks`); of ends that is proved but where elements go over (`staying`).

ghost use Rattle.run_laws.specs.Lifted.{ArgumentsLift, ResultsLift, ElementsLift};
ghost use Rattle.run_laws.specs.Taking.{ViewsAreAlike, EndTypesAreAlike, HandleLeaves, EndLeaves, HandleIsLent};

/// At an index of a table there is the same handle or readable end on both sides, and an end is of a type on both sides, so an index is refused on
/// both, for the same reason, or on none. What is kept stands for the world where an own handle leaves the table, where an end leaves it and its
/// set, and where a handle is lent for the call of a task.
pub fn indices_agree()
    ensures views { ViewsAreAlike }
    ensures ends { EndTypesAreAlike }
    ensures handle { HandleLeaves }
    ensures end { EndLeaves }
    ensures lent { HandleIsLent }
{}

/// What lifting comes to over what is kept, where a rule applies, the machine comes to in the world: the same value, or the same trap for the first
/// index that is refused or the first part that stands for nothing; and what is kept then stands for the world then, with the same lines. So it is
/// of the arguments that a task passes, of a task's result, and of the elements of a copy.
pub fn liftings_agree()
    ensures arguments { ArgumentsLift }
    ensures result { ResultsLift }
    ensures elements { ElementsLift }
{}
