//! What every step keeps beside marks of tasks: memories, ends, what is lent, and the places of waits.

ghost use Rattle.run_laws.specs.keeping.Still.{StepKeepsMemories, FirstKeepsMemories, MemoriesAreFirst, MoveKeepsEnds, FirstKeepsEnds, HandlesAreAloneLent, MoveKeepsLent, PlacesStandKept, TypesTellKinds, EndsStandKept, PassingKeepsEnds, ElementsKeepEnds, ScriptsPassNone};

/// Of each core instance the first memory is kept: it is so before a graph is instantiated, and each step leaves it so, from any point, but for a trap and want of fuel, of
/// which nothing is said. Then of each core instance what is kept is its first memory.
pub fn memories_stay()
    ensures first { FirstKeepsMemories }
    ensures steps { StepKeepsMemories }
    ensures kept { MemoriesAreFirst }
{}

/// Ends are marked, and each stands once, before a graph is instantiated; and each step in which no values are passed leaves them so, but for want of fuel; behind a trap they are marked. It asks that the types of ends that the
/// program names by the numbers of canonical functions tell which are of streams and which are of futures.
pub fn moves_keep_ends()
    ensures first { FirstKeepsEnds }
    ensures moves { MoveKeepsEnds }
{}

/// No handle is lent where none stands: it is so of what stands for a world that a run reaches; and a step from a rest that comes to values that are to be passed leaves it so.
pub fn handles_alone_are_lent()
    ensures reached { HandlesAreAloneLent }
    ensures moves { MoveKeepsLent }
{}

/// A task that waits on a set in a built-in has kept the place of the call, of what stands for a world.
pub fn places_are_kept()
    ensures { PlacesStandKept }
{}

/// What is kept of ends is so again of what stands for a world in which each end stands once: types tell which are of streams and which are of futures, by the graph's types, and
/// those that the program names by the numbers of canonical functions are told right.
pub fn ends_are_kept()
    ensures types { TypesTellKinds }
    ensures stand { EndsStandKept }
{}

/// Ends are marked behind a step in which values of a task are passed, arguments or a result, also where it traps: those that leave the table of an instance come to that of another one, readable and
/// idle. It asks that the calls of the script pass none.
pub fn passings_keep_ends()
    ensures script { ScriptsPassNone }
    ensures steps { PassingKeepsEnds }
{}

/// Ends are marked behind a step in which elements go over, also where it traps. Those that the elements hold come to another table, and that of the call, which is of a deeper type than any of them, stays
/// at its index, where it is said whether it is idle now. It asks that this end is of the type of the built-in, and that the elements have the type of a number.
pub fn elements_keep_ends()
    ensures { ElementsKeepEnds }
{}
