//! What holds of every linking.

ghost use Rattle.link_spec.specs.Laws.{MakesExcludesReasons, BeginsExcludesReasons, MakesExcludesBegins, MakesOnce, BeginsOnce, OneName, OneFirst, OneLinking, LinksExcludesFaults, OneFault, OneGraph, LinkedIsNotRefused, OneRefusal, FewInstances, GraphsAreFew, GraphsAreImported, LiftsAreThere, GraphsAreMade, LabelsAreDistinct, TypesAreShallow, LoweredTypesAreSound, NoBorrowIsPassed, RootNamesAreDistinct, NamesAreDistinct, ModulesStand, OutcomeComputed, ReasonComputed, GraphComputed, FaultComputed, LinkedOrRefused, FuncsCompared, ClosedCompared, FitsTested};

/// An item that makes something, or begins an instance of a component, has no reason against it, and none does both.
pub fn items_make_or_are_refused()
    ensures makes { MakesExcludesReasons }
    ensures begins { BeginsExcludesReasons }
    ensures not_both { MakesExcludesBegins }
{}

/// An item makes one thing, or begins an instance of one component with one list of arguments.
pub fn items_make_one_thing()
    ensures makes { MakesOnce }
    ensures begins { BeginsOnce }
{}

/// An item misses one name, and one of its reasons is the first.
pub fn items_have_one_reason()
    ensures name { OneName }
    ensures first { OneFirst }
{}

/// Items lead to one linking, or one of them is refused, for one reason, and not both.
pub fn items_lead_to_one_linking()
    ensures linking { OneLinking }
    ensures not_both { LinksExcludesFaults }
    ensures fault { OneFault }
{}

/// A component has one graph, or one fault, and not both.
pub fn components_have_one_graph()
    ensures graph { OneGraph }
    ensures not_both { LinkedIsNotRefused }
    ensures fault { OneRefusal }
{}

/// Where there are at most 256 component instances and 256 core instances, items lead to a linking that has at most so many.
/// So a component's graph has.
pub fn instances_stay_few()
    ensures items { FewInstances }
    ensures graph { GraphsAreFew }
{}

/// The core instances of a graph have the imports that their modules ask for, of core instances before them and of functions that
/// the Canonical ABI makes. What a lift uses is there, with the types that it needs, and so is what is lowered, with what the lowering
/// uses, and what a built-in uses: each function that the Canonical ABI makes stands on those before it alone. No two parameters of
/// an export have one label, and its types nest at most 32 types in one another. No borrowed handle is given, returned, or passed in a
/// stream or a future. Each core instance is of a module that stands in the component.
pub fn graphs_are_sound()
    ensures imported { GraphsAreImported }
    ensures lifts { LiftsAreThere }
    ensures made { GraphsAreMade }
    ensures labels { LabelsAreDistinct }
    ensures shallow { TypesAreShallow }
    ensures lowered { LoweredTypesAreSound }
    ensures lending { NoBorrowIsPassed }
    ensures modules { ModulesStand }
{}

/// The names of a component's exports are distinct, and so are the names of the functions that can be called, where no name of
/// an export of the component has a `#`.
pub fn names_are_distinct()
    ensures root { RootNamesAreDistinct }
    ensures all { NamesAreDistinct }
{}

/// What is computed of an item is what it makes or begins, or its first reason. So each item has exactly one of them.
pub fn outcomes_are_computed()
    ensures outcome { OutcomeComputed }
    ensures reason { ReasonComputed }
{}

/// What is computed of a component is its graph, or its fault. So each component has exactly one graph or exactly one fault.
pub fn graphs_are_computed()
    ensures graph { GraphComputed }
    ensures fault { FaultComputed }
    ensures one { LinkedOrRefused }
{}

/// The tests say whether types of functions and closed types are the same, and whether a definition is what is asked for.
pub fn types_are_compared()
    ensures funcs { FuncsCompared }
    ensures closed { ClosedCompared }
    ensures fits { FitsTested }
{}
