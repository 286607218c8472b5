//! Examples of the definitions, worked out by hand.

ghost use Rattle.graph_laws.specs.Examples.{IsLinkedToBoth, ModulesAreSound};

use link_spec::laws::graphs_are_computed;

/// A component that lowers the function of a component inside, passes it to a core instance of its own, and lifts with a post-return
/// of that one, has sound modules and is linked.
pub fn component_inside()
    ensures linked { IsLinkedToBoth }
    ensures modules { ModulesAreSound }
{
    graphs_are_computed();
}
