//! An example of the laws, worked out by hand.

ghost use Rattle.async_graph_laws.specs.Examples.{BothIsApart, BothIsTyped, BothIsUsed};

use crate::laws::{linked_definitions_are_apart, linked_graphs_are_typed};
use link_spec::laws::graphs_are_computed;

/// The graph of a component that lowers the function of a component inside, passes it to a core instance of its own, and lifts with a
/// post-return of that one: its core definitions stay in their component instance, it is typed, and it has what its lifts and lowers use.
pub fn component_inside()
    ensures apart { BothIsApart }
    ensures typed { BothIsTyped }
    ensures used { BothIsUsed }
{
    graphs_are_computed();
    linked_definitions_are_apart();
    linked_graphs_are_typed();
}
