//! Components where they stand.

ghost use Rattle.std.specs.Prelude.{◌≡◌};

use comp_tree::Component;
use std::marker::Model;
use syntax_trees::{Seq, Shared};

/// A component where it stands: as it is read, and the component instances around it, from the inside out. Contracts see its
/// items in place of it.
#[derive(Drop)]
pub struct Standing<'a> {
    component: &'a Component,
    around: Shared<Seq<usize>>,
}

impl<'a> Model for Standing<'a> {
    ghost use Rattle.std.specs.Coded.{codes};
    ghost use Rattle.comp_tree.specs.contracts.items.Component as component_row;
    ghost use Rattle.comp_tree.specs.contracts.items.Item as item_row;
    ghost use Rattle.link_spec.specs.Definitions.{Closure};

    ghost Value = { Closure };

    ghost coded = { Prim.hlevel (codes, component_row.the_row.coded, item_row.the_row.coded) };

    ghost view = { λ s. record { items = s.component.now.items; around = s.around } };
}

impl<'a> Standing<'a> {
    /// A component in these component instances.
    pub fn new(component: &'a Component, around: Shared<Seq<usize>>) -> Standing<'a>
        ensures { result ≡ record { items = component.now.items; around = around } }
    {
        Standing { component, around }
    }

    /// The component.
    pub fn component(&self) -> &'a Component
        ensures { result.now.items ≡ self.now.items }
    {
        self.component
    }

    /// The component instances around it.
    pub fn around(&self) -> &Shared<Seq<usize>>
        ensures { result.now ≡ self.now.around }
    {
        &self.around
    }
}
