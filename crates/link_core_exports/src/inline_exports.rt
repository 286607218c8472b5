//! Core instances of inline exports.

ghost use Rattle.std.specs.Prelude.{◌≡◌, IfOk, map};
ghost use Rattle.std.specs.List.{slice_get};
ghost use Rattle.std.specs.Option.{option_and_then, option_map};
ghost use Rattle.link_spec.specs.Definitions.{core_named};

use crate::core_item::CoreItem;
use ca_base::{by_name, find};
use comp_tree::CoreInlineExport;
use std::alloc::{AllocError, Global};
use std::collections::BTreeMap;
use std::marker::Model;
use syntax_trees::Name;

/// A core definition under a name.
#[derive(Drop)]
pub struct InlineExport<'a> {
    name: &'a Name,
    item: CoreItem<'a>,
}

impl<'a> Model for InlineExport<'a> {
    ghost use Rattle.std.specs.Coded.{codes};
    ghost use Rattle.syntax_trees.specs.contracts.module_types.FuncType as func_type;
    ghost use Rattle.syntax_trees.specs.contracts.module_types.Limits as limits;
    ghost use Rattle.syntax_trees.specs.contracts.module_types.GlobalType as global_type;
    ghost use Rattle.comp_graph.specs.contracts.graph.CoreRef as core_ref;
    ghost use Rattle.comp_graph.specs.contracts.graph.FuncRef as func_ref;
    ghost use Rattle.link_spec.specs.Definitions.{CoreExport};

    ghost Value = { CoreExport };

    ghost coded = { Prim.hlevel (codes, func_type.the_row.coded, limits.the_row.coded, global_type.the_row.coded, core_ref.the_row.coded, func_ref.the_row.coded) };

    ghost view = { λ e. record { name = e.name.now; item = e.item } };
}

impl<'a> InlineExport<'a> {
    /// A core definition under a name.
    pub fn new(name: &'a Name, item: CoreItem<'a>) -> InlineExport<'a>
        ensures { result ≡ record { name = name.now; item = item.entry } }
    {
        InlineExport { name, item }
    }

    /// The definition.
    pub fn item(&self) -> CoreItem<'a>
        ensures { result ≡ self.now.item }
    {
        self.item.again()
    }
}

/// Exports under names, and the numbers of these by their names. Contracts see the exports.
#[derive(Drop)]
pub struct InlineExports<'a> {
    exports: Vec<InlineExport<'a>>,
    numbers: BTreeMap<&'a str, usize>,
}

impl<'a> Model for InlineExports<'a> {
    ghost use Rattle.std.specs.Prelude.{◌≡◌, ℕ, List, map};
    ghost use Rattle.std.specs.Coded.{codes};
    ghost use Rattle.syntax_trees.specs.contracts.module_types.FuncType as func_type;
    ghost use Rattle.syntax_trees.specs.contracts.module_types.Limits as limits;
    ghost use Rattle.syntax_trees.specs.contracts.module_types.GlobalType as global_type;
    ghost use Rattle.comp_graph.specs.contracts.graph.CoreRef as core_ref;
    ghost use Rattle.comp_graph.specs.contracts.graph.FuncRef as func_ref;
    ghost use Rattle.syntax_trees.specs.Names.{at_name, first_named};
    ghost use Rattle.link_spec.specs.Definitions.{CoreExport};

    ghost Value = { List CoreExport };

    ghost coded = { Prim.hlevel (codes, func_type.the_row.coded, limits.the_row.coded, global_type.the_row.coded, core_ref.the_row.coded, func_ref.the_row.coded) };

    ghost view = { λ i. i.exports.items };

    ghost invariant = { λ i. (q : List ℕ) → at_name i.numbers q ≡ first_named q (map (λ (e : CoreExport). e.name) i.exports.items) };
}

impl<'a> InlineExports<'a> {
    /// These exports, which have the names that are read. It fails for want of memory alone.
    pub fn new(
        alloc: Global,
        read: &'a [CoreInlineExport],
        exports: Vec<InlineExport<'a>>,
    ) -> Result<InlineExports<'a>, AllocError>
        requires { map (λ e. e.name) exports.items ≡ map (λ e. e.name) read.now }
        ensures { IfOk result (λ i. i ≡ exports.entry.items) }
    {
        let numbers = by_name(alloc, read)?;
        Ok(InlineExports { exports, numbers })
    }

    /// What is exported under a name.
    pub fn exported(&self, name: &str) -> Option<CoreItem<'a>>
        ensures { result ≡ core_named name.now self.now }
    {
        let number = find(&self.numbers, name);
        item_at(&self.exports, number)
    }
}

/// The definition of the export of a number, if there is one.
fn item_at<'a>(exports: &[InlineExport<'a>], number: Option<usize>) -> Option<CoreItem<'a>>
    ensures { result ≡ option_map (λ e. e.item) (option_and_then (λ k. slice_get exports.now k) number) }
{
    let export = exports.get(number?)?;
    Some(export.item())
}
