//! What core instances export.

ghost use Rattle.std.specs.Prelude.{◌≡◌};
ghost use Rattle.link_spec.specs.Definitions.{core_named, exports_of};

use crate::core_item::CoreItem;
use crate::core_module::CoreModule;
use crate::inline_exports::InlineExports;
use std::marker::Model;
use syntax_trees::Shared;

/// Where the exports of a core instance come from.
#[derive(Drop)]
pub(crate) enum Source<'a> {
    /// The core instance of this number is made of this module.
    OfModule(u32, Shared<CoreModule<'a>>),
    /// They are inline exports.
    Inline(InlineExports<'a>),
}

/// What a core instance exports. Contracts see the exports, each with its name.
#[derive(Drop)]
pub struct CoreExports<'a> {
    source: Source<'a>,
}

impl<'a> Model for CoreExports<'a> {
    ghost use Rattle.std.specs.Prelude.{List};
    ghost use Rattle.std.specs.Coded.{codes};
    ghost use Rattle.syntax_trees.specs.contracts.module_types.FuncType as func_type;
    ghost use Rattle.syntax_trees.specs.contracts.module_types.Limits as limits;
    ghost use Rattle.syntax_trees.specs.contracts.module_types.GlobalType as global_type;
    ghost use Rattle.comp_graph.specs.contracts.graph.CoreRef as core_ref;
    ghost use Rattle.comp_graph.specs.contracts.graph.FuncRef as func_ref;
    ghost use Rattle.link_spec.specs.Definitions.{CoreExport};

    ghost Value = { List CoreExport };

    ghost coded = { Prim.hlevel (codes, func_type.the_row.coded, limits.the_row.coded, global_type.the_row.coded, core_ref.the_row.coded, func_ref.the_row.coded) };

    ghost use Rattle.link_core_exports.specs.Source.{exports_from};

    ghost view = { λ e. exports_from e.source };
}

impl<'a> CoreExports<'a> {
    /// Those of the core instance of this number, which is made of this module.
    pub fn of_module(number: u32, made: Shared<CoreModule<'a>>) -> CoreExports<'a>
        ensures { result ≡ exports_of made.entry number }
    {
        CoreExports {
            source: Source::OfModule(number, made),
        }
    }

    /// Inline exports.
    pub fn inline(exports: InlineExports<'a>) -> CoreExports<'a>
        ensures { result ≡ exports.entry }
    {
        CoreExports {
            source: Source::Inline(exports),
        }
    }

    /// What is exported under a name.
    pub fn exported(&self, name: &str) -> Option<CoreItem<'a>>
        ensures { result ≡ core_named name.now self.now }
    {
        match &self.source {
            Source::OfModule(number, made) => made.get().exported(*number, name),
            Source::Inline(exports) => exports.exported(name),
        }
    }
}
