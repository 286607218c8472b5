//! The exports of a component, to be found by their names.

ghost use Rattle.std.specs.Prelude.{◌≡◌, IfOk, IfSome, map};
ghost use Rattle.std.specs.Option.{option_map};
ghost use Rattle.std.specs.Str.{IsUtf8};
ghost use Rattle.syntax_trees.specs.Names.{first_named};
ghost use Rattle.script_reader.specs.Script as scripts;

use ca_base::{by_name, find};
use std::alloc::{AllocError, Global};
use std::collections::BTreeMap;
use std::marker::Model;
use syntax_trees::Export;

/// The exports of a component with the places of their names. Contracts see the exports.
#[derive(Drop)]
pub struct Directory<'a> {
    exports: &'a [Export],
    places: BTreeMap<&'a str, usize>,
}

impl<'a> Model for Directory<'a> {
    ghost use Rattle.std.specs.Prelude.{◌≡◌, ℕ, List, map};
    ghost use Rattle.std.specs.Coded.{coded_list};
    ghost use Rattle.syntax_trees.specs.Names.{at_name, first_named};
    ghost use Rattle.syntax_trees.specs.declared.exports.Export.{Export};
    ghost use Rattle.syntax_trees.specs.contracts.exports.Export as an_export;

    ghost Value = { List Export };

    ghost coded = { coded_list an_export.the_row.coded };

    ghost view = { λ d. d.exports.now };

    ghost invariant = { λ d. (q : List ℕ) → at_name d.places q ≡ first_named q (map (λ e. e.name) d.exports.now) };
}

impl<'a> Directory<'a> {
    /// These exports. It fails for want of memory alone.
    pub fn of(alloc: Global, exports: &'a [Export]) -> Result<Directory<'a>, AllocError>
        ensures { IfOk result (λ d. d ≡ exports.now) }
    {
        let places = by_name(alloc, exports)?;
        Ok(Directory { exports, places })
    }

    /// The place of the first export of a name.
    fn place_of(&self, name: &[u8]) -> Option<usize>
        requires { IsUtf8 name.now }
        ensures { result ≡ first_named name.now (map (λ e. e.name) self.now) }
    {
        let name = std::str::from_utf8(name).unwrap();
        find(&self.places, name)
    }

    /// The first export of a name.
    #[tactic(auto, using(crate::proofs::Found::none_found, crate::proofs::Found::one_found))]
    pub fn export_named(&self, name: &[u8]) -> Option<&'a Export>
        requires { IsUtf8 name.now }
        ensures named { IfSome result (λ e. e.now.name ≡ name.now) }
        ensures found { option_map (λ e. e.now) result ≡ scripts.export_named self.now name.now }
    {
        let place = self.place_of(name)?;
        self.exports.get(place)
    }
}
