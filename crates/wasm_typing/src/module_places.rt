//! The places of a module's parts in its file, and modules with these places.

ghost use Rattle.std.specs.Prelude.{◌≡◌};
ghost use Rattle.wasm_typing.specs.Places.{Fits};

use std::marker::Model;
use syntax_trees::{ModuleTree, Seq};

/// The places of a function.
#[derive(Drop)]
pub struct FuncPlaces {
    /// The first byte of its type's index in the function section.
    pub place: usize,
    /// The first byte of each operation of its body, `else` and `end` among them, the body's own `end` last.
    pub ops: Seq<usize>,
}

/// The places of a global.
#[derive(Drop)]
pub struct GlobalPlaces {
    /// Its first byte: that of its type.
    pub place: usize,
    /// The first byte of each instruction of its constant expression, and at last that of the end.
    pub init: Seq<usize>,
}

/// The places of a segment of functions.
#[derive(Drop)]
pub struct ElementPlaces {
    /// Its first byte: that of its kind.
    pub place: usize,
    /// The first byte of each instruction of its constant expression, and at last that of the end.
    pub offset: Seq<usize>,
    /// The first byte of each index of a function.
    pub funcs: Seq<usize>,
}

/// The places of a segment of bytes.
#[derive(Drop)]
pub struct DataPlaces {
    /// Its first byte: that of its kind.
    pub place: usize,
    /// The first byte of each instruction of its constant expression, and at last that of the end.
    pub offset: Seq<usize>,
}

/// Where the parts of a module stand that a validation can refuse, as byte places counted from the file's start.
#[derive(Drop)]
pub struct ModulePlaces {
    /// The first byte of each import: that of its module name's length.
    pub imports: Seq<usize>,
    /// The places of each function.
    pub funcs: Seq<FuncPlaces>,
    /// The first byte of each table: that of the type of its entries.
    pub tables: Seq<usize>,
    /// The first byte of each memory: that of its limits.
    pub memories: Seq<usize>,
    /// The places of each global.
    pub globals: Seq<GlobalPlaces>,
    /// The first byte of each export: that of its name's length.
    pub exports: Seq<usize>,
    /// The first byte of the index of the function that runs first, where there is one.
    pub start: Option<usize>,
    /// The places of each segment of functions.
    pub element_segments: Seq<ElementPlaces>,
    /// The places of each segment of bytes.
    pub data_segments: Seq<DataPlaces>,
}

/// What a module is made of: its tree, and the places of the tree's parts.
#[derive(Drop)]
pub struct ModuleParts {
    /// The tree.
    pub tree: ModuleTree,
    /// The places of its parts.
    pub places: ModulePlaces,
}

/// A module, as read and not yet validated. Contracts see its tree and the places of the tree's parts, of which there is
/// one for each part.
#[derive(Drop)]
pub struct Module {
    tree: ModuleTree,
    places: ModulePlaces,
}

impl Model for Module {
    ghost use Rattle.wasm_typing.specs.contracts.module_places.ModuleParts as parts;
    ghost use Rattle.wasm_typing.specs.declared.module_places.ModuleParts.{ModuleParts};
    ghost use Rattle.wasm_typing.specs.Places.{Fits};

    ghost Value = { ModuleParts };

    ghost coded = { parts.the_row.coded };

    ghost view = { λ m. record { tree = m.tree; places = m.places } };

    ghost invariant = { λ m. Fits m.tree m.places };
}

impl Module {
    /// The module of these parts.
    pub fn of(parts: ModuleParts) -> Module
        requires { Fits parts.tree parts.places }
        ensures { result ≡ parts }
    {
        Module {
            tree: parts.tree,
            places: parts.places,
        }
    }

    /// The tree.
    pub fn tree(&self) -> &ModuleTree
        ensures { result.now ≡ self.now.tree }
    {
        &self.tree
    }

    /// The places of the tree's parts, one for each.
    pub fn places(&self) -> &ModulePlaces
        ensures places { result.now ≡ self.now.places }
        ensures fits { Fits self.now.tree self.now.places }
    {
        &self.places
    }

    /// The tree and the places of its parts, one for each.
    pub fn into_parts(self) -> ModuleParts
        ensures parts { result ≡ self }
        ensures fits { Fits self.tree self.places }
    {
        ModuleParts {
            tree: self.tree,
            places: self.places,
        }
    }
}
