//! Modules that are valid.

ghost use Rattle.std.specs.Prelude.{◌≡◌};
ghost use Rattle.wasm_typing.specs.Modules.{Typed};

use std::marker::Model;
use syntax_trees::ModuleTree;

/// A module that is typed. Contracts see its tree.
#[derive(Drop)]
pub struct Valid {
    tree: ModuleTree,
}

impl Model for Valid {
    ghost use Rattle.syntax_trees.specs.declared.module.ModuleTree.{ModuleTree};
    ghost use Rattle.syntax_trees.specs.contracts.module.ModuleTree as contract;
    ghost use Rattle.wasm_typing.specs.Modules.{Typed};

    ghost Value = { ModuleTree };

    ghost coded = { contract.the_row.coded };

    ghost view = { λ v. v.tree };

    ghost invariant = { λ v. Typed v.tree };
}

impl Valid {
    /// The valid module of a typed tree.
    pub fn from_typed(tree: ModuleTree) -> Valid
        requires { Typed tree }
        ensures { result ≡ tree }
    {
        Valid { tree }
    }

    /// The module's tree, which is typed.
    pub fn tree(&self) -> &ModuleTree
        ensures value { result.now ≡ self.now }
        ensures typed { Typed self.now }
    {
        &self.tree
    }
}
