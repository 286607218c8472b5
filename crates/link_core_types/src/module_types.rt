//! The types of core modules, each content compared once for each index at which it is asked for.

ghost use Rattle.std.specs.Prelude.{◌≡◌, ◌++◌, ◌∷◌, ◌↔◌, [], Some, None, MatchOption, IsTrue, IfOk, OnOk, OnErr};
ghost use Rattle.link_core_types.specs.Types.{type_at, AreSame};

use crate::module_type::ModuleType;
use crate::type_texts::text_of;
use std::alloc::{AllocError, Global};
use std::collections::BTreeMap;
use std::marker::Model;
use syntax_trees::are_same;
use syntax_trees::module_types::FuncType;

/// The types of the functions of core modules, by the numbers of the modules. Types of equal content may stand at many indices, in
/// many modules. A type that is asked for is read once, and compared once with the first one of its content that was asked for;
/// from then on it is known by that one. Contracts see the types of each module, by the module's number.
#[derive(Drop)]
pub struct ModuleTypes<'a> {
    modules: Vec<&'a [FuncType]>,
    /// Of each type that was asked for, the first one of its content that was.
    firsts: BTreeMap<ModuleType, ModuleType>,
    /// The first type of each content that was asked for, by its text. What is found here is compared before it is used.
    texts: BTreeMap<String, ModuleType>,
}

impl<'a> Model for ModuleTypes<'a> {
    ghost use Rattle.std.specs.Prelude.{List, map};
    ghost use Rattle.std.specs.Coded.{coded_list};
    ghost use Rattle.syntax_trees.specs.declared.module_types.FuncType.{FuncType};
    ghost use Rattle.syntax_trees.specs.contracts.module_types.FuncType as func_type;
    ghost use Rattle.link_core_types.specs.Kept.{AreKept};

    ghost Value = { List (List FuncType) };

    ghost coded = { coded_list (coded_list func_type.the_row.coded) };

    ghost view = { λ t. map (λ m. m.now) t.modules.items };

    ghost invariant = { λ t. AreKept t.firsts (map (λ m. m.now) t.modules.items) };
}

impl<'a> ModuleTypes<'a> {
    /// No modules. They take no memory.
    pub fn new(alloc: Global) -> ModuleTypes<'a>
        ensures { result ≡ [] }
    {
        ModuleTypes {
            modules: Vec::new(alloc),
            firsts: BTreeMap::new(alloc),
            texts: BTreeMap::new(alloc),
        }
    }

    /// Adds a module, of which these are the types, behind the others. It takes constant time, since none of them is read yet. It
    /// fails for want of memory alone, and then adds none.
    pub fn add(&mut self, types: &'a [FuncType]) -> Result<(), AllocError>
        ensures ok { OnOk result (self.new ≡ self.old ++ types.now ∷ []) }
        ensures err { OnErr result (self.new ≡ self.old) }
    {
        self.modules.push(types)?;
        Ok(())
    }

    /// Whether two types are both there and the same. The content of each is read once, however often it is asked for; where they
    /// differ, they are compared anew. It fails for want of memory alone.
    pub fn are_same(
        &mut self,
        alloc: Global,
        left: ModuleType,
        right: ModuleType,
    ) -> Result<bool, AllocError>
        ensures answer { IfOk result (λ same. IsTrue same ↔ AreSame (type_at self.old left) (type_at self.old right)) }
        ensures modules { self.new ≡ self.old }
    {
        let (Some(left_type), Some(right_type)) = (self.type_at(left), self.type_at(right)) else {
            return Ok(false);
        };
        let first = self.first_of(alloc, left, left_type)?;
        if first == self.first_of(alloc, right, right_type)? {
            return Ok(true);
        }
        // Types of one content have one first, which their text tells, so these differ.
        Ok(is_same_func(left_type, right_type))
    }

    /// The type at an index of a module, where it is there.
    fn type_at(&self, at: ModuleType) -> Option<&'a FuncType>
        ensures { MatchOption result (type_at self.now at ≡ None) (λ t. type_at self.now at ≡ Some t.now) }
    {
        let types = *self.modules.get(at.module)?;
        types.get(at.index as usize)
    }

    /// The first type of the content of this one that was asked for. It fails for want of memory alone.
    fn first_of(
        &mut self,
        alloc: Global,
        at: ModuleType,
        func_type: &'a FuncType,
    ) -> Result<ModuleType, AllocError>
        requires { type_at self.old at ≡ Some func_type.now }
        ensures first { IfOk result (λ first. type_at self.old first ≡ Some func_type.now) }
        ensures modules { self.new ≡ self.old }
    {
        if let Some(first) = self.firsts.get(&at).copied() {
            return Ok(first);
        }
        let first = self.first_by_text(alloc, at, func_type)?;
        self.firsts.insert(at, first)?;
        Ok(first)
    }

    /// The type of the content of this one that its text tells, or this one where there is none, which its text tells from then on.
    /// It fails for want of memory alone.
    fn first_by_text(
        &mut self,
        alloc: Global,
        at: ModuleType,
        func_type: &'a FuncType,
    ) -> Result<ModuleType, AllocError>
        requires { type_at self.old at ≡ Some func_type.now }
        ensures first { IfOk result (λ first. type_at self.old first ≡ Some func_type.now) }
        ensures modules { self.new ≡ self.old }
    {
        let text = text_of(alloc, func_type)?;
        if let Some(first) = self.texts.get(text.as_str()).copied() {
            if self.is_of_type(first, func_type) {
                return Ok(first);
            }
        }
        self.texts.insert(text, at)?;
        Ok(at)
    }

    /// Whether the type at an index of a module is there and is this one.
    fn is_of_type(&self, at: ModuleType, func_type: &FuncType) -> bool
        ensures { IsTrue result ↔ (type_at self.now at ≡ Some func_type.now) }
    {
        match self.type_at(at) {
            Some(there) => is_same_func(there, func_type),
            None => false,
        }
    }
}

/// Whether two types of functions are the same.
#[tactic(auto, using(crate::proofs::Sameness::results_tell, crate::proofs::Sameness::params_tell))]
fn is_same_func(left: &FuncType, right: &FuncType) -> bool
    ensures { IsTrue result ↔ (left.now ≡ right.now) }
{
    are_same(left.params.as_slice(), right.params.as_slice())
        && are_same(left.results.as_slice(), right.results.as_slice())
}
