//! What the declarations of an instance type tell so far.

ghost use Rattle.std.specs.Prelude.{◌≡◌, ℕ, List, Some, None, Option, cond, IfOk, OnOk};
ghost use Rattle.std.specs.Option.{option_map};
ghost use Rattle.comp_graph.specs.Closed as closings;
ghost use Rattle.comp_graph.specs.Closed.{Extern, Externs, EmptyType};
ghost use Rattle.link_spec.specs.Types as types_read;
ghost use Rattle.link_spec.specs.Types.{Meaning};
ghost use Rattle.link_types.specs.Begun.{IsBegun};
ghost use Rattle.link_types.specs.Table.{IsName, IsExtern, IsType, Grows};
ghost use Rattle.link_meanings.specs.Meant.{IsFoundAs, IsMeaning};
ghost use Rattle.link_instance_types.specs.Declaring.{IsSoFar, told_more, as_instance};

use link_types::{ExternRef, InstanceTypeMaker, Meant, TypeRef, Types};
use std::alloc::{AllocError, Global};
use syntax_trees::Name;

/// What the declarations of an instance type tell so far.
#[derive(Drop)]
pub(crate) struct SoFar<'a> {
    /// Whether all their indices are there.
    pub(crate) is_there: bool,
    /// The first name that is missing.
    pub(crate) missing: Option<&'a Name>,
    /// Whether a value type in them is too deep.
    pub(crate) deep: bool,
    /// The exports, where all have a meaning.
    pub(crate) means: Option<InstanceTypeMaker>,
}

impl<'a> SoFar<'a> {
    /// Nothing is declared.
    pub(crate) fn new(alloc: Global, types: &mut Types<'_>) -> Result<SoFar<'a>, AllocError>
        ensures ok { IfOk result (λ s. IsSoFar types.new s (types_read.meant (Some EmptyType))) }
        ensures grows { Grows types.old types.new }
    {
        let maker = InstanceTypeMaker::begin(alloc, types)?;
        Ok(SoFar {
            is_there: true,
            missing: None,
            deep: false,
            means: Some(maker),
        })
    }

    /// What one more declaration tells, which has this meaning.
    pub(crate) fn tell<T>(&mut self, meant: &Meant<'a, T>)
        ensures { self.new ≡ told_more self.old meant.now }
    {
        self.is_there = self.is_there && meant.is_there;
        if self.missing.is_none() {
            self.missing = meant.missing;
        }
        self.deep = self.deep || meant.deep;
        if meant.means.is_none() {
            self.means = None;
        }
    }

    /// Puts an export under the number of its name behind the others. There is none where the name is not new.
    pub(crate) fn extend(
        &mut self,
        types: &mut Types<'_>,
        number: usize,
        item: Option<ExternRef>,
        is_new: bool,
    ) -> Result<(), AllocError>
        ensures ok { OnOk result ((name : List ℕ) (extern : Option Extern) (others : Option Externs) → IsFoundAs (IsBegun types.old) self.old.means others → IsName types.old number name → IsFoundAs (IsExtern types.old) item extern → IsFoundAs (IsBegun types.new) self.new.means (cond is_new (types_read.extended name extern others) None)) }
        ensures is_there { self.new.is_there ≡ self.old.is_there }
        ensures missing { self.new.missing ≡ self.old.missing }
        ensures deep { self.new.deep ≡ self.old.deep }
        ensures grows { Grows types.old types.new }
    {
        let before = self.means.take();
        if is_new {
            self.means = extended(types, before, number, item)?;
        }
        Ok(())
    }

    /// What the instance type means, with all its declarations.
    pub(crate) fn finish(self, types: &mut Types<'_>) -> Result<Meant<'a, TypeRef>, AllocError>
        ensures ok { IfOk result (λ m. (meaning : Meaning Externs) → IsSoFar types.old self.entry meaning → IsMeaning (IsType types.new) m (as_instance meaning)) }
        ensures grows { Grows types.old types.new }
    {
        let means = finished(types, self.means)?;
        Ok(Meant {
            is_there: self.is_there,
            missing: self.missing,
            deep: self.deep,
            means,
        })
    }
}

/// Exports with one more behind them, where all have a meaning.
fn extended(
    types: &mut Types<'_>,
    before: Option<InstanceTypeMaker>,
    number: usize,
    item: Option<ExternRef>,
) -> Result<Option<InstanceTypeMaker>, AllocError>
    ensures ok { IfOk result (λ o. (name : List ℕ) (extern : Option Extern) (others : Option Externs) → IsFoundAs (IsBegun types.old) before others → IsName types.old number name → IsFoundAs (IsExtern types.old) item extern → IsFoundAs (IsBegun types.new) o (types_read.extended name extern others)) }
    ensures grows { Grows types.old types.new }
{
    let Some(item) = item else {
        return Ok(None);
    };
    let Some(mut maker) = before else {
        return Ok(None);
    };
    maker.extend(types, number, item)?;
    Ok(Some(maker))
}

/// The type of instances with these exports, where all have a meaning.
fn finished(
    types: &mut Types<'_>,
    made: Option<InstanceTypeMaker>,
) -> Result<Option<TypeRef>, AllocError>
    ensures ok { IfOk result (λ o. (externs : Option Externs) → IsFoundAs (IsBegun types.old) made externs → IsFoundAs (IsType types.new) o (option_map closings.Instance externs)) }
    ensures grows { Grows types.old types.new }
{
    let Some(maker) = made else {
        return Ok(None);
    };
    Ok(Some(TypeRef::Instance(maker.finish(types)?)))
}
