//! Function types over a table of types of values.

ghost use Rattle.std.specs.Prelude.{◌≡◌, ◌<◌, ℕ, length, map, Some};
ghost use Rattle.std.specs.List.{slice_get};
ghost use Rattle.std.specs.Option.{option_and_then};
ghost use Rattle.syntax_trees.specs.declared.types.FuncType.{FuncType};
ghost use Rattle.laid_types.specs.Parts.{part_at};
ghost use Rattle.laid_types.specs.SameTypes.{AreDistinct};
ghost use Rattle.comp_graph.specs.Passed.{IsNumbered, AreNumbered, ArePassed, HaveNumbers};

use laid_types::{LaidType, LaidTypes};
use std::marker::Model;
use syntax_trees::{FuncType, Seq, Shared};

/// A function type, with the numbers of the types of what is passed, in a table of types of values.
#[derive(Drop)]
pub struct NumberedFunc {
    /// The function type.
    pub func_type: Shared<FuncType>,
    /// The number of the type of the arguments: the tuple type of the parameters' types, in order.
    pub params: u32,
    /// The number of the type of the result, if there is one.
    pub returned: Option<u32>,
}

/// The types of what a function is passed and gives (Component Model, CanonicalABI.md, "Lifting and Lowering Values"), with what is
/// computed of them.
#[derive(Drop)]
pub struct PassedTypes<'a> {
    /// The type of the arguments: the tuple type of the parameters' types, in order.
    pub params: LaidType<'a>,
    /// The type of the result, if there is one.
    pub returned: Option<LaidType<'a>>,
}

/// Function types, and the table of the types of what is passed, each laid out once: no type of values stands twice in it, so types
/// are the same exactly where their numbers are. Contracts see both; a type's number is its place.
#[derive(Drop)]
pub struct FuncTypes {
    values: LaidTypes,
    funcs: Vec<NumberedFunc>,
}

impl Model for FuncTypes {
    ghost use Rattle.std.specs.Prelude.{map};
    ghost use Rattle.std.specs.Coded.{codes};
    ghost use Rattle.syntax_trees.specs.contracts.types.FuncType as func_type;
    ghost use Rattle.syntax_trees.specs.contracts.types.ValType as val_type;
    ghost use Rattle.laid_types.specs.SameTypes.{AreDistinct};
    ghost use Rattle.comp_graph.specs.Passed.{AreNumbered};
    ghost use Rattle.comp_graph.specs.Passed as passed;

    ghost Value = { passed.TypeTable };

    ghost coded = { Prim.hlevel (codes, func_type.the_row.coded, val_type.the_row.coded) };

    ghost view = { λ t. record { funcs = map (λ f. f.func_type) t.funcs.items; values = t.values } };

    ghost invariant = { λ t. AreDistinct t.values × AreNumbered t.values t.funcs.items };
}

impl FuncTypes {
    /// These function types, each with its numbers in the table of types of values.
    pub fn new(values: LaidTypes, funcs: Vec<NumberedFunc>) -> FuncTypes
        requires distinct { AreDistinct values }
        requires numbered { AreNumbered values funcs.items }
        ensures { result ≡ record { funcs = map (λ f. f.func_type) funcs.items; values = values } }
    {
        FuncTypes { values, funcs }
    }

    /// How many function types there are.
    pub fn len(&self) -> usize
        ensures { result ≡ length self.now.funcs }
    {
        self.funcs.len()
    }

    /// The table of the types of what is passed.
    pub fn values(&self) -> &LaidTypes
        ensures value { result.now ≡ self.now.values }
        ensures distinct { AreDistinct self.now.values }
    {
        &self.values
    }

    /// The function type of this number, which is there, with its numbers in the table of types of values.
    pub fn func(&self, number: usize) -> &NumberedFunc
        requires { number < length self.now.funcs }
        ensures value { slice_get self.now.funcs number ≡ Some result.now.func_type }
        ensures numbers { IsNumbered self.now.values result.now }
    {
        &self.funcs[number]
    }

    /// The types of what functions of the type of this number pass.
    pub fn passed(&self, number: usize) -> PassedTypes<'_>
        requires { number < length self.now.funcs }
        ensures { (f : FuncType) → slice_get self.now.funcs number ≡ Some f → ArePassed result f }
    {
        passed_types(&self.values, &self.funcs[number])
    }

    /// The type of values of this number, if there is one.
    pub fn value(&self, number: Option<u32>) -> Option<LaidType<'_>>
        ensures { result ≡ option_and_then (λ n. slice_get self.now.values n) number }
    {
        value_of(&self.values, number)
    }
}

/// The types of what functions of a type pass.
fn passed_types<'a>(values: &'a LaidTypes, func: &NumberedFunc) -> PassedTypes<'a>
    requires { IsNumbered values.now func.now }
    ensures { ArePassed result func.now.func_type }
{
    PassedTypes {
        params: value_at(values, func.params),
        returned: value_of(values, func.returned),
    }
}

/// The type of a number that is there.
fn value_at(values: &LaidTypes, number: u32) -> LaidType<'_>
    requires { number < length values.now }
    ensures { slice_get values.now number ≡ Some result }
{
    match values.get(number as usize) {
        Some(val_type) => val_type,
        None => unreachable!(),
    }
}

/// The type of a number, if there is one.
fn value_of(values: &LaidTypes, number: Option<u32>) -> Option<LaidType<'_>>
    ensures { result ≡ option_and_then (λ n. slice_get values.now n) number }
{
    match number {
        Some(number) => values.get(number as usize),
        None => None,
    }
}

/// The type of the elements of the ends of a type, if they hold anything.
pub(crate) fn element_of(ends: Option<LaidType<'_>>) -> Option<LaidType<'_>>
    ensures { result ≡ option_and_then (λ t. part_at t 0) ends.entry }
{
    match ends {
        Some(ends) => ends.part(0),
        None => None,
    }
}

/// The types of what the function passes whose type has the number at this place.
pub(crate) fn passed_at<'a>(types: &'a FuncTypes, numbers: &[u32], at: usize) -> PassedTypes<'a>
    requires there { at < length numbers.now }
    requires are { HaveNumbers types.now.funcs numbers.now }
    ensures { (n : ℕ) (f : FuncType) → slice_get numbers.now at ≡ Some n → slice_get types.now.funcs n ≡ Some f → ArePassed result f }
{
    types.passed(numbers[at] as usize)
}

/// The number at a place that is there.
pub(crate) fn number_at(numbers: &[Option<u32>], at: usize) -> Option<u32>
    requires { at < length numbers.now }
    ensures { slice_get numbers.now at ≡ Some result }
{
    numbers[at]
}

/// The types of what functions and built-ins of a graph pass: a table of types, and which of them each one has.
#[derive(Drop)]
pub struct GraphTypes {
    /// The table.
    pub types: FuncTypes,
    /// Of each core function that the Canonical ABI makes, in order of making: the number of the type of the function that it calls,
    /// among function types; of a built-in the number of the type of its result, or of the type of the ends that it is of, among types
    /// of values, if it has one.
    pub canons: Seq<Option<u32>>,
    /// The number of the type of each function that can be called, in order.
    pub exports: Seq<u32>,
    /// The numbers of the types of streams and futures, in order of linking, among types of values.
    pub ends: Seq<u32>,
}
