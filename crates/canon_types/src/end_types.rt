//! Types of streams and futures by their numbers, each once.

ghost use Rattle.std.specs.Prelude.{◌≡◌, [], IfOk, OnOk};
ghost use Rattle.link_spec.specs.Ends as ends;
ghost use Rattle.canon_types.specs.EndNumbers as end_numbers;
ghost use Rattle.canon_types.specs.EndNumbers.{number_once, with_number};

use comp_graph::{BuiltinKind, CanonFunc, graph_number};
use laid_types::LaidType;
use link_types::{TypeRef, Types};
use std::alloc::{AllocError, Global};
use std::marker::Model;
use syntax_trees::ValType;

/// Numbers of types of streams and futures, each once, in the order in which they were noted, with a mark at each. Contracts see them
/// in order.
#[derive(Drop)]
pub struct EndNumbers {
    numbers: Vec<u32>,
    marks: Vec<bool>,
}

impl Model for EndNumbers {
    ghost use Rattle.std.specs.Prelude.{◌≡◌, ℕ, false, List, get_or};
    ghost use Rattle.canon_types.specs.EndNumbers.{is_number_among};

    ghost Value = { List ℕ };

    ghost view = { λ n. n.numbers.items };

    ghost invariant = { λ n. (q : ℕ) → get_or n.marks.items q false ≡ is_number_among n.numbers.items q };
}

impl EndNumbers {
    /// No numbers. They take no memory.
    pub fn new(alloc: Global) -> EndNumbers
        ensures { result ≡ [] }
    {
        EndNumbers {
            numbers: Vec::new(alloc),
            marks: Vec::new(alloc),
        }
    }

    /// Adds a number behind the others, where it is not there. It fails for want of memory alone.
    fn add(&mut self, number: u32) -> Result<(), AllocError>
        ensures { OnOk result (self.new ≡ number_once self.old number) }
    {
        let at = number as usize;
        if at >= self.marks.len() {
            self.marks.resize(at + 1, false)?;
        }
        if self.marks[at] {
            return Ok(());
        }
        self.numbers.reserve(1)?;
        self.marks[at] = true;
        self.numbers.push_reserved(number);
        Ok(())
    }

    /// The numbers.
    pub fn into_numbers(self) -> Vec<u32>
        ensures { result.items ≡ self }
    {
        let EndNumbers { numbers, marks: _ } = self;
        numbers
    }
}

/// Adds a number behind others, if there is one and it is not there. It fails for want of memory alone.
pub fn note(noted: &mut EndNumbers, number: Option<u32>) -> Result<(), AllocError>
    ensures { OnOk result (noted.new ≡ with_number noted.old number) }
{
    if let Some(number) = number {
        noted.add(number)?;
    }
    Ok(())
}

/// Whether a type is one of streams or of futures (Component Model, Explainer.md, "Type Definitions").
fn is_of_ends(val_type: &LaidType<'_>) -> bool
    ensures { result ≡ ends.is_of_ends val_type.now }
{
    match val_type.val_type() {
        ValType::Stream(_) | ValType::Future(_) => true,
        _ => false,
    }
}

/// This number, as graphs have it, where a type is one of streams or futures. It fails for want of memory alone.
fn number_if_ends(number: usize, val_type: &LaidType<'_>) -> Result<Option<u32>, AllocError>
    ensures { IfOk result (λ n. n ≡ end_numbers.number_if_ends number val_type.now) }
{
    if !is_of_ends(val_type) {
        return Ok(None);
    }
    Ok(Some(graph_number(number)?))
}

/// The number of a type, among types of values, where it is one of streams or futures. It fails for want of memory alone.
pub fn type_number(types: &Types<'_>, of: TypeRef) -> Result<Option<u32>, AllocError>
    ensures { IfOk result (λ n. n ≡ end_numbers.type_number types.now.values of) }
{
    let TypeRef::Value(number) = of else {
        return Ok(None);
    };
    let Some(val_type) = types.value(number) else {
        return Ok(None);
    };
    number_if_ends(number, &val_type)
}

/// The number of the type of the ends that a core function is a built-in of, if it is one, of the number that it has.
pub fn canon_number(canon: &CanonFunc, number: Option<u32>) -> Option<u32>
    ensures { result ≡ end_numbers.canon_number canon.now number }
{
    match canon {
        CanonFunc::Lower(_) => None,
        CanonFunc::Builtin(builtin) => match &builtin.kind {
            BuiltinKind::End { .. } => number,
            _ => None,
        },
    }
}
