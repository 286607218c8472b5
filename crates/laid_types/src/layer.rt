//! What a type is made of, by the numbers of earlier types.

ghost use Rattle.std.specs.Prelude.{◌≡◌, [], ◌∷◌, map, Some, IfOk};
ghost use Rattle.laid_types.specs.Layers.{part_numbers, layer_labels};

use std::alloc::{AllocError, Global};

/// The outer layer of a type, over the numbers of earlier types (Component Model, Explainer.md, "Type Definitions": `valtype` and
/// `defvaltype`). Its lists may be let go before its labels.
#[derive(Clone, Copy)]
pub enum ValTypeLayer<'s, 'a> {
    /// A truth value.
    Bool,
    /// A signed 8-bit integer.
    S8,
    /// An unsigned 8-bit integer.
    U8,
    /// A signed 16-bit integer.
    S16,
    /// An unsigned 16-bit integer.
    U16,
    /// A signed 32-bit integer.
    S32,
    /// An unsigned 32-bit integer.
    U32,
    /// A signed 64-bit integer.
    S64,
    /// An unsigned 64-bit integer.
    U64,
    /// A Unicode scalar value.
    Char,
    /// A text of Unicode scalar values.
    String,
    /// A value for each field, in order.
    Record(&'s [LabelledPart<'a>]),
    /// One of several cases, with its payload where it has one.
    Variant(&'s [LabelledCase<'a>]),
    /// Any number of values of one type.
    List(usize),
    /// A value for each place, in order.
    Tuple(&'s [usize]),
    /// A truth value for each label, in order.
    Flags(&'s [&'a str]),
    /// One of several labels.
    Enum(&'s [&'a str]),
    /// A value, or none.
    Option(usize),
    /// A success or a failure, each with a value where it has a type.
    Result {
        /// The type of what a success holds.
        ok: Option<usize>,
        /// The type of what a failure holds.
        err: Option<usize>,
    },
    /// An owning handle to a resource of the type with this number.
    Own(u32),
    /// A borrowing handle to a resource of the type with this number.
    Borrow(u32),
    /// The readable end of a stream of elements, which have a type where they hold anything.
    Stream(Option<usize>),
    /// The readable end of a future, whose value has a type where it holds anything.
    Future(Option<usize>),
}

/// A field of a record.
#[derive(Clone, Copy)]
pub struct LabelledPart<'a> {
    /// Its label.
    pub label: &'a str,
    /// The number of the type of its values.
    pub number: usize,
}

/// A case of a variant.
#[derive(Clone, Copy)]
pub struct LabelledCase<'a> {
    /// Its label.
    pub label: &'a str,
    /// The number of the type of its payload, if it has one.
    pub payload: Option<usize>,
}

impl<'s, 'a> ValTypeLayer<'s, 'a> {
    /// The numbers of the parts, by their places. It fails for want of memory alone, as do the other functions of this crate that
    /// fail.
    pub fn parts(&self, alloc: Global) -> Result<Vec<Option<usize>>, AllocError>
        ensures { IfOk result (λ numbers. numbers.items ≡ part_numbers self.now) }
    {
        match self {
            ValTypeLayer::Record(fields) => field_numbers(alloc, fields),
            ValTypeLayer::Variant(cases) => payload_numbers(alloc, cases),
            ValTypeLayer::Tuple(numbers) => place_numbers(alloc, numbers),
            ValTypeLayer::List(element) => one(alloc, Some(*element)),
            ValTypeLayer::Stream(element) => one(alloc, *element),
            ValTypeLayer::Future(element) => one(alloc, *element),
            ValTypeLayer::Option(payload) => two(alloc, None, Some(*payload)),
            ValTypeLayer::Result { ok, err } => two(alloc, *ok, *err),
            _ => Ok(Vec::new(alloc)),
        }
    }

    /// The labels, in order.
    pub fn labels(&self, alloc: Global) -> Result<Vec<&'a str>, AllocError>
        ensures { IfOk result (λ labels. map (λ l. l.now) labels.items ≡ layer_labels self.now) }
    {
        match self {
            ValTypeLayer::Record(fields) => field_labels(alloc, fields),
            ValTypeLayer::Variant(cases) => case_labels(alloc, cases),
            ValTypeLayer::Flags(labels) => same_labels(alloc, labels),
            ValTypeLayer::Enum(labels) => same_labels(alloc, labels),
            _ => Ok(Vec::new(alloc)),
        }
    }
}

/// One part.
fn one(alloc: Global, part: Option<usize>) -> Result<Vec<Option<usize>>, AllocError>
    ensures { IfOk result (λ numbers. numbers.items ≡ part ∷ []) }
{
    let mut numbers = Vec::new(alloc);
    numbers.push(part)?;
    Ok(numbers)
}

/// Two parts.
fn two(
    alloc: Global,
    first: Option<usize>,
    second: Option<usize>,
) -> Result<Vec<Option<usize>>, AllocError>
    ensures { IfOk result (λ numbers. numbers.items ≡ first ∷ second ∷ []) }
{
    let mut numbers = one(alloc, first)?;
    numbers.push(second)?;
    Ok(numbers)
}

/// The numbers of fields.
fn field_numbers(
    alloc: Global,
    fields: &[LabelledPart<'_>],
) -> Result<Vec<Option<usize>>, AllocError>
    ensures { IfOk result (λ numbers. numbers.items ≡ map (λ f. Some f.number) fields.now) }
{
    fields.iter().map(|field| Some(field.number)).collect(alloc)
}

/// The numbers of payloads.
fn payload_numbers(
    alloc: Global,
    cases: &[LabelledCase<'_>],
) -> Result<Vec<Option<usize>>, AllocError>
    ensures { IfOk result (λ numbers. numbers.items ≡ map (λ c. c.payload) cases.now) }
{
    cases.iter().map(|case| case.payload).collect(alloc)
}

/// The numbers of places.
fn place_numbers(alloc: Global, places: &[usize]) -> Result<Vec<Option<usize>>, AllocError>
    ensures { IfOk result (λ numbers. numbers.items ≡ map Some places.now) }
{
    places.iter().map(|number| Some(*number)).collect(alloc)
}

/// The labels of fields.
fn field_labels<'a>(alloc: Global, fields: &[LabelledPart<'a>]) -> Result<Vec<&'a str>, AllocError>
    ensures { IfOk result (λ labels. map (λ l. l.now) labels.items ≡ map (λ f. f.label.now) fields.now) }
{
    let mut labels = Vec::new(alloc);
    for field in fields {
        labels.push(field.label)?;
    }
    Ok(labels)
}

/// The labels of cases.
fn case_labels<'a>(alloc: Global, cases: &[LabelledCase<'a>]) -> Result<Vec<&'a str>, AllocError>
    ensures { IfOk result (λ labels. map (λ l. l.now) labels.items ≡ map (λ c. c.label.now) cases.now) }
{
    let mut labels = Vec::new(alloc);
    for case in cases {
        labels.push(case.label)?;
    }
    Ok(labels)
}

/// The same labels.
fn same_labels<'a>(alloc: Global, labels: &[&'a str]) -> Result<Vec<&'a str>, AllocError>
    ensures { IfOk result (λ copied. map (λ l. l.now) copied.items ≡ map (λ l. l.now) labels.now) }
{
    let mut copied = Vec::new(alloc);
    copied.extend_from_slice(labels)?;
    Ok(copied)
}
