//! Layers of words, put into a table.

ghost use Rattle.std.specs.Prelude.{◌≡◌, true, IfOk};
ghost use Rattle.std.specs.List.{list_all};
ghost use Rattle.laid_types.specs.Layers.{AreThere, part_numbers};
ghost use Rattle.link_value_tests.specs.There.{is_there};

use laid_types::{LabelledCase, LabelledPart, ValTypeLayer};
use link_values::ValueTypes;
use std::alloc::Global;
use std::test::Fail;

/// Whether a number, if there is one, is below a count.
fn is_there(count: usize, number: Option<usize>) -> bool
    ensures { result ≡ is_there count number }
{
    match number {
        Some(number) => number < count,
        None => true,
    }
}

/// Whether each number, if there is one, is below a count.
fn all_there(count: usize, numbers: &[Option<usize>]) -> bool
    ensures { result ≡ list_all (λ number. is_there count number) numbers.now }
{
    numbers.iter().all(|number| is_there(count, *number))
}

/// Whether parts are there.
fn parts_there(types: &ValueTypes<'_>, parts: &[Option<usize>]) -> bool
    ensures { result ≡ true → AreThere types.now parts.now }
{
    all_there(types.len(), parts)
}

/// Whether the parts of a layer are there.
fn are_there(
    alloc: Global,
    types: &ValueTypes<'_>,
    layer: &ValTypeLayer<'_, '_>,
) -> Result<bool, Fail>
    ensures { IfOk result (λ there. there ≡ true → AreThere types.now (part_numbers layer.now)) }
{
    let parts = layer.parts(alloc)?;
    Ok(parts_there(types, &parts))
}

/// Numbers the type of a layer.
pub(crate) fn put<'a>(
    alloc: Global,
    types: &mut ValueTypes<'a>,
    layer: &ValTypeLayer<'_, 'a>,
) -> Result<usize, Fail> {
    if !are_there(alloc, types, layer)? {
        return Err(Fail::new("no part"));
    }
    Ok(types.number_of(alloc, layer)?)
}

/// A word: a label, and behind a colon the number of a type.
fn labelled(word: &str) -> Result<LabelledCase<'_>, Fail> {
    match word.split_once(':') {
        Some((label, number)) => Ok(LabelledCase {
            label,
            payload: Some(number.parse::<usize>()?),
        }),
        None => Ok(LabelledCase {
            label: word,
            payload: None,
        }),
    }
}

/// The words behind the name of a layer.
fn cases<'a>(alloc: Global, text: &'a str) -> Result<Vec<LabelledCase<'a>>, Fail> {
    let mut cases = Vec::new(alloc);
    for word in text.split_whitespace() {
        cases.push(labelled(word)?)?;
    }
    Ok(cases)
}

/// The labels of words.
fn labels<'a>(alloc: Global, cases: &[LabelledCase<'a>]) -> Result<Vec<&'a str>, Fail> {
    let mut labels = Vec::new(alloc);
    for case in cases {
        labels.push(case.label)?;
    }
    Ok(labels)
}

/// The fields that words stand for.
fn fields<'a>(alloc: Global, cases: &[LabelledCase<'a>]) -> Result<Vec<LabelledPart<'a>>, Fail> {
    let mut fields = Vec::new(alloc);
    for case in cases {
        let number = case.payload.ok_or("no type")?;
        let label = case.label;
        fields.push(LabelledPart { label, number })?;
    }
    Ok(fields)
}

/// The places that words stand for.
fn places(alloc: Global, cases: &[LabelledCase<'_>]) -> Result<Vec<usize>, Fail> {
    let mut places = Vec::new(alloc);
    for case in cases {
        places.push(case.payload.ok_or("no type")?)?;
    }
    Ok(places)
}

/// The number of a word, if it has one.
fn part(cases: &[LabelledCase<'_>], at: usize) -> Option<usize> {
    match cases.get(at) {
        Some(case) => case.payload,
        None => None,
    }
}

/// The layer of one type or of two, or of a type without parts.
fn small_layer(
    name: &str,
    cases: &[LabelledCase<'_>],
) -> Result<ValTypeLayer<'static, 'static>, Fail> {
    let first = part(cases, 0);
    match name {
        "u8" => Ok(ValTypeLayer::U8),
        "s8" => Ok(ValTypeLayer::S8),
        "string" => Ok(ValTypeLayer::String),
        "list" => Ok(ValTypeLayer::List(first.ok_or("no type")?)),
        "option" => Ok(ValTypeLayer::Option(first.ok_or("no type")?)),
        "stream" => Ok(ValTypeLayer::Stream(first)),
        "future" => Ok(ValTypeLayer::Future(first)),
        "result" => {
            let err = part(cases, 1);
            Ok(ValTypeLayer::Result { ok: first, err })
        }
        _ => Err(Fail::new("no layer")),
    }
}

/// The layer of a handle to a resource of a type with this number.
fn handle_layer(name: &str, resource: u32) -> ValTypeLayer<'static, 'static> {
    if name == "own" {
        ValTypeLayer::Own(resource)
    } else {
        ValTypeLayer::Borrow(resource)
    }
}

/// Numbers the type of a layer of words: its name, and behind it labels and numbers.
pub(crate) fn put_words<'a>(
    alloc: Global,
    types: &mut ValueTypes<'a>,
    words: &'a str,
) -> Result<usize, Fail> {
    let (name, rest) = words.split_once(' ').unwrap_or((words, ""));
    let cases = cases(alloc, rest)?;
    match name {
        "record" => put(alloc, types, &ValTypeLayer::Record(&fields(alloc, &cases)?)),
        "variant" => put(alloc, types, &ValTypeLayer::Variant(&cases)),
        "tuple" => put(alloc, types, &ValTypeLayer::Tuple(&places(alloc, &cases)?)),
        "flags" => put(alloc, types, &ValTypeLayer::Flags(&labels(alloc, &cases)?)),
        "enum" => put(alloc, types, &ValTypeLayer::Enum(&labels(alloc, &cases)?)),
        "own" | "borrow" => put(alloc, types, &handle_layer(name, rest.parse::<u32>()?)),
        _ => put(alloc, types, &small_layer(name, &cases)?),
    }
}
