//! Function types of words, put into a table.

ghost use Rattle.std.specs.Prelude.{◌≡◌, true, nat_lt};
ghost use Rattle.std.specs.List.{list_all};
ghost use Rattle.laid_types.specs.Layers.{IsThere};
ghost use Rattle.link_types.specs.Labels.{HaveTypes};

use laid_types::ValTypeLayer;
use link_types::{FuncTypeRef, LabelledType, Types};
use std::alloc::Global;
use std::test::Fail;

/// Whether the type of each parameter has a number below a count.
fn all_below(count: usize, params: &[LabelledType<'_>]) -> bool
    ensures { result ≡ list_all (λ p. nat_lt p.val_type count) params.now }
{
    params.iter().all(|param| param.val_type < count)
}

/// Whether the types of parameters are there.
fn are_there(types: &Types<'_>, params: &[LabelledType<'_>]) -> bool
    ensures { result ≡ true → HaveTypes types.now.values params.now }
{
    all_below(types.value_count(), params)
}

/// Numbers the tuple of two u32.
fn pair(alloc: Global, types: &mut Types<'_>) -> Result<usize, Fail> {
    let part = types.value_type(alloc, &ValTypeLayer::U32)?;
    if part >= types.value_count() {
        return Err(Fail::new("no part"));
    }
    Ok(types.value_type(alloc, &ValTypeLayer::Tuple(&[part, part]))?)
}

/// Numbers the list of strings.
fn words(alloc: Global, types: &mut Types<'_>) -> Result<usize, Fail> {
    let element = types.value_type(alloc, &ValTypeLayer::String)?;
    if element >= types.value_count() {
        return Err(Fail::new("no element"));
    }
    Ok(types.value_type(alloc, &ValTypeLayer::List(element))?)
}

/// Numbers the type of a word.
fn value_type(alloc: Global, types: &mut Types<'_>, word: &str) -> Result<usize, Fail> {
    match word {
        "u32" => Ok(types.value_type(alloc, &ValTypeLayer::U32)?),
        "u64" => Ok(types.value_type(alloc, &ValTypeLayer::U64)?),
        "string" => Ok(types.value_type(alloc, &ValTypeLayer::String)?),
        "pair" => pair(alloc, types),
        "words" => words(alloc, types),
        _ => Err(Fail::new("no type")),
    }
}

/// The types of words, each under its word.
fn params<'a>(
    alloc: Global,
    types: &mut Types<'a>,
    text: &'a str,
) -> Result<Vec<LabelledType<'a>>, Fail> {
    let mut params = Vec::new(alloc);
    for label in text.split_whitespace().filter(|word| *word != "-") {
        let val_type = value_type(alloc, types, label)?;
        params.push(LabelledType { label, val_type })?;
    }
    Ok(params)
}

/// The type of a result, none where the word is a dash.
fn returned(alloc: Global, types: &mut Types<'_>, word: &str) -> Result<Option<usize>, Fail> {
    if word == "-" {
        return Ok(None);
    }
    Ok(Some(value_type(alloc, types, word)?))
}

/// Makes the function type of words: the types of the parameters, and behind a colon that of the result.
pub(crate) fn func_type<'a>(
    alloc: Global,
    types: &mut Types<'a>,
    text: &'a str,
) -> Result<FuncTypeRef, Fail> {
    let Some((before, behind)) = text.split_once(" : ") else {
        return Err(Fail::new("no result"));
    };
    let params = params(alloc, types, before)?;
    let returned = returned(alloc, types, behind)?;
    made(alloc, types, &params, returned)
}

/// Whether the type of the result is there, where there is a result.
fn is_there(types: &Types<'_>, returned: Option<usize>) -> bool
    ensures { result ≡ true → IsThere types.now.values returned }
{
    match returned {
        Some(number) => number < types.value_count(),
        None => true,
    }
}

/// Makes a function type of parameters and a result.
fn made<'a>(
    alloc: Global,
    types: &mut Types<'a>,
    params: &[LabelledType<'a>],
    returned: Option<usize>,
) -> Result<FuncTypeRef, Fail> {
    if !are_there(types, params) || !is_there(types, returned) {
        return Err(Fail::new("no value type"));
    }
    Ok(types.func_type(alloc, params, returned)?)
}
