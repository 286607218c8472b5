//! The texts of types (after Component Model, WIT.md, "Types").

ghost use Rattle.std.specs.Prelude.{◌≡◌, ◌++◌, OnOk, IfOk, codes, map};
ghost use Rattle.syntax_trees.specs.declared.types.ValType.{out-ValType};
ghost use Rattle.value_texts.specs.LeafText.{primitive_text, leaf_text};
ghost use Rattle.syntax_trees.specs.TypeText.{type_text, field_text, case_text, listed, listed_labels, held_text, part_text, ended, resource_text};

use crate::names::push_name;
use crate::pieces::{Labels, push_number, push_word};
use crate::text::push_separated;
use faults::Memory;
use std::alloc::Global;
use syntax_trees::{Bytes, Case, Field, Name, Seq, Shared, ValType};

/// How long a text of a type may be before another type is appended, in bytes.
const TEXT_LIMIT: usize = 268_435_456;

/// Appends a field's label and type.
#[cycle(type_text)]
fn push_field(alloc: Global, field: &Field, to: &mut Vec<u8>) -> Result<(), Memory>
    ensures { OnOk result (to.new.items ≡ to.old.items ++ field_text field.now) }
{
    push_name(&field.label, to)?;
    to.extend_from_slice(b": ")?;
    push_type(alloc, field.val_type.get(), to)
}

/// Appends fields with a comma and a space between them.
#[cycle(type_text)]
fn push_fields(alloc: Global, fields: &[Field], to: &mut Vec<u8>) -> Result<(), Memory>
    ensures { OnOk result (to.new.items ≡ to.old.items ++ listed (map field_text fields.now)) }
{
    let Some((first, others)) = fields.split_first() else {
        return Ok(());
    };
    push_field(alloc, first, to)?;
    for field in others {
        to.extend_from_slice(b", ")?;
        push_field(alloc, field, to)?;
    }
    Ok(())
}

/// Appends a case's label, and its payload's type where it has one.
#[cycle(type_text)]
fn push_case(alloc: Global, case: &Case, to: &mut Vec<u8>) -> Result<(), Memory>
    ensures { OnOk result (to.new.items ≡ to.old.items ++ case_text case.now) }
{
    push_name(&case.label, to)?;
    let Some(payload) = &case.payload else {
        return Ok(());
    };
    to.push(b'(')?;
    push_type(alloc, payload.get(), to)?;
    to.push(b')')?;
    Ok(())
}

/// Appends cases with a comma and a space between them.
#[cycle(type_text)]
fn push_cases(alloc: Global, cases: &[Case], to: &mut Vec<u8>) -> Result<(), Memory>
    ensures { OnOk result (to.new.items ≡ to.old.items ++ listed (map case_text cases.now)) }
{
    let Some((first, others)) = cases.split_first() else {
        return Ok(());
    };
    push_case(alloc, first, to)?;
    for case in others {
        to.extend_from_slice(b", ")?;
        push_case(alloc, case, to)?;
    }
    Ok(())
}

/// Appends types with a comma and a space between them.
#[cycle(type_text)]
fn push_parts(alloc: Global, parts: &[Shared<ValType>], to: &mut Vec<u8>) -> Result<(), Memory>
    ensures { OnOk result (to.new.items ≡ to.old.items ++ listed (map type_text parts.now)) }
{
    let Some((first, others)) = parts.split_first() else {
        return Ok(());
    };
    push_type(alloc, first.get(), to)?;
    for part in others {
        to.extend_from_slice(b", ")?;
        push_type(alloc, part.get(), to)?;
    }
    Ok(())
}

/// Appends a type, or an underscore where there is none.
#[cycle(type_text)]
fn push_part(alloc: Global, part: &Option<Shared<ValType>>, to: &mut Vec<u8>) -> Result<(), Memory>
    ensures { OnOk result (to.new.items ≡ to.old.items ++ part_text (held_text part.now)) }
{
    match part {
        Some(part) => push_type(alloc, part.get(), to),
        None => {
            to.push(b'_')?;
            Ok(())
        }
    }
}

/// Appends the type of elements in angle brackets, or nothing where there is none.
#[cycle(type_text)]
fn push_element(
    alloc: Global,
    element: &Option<Shared<ValType>>,
    to: &mut Vec<u8>,
) -> Result<(), Memory>
    ensures { OnOk result (to.new.items ≡ to.old.items ++ ended (held_text element.now)) }
{
    let Some(element) = element else {
        return Ok(());
    };
    to.push(b'<')?;
    push_type(alloc, element.get(), to)?;
    to.push(b'>')?;
    Ok(())
}

/// Appends labels between braces.
fn push_labels(alloc: Global, labels: &[Name], to: &mut Vec<u8>) -> Result<(), Memory>
    ensures { OnOk result (to.new.items ≡ to.old.items ++ codes "{" ++ listed_labels labels.now ++ codes "}") }
{
    to.push(b'{')?;
    push_separated::<Labels>(alloc, b", ", labels, to)?;
    to.push(b'}')?;
    Ok(())
}

/// Appends the number of a resource's type in angle brackets.
fn push_resource(alloc: Global, resource: u32, to: &mut Vec<u8>) -> Result<(), Memory>
    ensures { OnOk result (to.new.items ≡ to.old.items ++ resource_text resource) }
{
    to.extend_from_slice(b"<R")?;
    push_number(alloc, resource, to)?;
    to.push(b'>')?;
    Ok(())
}

/// The name of a type that has neither parts nor labels. Of any other type it is empty.
fn primitive_name(val_type: &ValType) -> &'static [u8]
    ensures { result.now ≡ primitive_text (out-ValType val_type.now) }
{
    match val_type {
        ValType::Bool => b"bool",
        ValType::S8 => b"s8",
        ValType::U8 => b"u8",
        ValType::S16 => b"s16",
        ValType::U16 => b"u16",
        ValType::S32 => b"s32",
        ValType::U32 => b"u32",
        ValType::S64 => b"s64",
        ValType::U64 => b"u64",
        ValType::Char => b"char",
        ValType::String => b"string",
        _ => b"",
    }
}

/// Appends a word, and labels between braces.
fn push_labelled(
    alloc: Global,
    word: &[u8],
    labels: &Seq<Name>,
    to: &mut Vec<u8>,
) -> Result<(), Memory>
    ensures { OnOk result (to.new.items ≡ to.old.items ++ (word.now ++ (codes "{" ++ listed_labels labels.now ++ codes "}"))) }
{
    push_word(word, to)?;
    push_labels(alloc, labels.as_slice(), to)
}

/// Appends a word, and the number of a resource's type in angle brackets.
fn push_handle(alloc: Global, word: &[u8], resource: u32, to: &mut Vec<u8>) -> Result<(), Memory>
    ensures { OnOk result (to.new.items ≡ to.old.items ++ (word.now ++ resource_text resource)) }
{
    push_word(word, to)?;
    push_resource(alloc, resource, to)
}

/// Appends the text of a type that has no parts. Of any other type it appends nothing.
fn push_leaf(alloc: Global, val_type: &ValType, to: &mut Vec<u8>) -> Result<(), Memory>
    ensures { OnOk result (to.new.items ≡ to.old.items ++ leaf_text (out-ValType val_type.now)) }
{
    match val_type {
        ValType::Flags(labels) => push_labelled(alloc, b"flags", labels, to),
        ValType::Enum(labels) => push_labelled(alloc, b"enum", labels, to),
        ValType::Own(resource) => push_handle(alloc, b"own", *resource, to),
        ValType::Borrow(resource) => push_handle(alloc, b"borrow", *resource, to),
        _ => push_word(primitive_name(val_type), to),
    }
}

/// Appends the text of a record with these fields.
#[cycle(type_text)]
fn push_record(alloc: Global, fields: &Seq<Field>, to: &mut Vec<u8>) -> Result<(), Memory>
    ensures { OnOk result (to.new.items ≡ to.old.items ++ (codes "record{" ++ listed (map field_text fields.now) ++ codes "}")) }
{
    push_word(b"record{", to)?;
    push_fields(alloc, fields.as_slice(), to)?;
    push_word(b"}", to)
}

/// Appends the text of a variant with these cases.
#[cycle(type_text)]
fn push_variant(alloc: Global, cases: &Seq<Case>, to: &mut Vec<u8>) -> Result<(), Memory>
    ensures { OnOk result (to.new.items ≡ to.old.items ++ (codes "variant{" ++ listed (map case_text cases.now) ++ codes "}")) }
{
    push_word(b"variant{", to)?;
    push_cases(alloc, cases.as_slice(), to)?;
    push_word(b"}", to)
}

/// Appends the text of a tuple of these types.
#[cycle(type_text)]
fn push_tuple(alloc: Global, parts: &Seq<Shared<ValType>>, to: &mut Vec<u8>) -> Result<(), Memory>
    ensures { OnOk result (to.new.items ≡ to.old.items ++ (codes "tuple<" ++ listed (map type_text parts.now) ++ codes ">")) }
{
    push_word(b"tuple<", to)?;
    push_parts(alloc, parts.as_slice(), to)?;
    push_word(b">", to)
}

/// Appends a word, and a type behind it up to the closing bracket.
#[cycle(type_text)]
fn push_around(alloc: Global, word: &[u8], part: &ValType, to: &mut Vec<u8>) -> Result<(), Memory>
    ensures { OnOk result (to.new.items ≡ to.old.items ++ (word.now ++ type_text part.now ++ codes ">")) }
{
    push_word(word, to)?;
    push_type(alloc, part, to)?;
    push_word(b">", to)
}

/// Appends the text of a result up to the type of its failure.
#[cycle(type_text)]
fn push_ok(alloc: Global, ok: &Option<Shared<ValType>>, to: &mut Vec<u8>) -> Result<(), Memory>
    ensures { OnOk result (to.new.items ≡ to.old.items ++ (codes "result<" ++ part_text (held_text ok.now) ++ codes ", ")) }
{
    push_word(b"result<", to)?;
    push_part(alloc, ok, to)?;
    push_word(b", ", to)
}

/// Appends the text of a result from the type of its failure on.
#[cycle(type_text)]
fn push_err(alloc: Global, err: &Option<Shared<ValType>>, to: &mut Vec<u8>) -> Result<(), Memory>
    ensures { OnOk result (to.new.items ≡ to.old.items ++ (part_text (held_text err.now) ++ codes ">")) }
{
    push_part(alloc, err, to)?;
    push_word(b">", to)
}

/// Appends a word, and the type of elements in angle brackets where there is one.
#[cycle(type_text)]
fn push_end(
    alloc: Global,
    word: &[u8],
    element: &Option<Shared<ValType>>,
    to: &mut Vec<u8>,
) -> Result<(), Memory>
    ensures { OnOk result (to.new.items ≡ to.old.items ++ (word.now ++ ended (held_text element.now))) }
{
    push_word(word, to)?;
    push_element(alloc, element, to)
}

/// Appends the text of a type. A type whose parts are shared can have a text that no memory holds, so a text of 256 MiB counts as
/// one for which there is no memory.
#[cycle(type_text)]
#[tactic(auto, using(crate::proofs::TextEquations::text_of_record, crate::proofs::TextEquations::text_of_variant, crate::proofs::TextEquations::text_of_tuple, crate::proofs::TextEquations::text_of_result, crate::proofs::TextEquations::text_of_list, crate::proofs::TextEquations::text_of_option, crate::proofs::TextEquations::text_of_stream, crate::proofs::TextEquations::text_of_future))]
fn push_type(alloc: Global, val_type: &ValType, to: &mut Vec<u8>) -> Result<(), Memory>
    ensures { OnOk result (to.new.items ≡ to.old.items ++ type_text val_type.now) }
{
    if to.len() >= TEXT_LIMIT {
        return Err(Memory);
    }
    match val_type {
        ValType::Record(fields) => push_record(alloc, fields, to),
        ValType::Variant(cases) => push_variant(alloc, cases, to),
        ValType::List(element) => push_around(alloc, b"list<", element.get(), to),
        ValType::Tuple(parts) => push_tuple(alloc, parts, to),
        ValType::Option(part) => push_around(alloc, b"option<", part.get(), to),
        ValType::Result { ok, err } => {
            push_ok(alloc, ok, to)?;
            push_err(alloc, err, to)
        }
        ValType::Stream(element) => push_end(alloc, b"stream", element, to),
        ValType::Future(element) => push_end(alloc, b"future", element, to),
        _ => push_leaf(alloc, val_type, to),
    }
}

/// The text of a type: `list<u8>`, `record{a: u8, b: string}`, `result<_, own<R1>>`. Labels stand as
/// `name_text` writes them. It fails
/// for want of memory alone.
pub fn type_text(alloc: Global, val_type: &ValType) -> Result<Bytes, Memory>
    ensures { IfOk result (λ text. text ≡ type_text val_type.now) }
{
    let mut text = Vec::new(alloc);
    push_type(alloc, val_type, &mut text)?;
    Ok(Seq::from_vec(text))
}
