//! Values by their types.

ghost use Rattle.std.specs.Prelude.{◌≡◌, map, IfOk, None, Some, MatchOption};
ghost use Rattle.std.specs.List.{slice_get, position};
ghost use Rattle.std.specs.Str.{bytes_eq};
ghost use Rattle.value_reader.specs.Reads.{Reads, MayRead, Follows};
ghost use Rattle.value_reader.specs.Values as values;

use crate::fault::NoText;
use crate::labels::{flags_at, is_label, place_of};
use crate::numbers::{s8_at, s16_at, s32_at, s64_at, u8_at, u16_at, u32_at, u64_at};
use crate::quoted::{char_at, string_at};
use crate::text::Text;
use faults::{Memory, MemoryOr};
use std::alloc::Global;
use syntax_trees::{Boxed, Case, Field, Name, Seq, Shared, ValType, Value, Values};

/// Reads a truth value.
fn bool_at(text: &mut Text<'_>) -> Result<Value, NoText>
    ensures { Reads (values.bool_at text.old) text.new result }
{
    if text.has_word(b"true") {
        return Ok(Value::Bool(true));
    }
    text.word(b"false")?;
    Ok(Value::Bool(false))
}

/// Reads one of these labels.
fn enum_at(labels: &[Name], text: &mut Text<'_>) -> Result<Value, MemoryOr<NoText>>
    ensures { MayRead (values.enum_at labels.now text.old) text.new result }
{
    let place = place_of(text.label(), labels).ok_or(NoText)?;
    let case = case_number(place)?;
    Ok(Value::Variant(case, None))
}

/// Goes on to where a value of a list may stand: behind a comma, where values stand before.
pub fn skip_separator(before: &Values, text: &mut Text<'_>) -> Result<(), NoText>
    ensures { Follows (values.separated before.now text.old) text.new result }
{
    if before.is_empty() {
        Ok(())
    } else {
        text.mark(b',')
    }
}

/// The number of a case. A list of 2^32 cases and more counts as want of memory.
fn case_number(place: usize) -> Result<u32, Memory>
    ensures { IfOk result (λ n. n ≡ place) }
{
    u32::try_from(place).map_err(|_| Memory)
}

/// The number of the first of these cases that has this label.
fn first_labelled(label: &[u8], cases: &[Case]) -> Option<usize>
    ensures { result ≡ position (λ c. bytes_eq c.label label.now) cases.now }
{
    cases.iter().position(|case| is_label(&case.label, label))
}

/// The place of a label among those of these cases.
fn place_of_case(label: &[u8], cases: &[Case]) -> Option<usize>
    ensures { result ≡ values.place_of label.now (map (λ c. c.label) cases.now) }
{
    first_labelled(label, cases)
}

/// The case with this number, counted from 0.
#[tactic(auto, using(std::proofs::lemmas::Option::slice_get_past, std::proofs::lemmas::Option::slice_get_read))]
fn case_of(cases: &[Case], place: usize) -> Option<&Case>
    ensures { MatchOption result (slice_get cases.now place ≡ None) (λ c. slice_get cases.now place ≡ Some c.now) }
{
    cases.get(place)
}

/// Reads a value of a type without parts. Of any other type it reads nothing.
fn plain_at(
    alloc: Global,
    val_type: &ValType,
    text: &mut Text<'_>,
) -> Result<Value, MemoryOr<NoText>>
    ensures { MayRead (values.plain_at val_type.now text.old) text.new result }
{
    match val_type {
        ValType::Bool => Ok(bool_at(text)?),
        ValType::S8 => Ok(s8_at(text)?),
        ValType::U8 => Ok(u8_at(text)?),
        ValType::S16 => Ok(s16_at(text)?),
        ValType::U16 => Ok(u16_at(text)?),
        ValType::S32 => Ok(s32_at(text)?),
        ValType::U32 => Ok(u32_at(text)?),
        ValType::S64 => Ok(s64_at(text)?),
        ValType::U64 => Ok(u64_at(text)?),
        ValType::Char => Ok(Value::Char(char_at(alloc, text)?)),
        ValType::String => Ok(Value::String(string_at(alloc, text)?)),
        ValType::Flags(labels) => Ok(Value::Flags(flags_at(alloc, labels.as_slice(), text)?)),
        ValType::Enum(labels) => enum_at(labels.as_slice(), text),
        _ => Err(MemoryOr::Fault(NoText)),
    }
}

/// Reads a field: its label, a colon, and its value.
#[cycle(value_at)]
fn field_at(alloc: Global, field: &Field, text: &mut Text<'_>) -> Result<Value, MemoryOr<NoText>>
    ensures { MayRead (values.field_reader field.now text.old) text.new result }
{
    let label = text.label();
    if !is_label(&field.label, label) {
        return Err(MemoryOr::Fault(NoText));
    }
    text.mark(b':')?;
    text.skip_blanks();
    value_at(alloc, field.val_type.get(), text)
}

/// Reads the values of fields, in order, and the brace that closes them.
#[cycle(value_at)]
fn fields_at(
    alloc: Global,
    fields: &[Field],
    text: &mut Text<'_>,
) -> Result<Values, MemoryOr<NoText>>
    ensures { MayRead (values.values_at 125 (map values.field_reader fields.now) text.old) text.new result }
{
    let mut values = Seq::new(alloc);
    for field in fields {
        skip_separator(&values, text)?;
        text.skip_blanks();
        let value = field_at(alloc, field, text)?;
        values.push(value)?;
    }
    text.mark(b'}')?;
    Ok(values)
}

/// Reads the values of the places of a tuple, and the parenthesis that closes them.
#[cycle(value_at)]
fn parts_at(
    alloc: Global,
    parts: &[Shared<ValType>],
    text: &mut Text<'_>,
) -> Result<Values, MemoryOr<NoText>>
    ensures { MayRead (values.values_at 41 (map values.reader parts.now) text.old) text.new result }
{
    let mut values = Seq::new(alloc);
    for part in parts {
        skip_separator(&values, text)?;
        text.skip_blanks();
        let value = value_at(alloc, part.get(), text)?;
        values.push(value)?;
    }
    text.mark(b')')?;
    Ok(values)
}

/// Reads the elements of a list, and the bracket that closes them.
#[cycle(value_at)]
#[tactic(auto, using(crate::proofs::Elements::elements_over, crate::proofs::Elements::elements_no_value, crate::proofs::Elements::elements_close, crate::proofs::Elements::elements_go, crate::proofs::Elements::elements_end))]
fn elements_at(
    alloc: Global,
    element: &ValType,
    text: &mut Text<'_>,
) -> Result<Values, MemoryOr<NoText>>
    ensures { MayRead (values.elements_at (values.reader element.now) text.old) text.new result }
{
    let mut values = Seq::new(alloc);
    if text.has_mark(b']') {
        return Ok(values);
    }
    let count = text.len();
    for _place in 0..count {
        text.skip_blanks();
        let value = value_at(alloc, element, text)?;
        values.push(value)?;
        if text.has_mark(b']') {
            return Ok(values);
        }
        text.mark(b',')?;
    }
    Err(MemoryOr::Fault(NoText))
}

/// Reads a payload in parentheses.
#[cycle(value_at)]
fn payload_at(
    alloc: Global,
    part: &ValType,
    text: &mut Text<'_>,
) -> Result<Boxed<Value>, MemoryOr<NoText>>
    ensures { MayRead (values.payload_at (values.reader part.now) text.old) text.new result }
{
    text.mark(b'(')?;
    text.skip_blanks();
    let value = value_at(alloc, part, text)?;
    text.mark(b')')?;
    Ok(Boxed::new(alloc, value)?)
}

/// Reads what stands behind the label of a case.
#[cycle(value_at)]
fn case_at(
    alloc: Global,
    case: u32,
    part: &Option<Shared<ValType>>,
    text: &mut Text<'_>,
) -> Result<Value, MemoryOr<NoText>>
    ensures { MayRead (values.case_at case (values.payload_reader part.now) text.old) text.new result }
{
    match part {
        Some(part) => {
            let payload = payload_at(alloc, part.get(), text)?;
            Ok(Value::Variant(case, Some(payload)))
        }
        None => Ok(Value::Variant(case, None)),
    }
}

/// Reads a case of a variant.
#[cycle(value_at)]
#[tactic(auto, using(crate::proofs::ReaderEquations::labels_of_cases, crate::proofs::Chosen::reads_case, crate::proofs::Chosen::reads_no_case, crate::proofs::Chosen::reads_lost_case))]
fn variant_at(alloc: Global, cases: &[Case], text: &mut Text<'_>) -> Result<Value, MemoryOr<NoText>>
    ensures { MayRead (values.variant_at (map values.case_reader cases.now) text.old) text.new result }
{
    let place = place_of_case(text.label(), cases).ok_or(NoText)?;
    let case = case_of(cases, place).ok_or(NoText)?;
    let number = case_number(place)?;
    case_at(alloc, number, &case.payload, text)
}

/// Reads an option.
#[cycle(value_at)]
fn option_at(alloc: Global, part: &ValType, text: &mut Text<'_>) -> Result<Value, MemoryOr<NoText>>
    ensures { MayRead (values.option_at (values.reader part.now) text.old) text.new result }
{
    if text.has_word(b"none") {
        return Ok(Value::Variant(0, None));
    }
    text.word(b"some")?;
    let payload = payload_at(alloc, part, text)?;
    Ok(Value::Variant(1, Some(payload)))
}

/// Reads a value of a type.
#[cycle(value_at)]
#[tactic(auto, using(crate::proofs::ReaderEquations::reader_of_tuple, crate::proofs::ReaderEquations::reader_of_record, crate::proofs::ReaderEquations::reader_of_variant, crate::proofs::ReaderEquations::reader_of_list, crate::proofs::ReaderEquations::reader_of_option, crate::proofs::ReaderEquations::reader_of_result))]
pub fn value_at(
    alloc: Global,
    val_type: &ValType,
    text: &mut Text<'_>,
) -> Result<Value, MemoryOr<NoText>>
    ensures { MayRead (values.reader val_type.now text.old) text.new result }
{
    match val_type {
        ValType::Record(fields) => {
            text.word(b"{")?;
            Ok(Value::Record(fields_at(alloc, fields.as_slice(), text)?))
        }
        ValType::Variant(cases) => variant_at(alloc, cases.as_slice(), text),
        ValType::List(element) => {
            text.word(b"[")?;
            Ok(Value::List(elements_at(alloc, element.get(), text)?))
        }
        ValType::Tuple(parts) => {
            text.word(b"(")?;
            Ok(Value::Record(parts_at(alloc, parts.as_slice(), text)?))
        }
        ValType::Option(part) => option_at(alloc, part.get(), text),
        ValType::Result { ok, err } => {
            if text.has_word(b"ok") {
                return case_at(alloc, 0, ok, text);
            }
            text.word(b"err")?;
            case_at(alloc, 1, err, text)
        }
        _ => plain_at(alloc, val_type, text),
    }
}
