//! What is lifted, as text.

ghost use Rattle.laid_types.specs.SameTypes.{AreDistinct};
ghost use Rattle.value_parts.specs.Lifting.{FewLent};
ghost use Rattle.world_parts.specs.Held.{held};

use crate::given::{given, words_of};
use crate::telling::stopped;
use graph_cases::NamedGraph;
use laid_types::NumberedType;
use programs::Program;
use std::alloc::Global;
use std::test::Fail;
use syntax_trees::{ValType, Value, Values};
use table_texts::number;
use task_table::Callee;
use trace_labels::TypedValue;
use type_texts::value_told;
use value_parts::{Origin, lift_arguments, lift_elements, lift_ended, lift_returned};
use world_parts::{Part, Parts};

/// Writes a value of a type.
fn write_value(
    alloc: Global,
    value: &Value,
    val_type: &ValType,
    text: &mut String,
) -> Result<(), Fail> {
    let told = value_told(alloc, value, val_type)?;
    Ok(text.push_str(told.as_str())?)
}

/// Writes a value, or why there is none.
fn write_came(
    alloc: Global,
    came: Part<Value>,
    val_type: &ValType,
    text: &mut String,
) -> Result<(), Fail> {
    match came {
        Ok(value) => write_value(alloc, &value, val_type, text),
        Err(why) => Ok(text.push_str(stopped(why))?),
    }
}

/// Writes a result, or why there is none.
fn write_result(
    alloc: Global,
    came: Part<Option<TypedValue>>,
    text: &mut String,
) -> Result<(), Fail> {
    match came {
        Ok(Some(typed)) => write_value(alloc, &typed.value, typed.val_type.get(), text),
        Ok(None) => Ok(text.push_str("nothing")?),
        Err(why) => Ok(text.push_str(stopped(why))?),
    }
}

/// Lifts the arguments of a task.
fn write_arguments(
    alloc: Global,
    program: &Program<'_, '_>,
    parts: &mut Parts,
    line: &str,
    text: &mut String,
) -> Result<(), Fail>
    requires distinct { AreDistinct program.now.types.now }
    requires lends { FewLent (held parts.old) }
{
    let Some(t) = program.params_of(Callee::Export(0)) else {
        return Err(Fail::new("no type"));
    };
    let task = number(given(line, "task", "2"))?;
    let came = lift_arguments(alloc, program, parts, task);
    write_came(alloc, came, t.laid().val_type(), text)
}

/// Lifts the result of a task that has ended.
fn write_ended(
    alloc: Global,
    program: &Program<'_, '_>,
    parts: &mut Parts,
    line: &str,
    text: &mut String,
) -> Result<(), Fail>
    requires distinct { AreDistinct program.now.types.now }
    requires lends { FewLent (held parts.old) }
{
    let task = number(given(line, "task", "2"))?;
    let words = words_of(alloc, given(line, "words", ""))?;
    let came = lift_ended(alloc, program, parts, task, &words);
    write_result(alloc, came, text)
}

/// Lifts the result that a task has returned.
fn write_returned(
    alloc: Global,
    named: &NamedGraph,
    program: &Program<'_, '_>,
    parts: &mut Parts,
    line: &str,
    text: &mut String,
) -> Result<(), Fail>
    requires distinct { AreDistinct program.now.types.now }
    requires lends { FewLent (held parts.old) }
{
    let task = number(given(line, "task", "2"))?;
    let name = given(line, "result", "task.return/u32");
    let canon = named.canon(1, name).ok_or("no such function")?;
    let came = lift_returned(alloc, program, parts, task, canon);
    write_result(alloc, came, text)
}

/// Writes elements of a type of lists, or why there are none.
fn write_elements(
    alloc: Global,
    came: Part<Values>,
    lists: &ValType,
    text: &mut String,
) -> Result<(), Fail> {
    match came {
        Ok(values) => write_value(alloc, &Value::List(values), lists, text),
        Err(why) => Ok(text.push_str(stopped(why))?),
    }
}

/// Where elements are lifted from.
fn origin_of(parts: &Parts, line: &str) -> Result<Origin, Fail> {
    let at = number(given(line, "at", "0"))? as usize;
    let memory = parts.memories.get(at).copied().unwrap_or(None);
    Ok(Origin {
        at,
        callee: 2,
        memory,
    })
}

/// Lifts elements of the type of a number, which is one of lists.
fn write_copied(
    alloc: Global,
    t: &NumberedType<'_>,
    parts: &mut Parts,
    line: &str,
    text: &mut String,
) -> Result<(), Fail>
    requires distinct { AreDistinct t.now.types }
    requires lends { FewLent (held parts.old) }
{
    let from = origin_of(parts, line)?;
    let place = number(given(line, "from", "0"))?;
    let count = number(given(line, "count", "1"))?;
    let Some(element) = t.part(0) else {
        return Err(Fail::new("no lists"));
    };
    let came = lift_elements(alloc, parts, from, &element, place, count);
    write_elements(alloc, came, t.laid().val_type(), text)
}

/// Lifts what a line says, and writes what comes of it.
#[tactic(auto, using(value_parts::proofs::Types::params_distinct))]
pub(crate) fn write_lifted(
    alloc: Global,
    named: &NamedGraph,
    program: &Program<'_, '_>,
    parts: &mut Parts,
    line: &str,
    text: &mut String,
) -> Result<(), Fail>
    requires distinct { AreDistinct program.now.types.now }
    requires lends { FewLent (held parts.old) }
{
    match given(line, "do", "arguments") {
        "arguments" => write_arguments(alloc, program, parts, line, text),
        "ended" => write_ended(alloc, program, parts, line, text),
        "returned" => write_returned(alloc, named, program, parts, line, text),
        _ => match program.params_of(Callee::Export(0)) {
            Some(t) => write_copied(alloc, &t, parts, line, text),
            None => Err(Fail::new("no type")),
        },
    }
}
