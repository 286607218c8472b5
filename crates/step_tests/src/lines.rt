//! What a line says, and what comes of it.

ghost use Rattle.laid_types.specs.SameTypes.{AreDistinct};

use crate::entries::{count_of, write_instance};
use crate::given::{check_words, given};
use crate::lifting::write_lifted;
use crate::passing::{program, script};
use crate::telling::write_lines;
use crate::world::{fill_world, let_go, nothing};
use cases::Answers;
use graph_cases::{NamedGraph, graph};
use laid_types::LaidTypes;
use programs::Program;
use script_reader::Script;
use std::alloc::Global;
use std::fmt::Write;
use std::test::Fail;
use table_texts::{put_all, types_told};
use world_parts::Parts;

/// Writes the handles that are lent for task 2, where one is.
fn write_lends(parts: &Parts, text: &mut String) -> Result<(), Fail> {
    let Some(slot) = parts.tasks.slot(2) else {
        return Err(Fail::new("no task"));
    };
    let Some(lends) = slot.lends() else {
        return Ok(());
    };
    if lends.is_empty() {
        return Ok(());
    }
    text.push_str("; lends")?;
    for handle in lends.as_slice() {
        write!(text, " {handle}")?;
    }
    Ok(())
}

/// Writes an instance that had entries of words.
fn write_at(
    alloc: Global,
    parts: &Parts,
    at: usize,
    words: &str,
    text: &mut String,
) -> Result<(), Fail> {
    let name = if at == 0 { "in" } else { "out" };
    let count = count_of(words)?;
    match parts.instances.get(at) {
        Some(instance) => write_instance(alloc, instance, name, count, text),
        None => Err(Fail::new("no instance")),
    }
}

/// Writes what lifting left.
fn write_left(alloc: Global, parts: &Parts, line: &str, text: &mut String) -> Result<(), Fail> {
    write_lines(alloc, parts, text)?;
    write_at(alloc, parts, 0, given(line, "in", ""), text)?;
    write_at(alloc, parts, 1, given(line, "out", ""), text)?;
    write_lends(parts, text)
}

/// What comes of a line in a world that has nothing yet, whose ends have types of these numbers.
fn program_answer(
    alloc: Global,
    named: &NamedGraph,
    program: &Program<'_, '_>,
    parts: &mut Parts,
    ends: &[usize],
    line: &str,
) -> Result<String, Fail>
    requires { AreDistinct program.now.types.now }
{
    fill_world(alloc, parts, named, ends, line)?;
    let mut text = String::new(alloc);
    write_lifted(alloc, named, program, parts, line, &mut text)?;
    write_left(alloc, parts, line, &mut text)?;
    Ok(text)
}

/// What comes of a line, whose types have these numbers.
fn types_answer(
    alloc: Global,
    named: &NamedGraph,
    script: &Script,
    types: &LaidTypes,
    numbers: &[usize],
    line: &str,
) -> Result<String, Fail>
    requires { AreDistinct types.now }
{
    let params = numbers.get(0).copied().ok_or("no type")?;
    let returned = match given(line, "type", "") {
        "none" => None,
        _ => Some(params),
    };
    let program = program(alloc, named, script, types, params, returned)?;
    let ends = numbers.get(1..).unwrap_or(&[]);
    let mut parts = nothing(alloc);
    let came = program_answer(alloc, named, &program, &mut parts, ends, line);
    let_go(parts);
    came
}

/// The text of the types of a line. Where there is none one is taken that is not asked for.
fn type_words(line: &str) -> &str {
    match given(line, "type", "") {
        "none" => "bool",
        words => words,
    }
}

/// What comes of a line over a graph and a script.
fn script_answer(
    alloc: Global,
    named: &NamedGraph,
    script: &Script,
    line: &str,
) -> Result<String, Fail> {
    let val_types = types_told(alloc, type_words(line))?;
    let (types, numbers) = put_all(alloc, &val_types)?;
    types_answer(alloc, named, script, &types, &numbers, line)
}

/// What comes of a line over a graph.
fn graph_answer(alloc: Global, named: &NamedGraph, line: &str) -> Result<String, Fail> {
    let script = script(alloc, &named.graph)?;
    script_answer(alloc, named, &script, line)
}

/// What comes of a line.
fn line_answer(alloc: Global, line: &str) -> Result<String, Fail> {
    let named = graph(alloc)?;
    let came = graph_answer(alloc, &named, line);
    graph_cases::let_go(named);
    came
}

/// Lines of what is lifted.
pub(crate) struct Lifts;

impl Answers for Lifts {
    fn answer(alloc: Global, line: &str) -> Result<String, Fail> {
        check_words(line)?;
        line_answer(alloc, line)
    }
}
