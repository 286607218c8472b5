//! Stacks of tasks that begin, and that are to go on.

use crate::given::{check_words, given};
use crate::nested::{OWN, fill};
use crate::telling::stopped;
use crate::world::{let_go, nothing};
use cases::Answers;
use graph_cases::{NamedGraph, graph};
use std::alloc::Global;
use std::test::Fail;
use table_texts::number;
use world_parts::{Part, Parts, Rest};
use world_stacks::{Stacks, go_on, start_on};

/// A task, and words with commas between them.
fn task_and_words(alloc: Global, rest: &str) -> Result<(u32, Vec<u64>), Fail> {
    let (task, words) = rest.split_once(',').unwrap_or((rest, ""));
    let mut all = Vec::new(alloc);
    for word in words.split(',') {
        if let Ok(word) = word.parse::<u64>() {
            all.push(word)?;
        }
    }
    Ok((number(task)?, all))
}

/// Does what a word says.
fn done(
    alloc: Global,
    parts: &mut Parts,
    stacks: &mut Stacks,
    word: &str,
) -> Result<Part<()>, Fail> {
    let Some((name, rest)) = word.split_once(':') else {
        return Ok(stacks.add(alloc));
    };
    let (task, words) = task_and_words(alloc, rest)?;
    match name {
        "start" => Ok(start_on(alloc, parts, stacks, task, OWN, &words)),
        _ => Ok(go_on(stacks, &parts.store, task, &words)),
    }
}

/// What comes of a word.
fn told(came: Part<()>, rest: Rest) -> &'static str {
    match (came, rest) {
        (Ok(()), Rest::Runs) => "runs",
        (Ok(()), _) => "ok",
        (Err(why), _) => stopped(why),
    }
}

/// Does what words say, and writes what comes of each.
fn write_all(
    alloc: Global,
    parts: &mut Parts,
    stacks: &mut Stacks,
    words: &str,
    text: &mut String,
) -> Result<(), Fail> {
    for (place, word) in words.split_whitespace().enumerate() {
        if place > 0 {
            text.push(' ')?;
        }
        parts.rest = Rest::Free;
        let came = done(alloc, parts, stacks, word)?;
        text.push_str(told(came, parts.rest))?;
    }
    Ok(())
}

/// Does what words say with no stacks at first, and writes what comes of each.
fn write_stacks(
    alloc: Global,
    parts: &mut Parts,
    words: &str,
    text: &mut String,
) -> Result<(), Fail> {
    let mut stacks = Stacks::new(alloc);
    let came = write_all(alloc, parts, &mut stacks, words, text);
    stacks.give_up();
    came
}

/// What comes of a line in a world that has nothing yet.
fn starts_answer(
    alloc: Global,
    named: &NamedGraph,
    parts: &mut Parts,
    line: &str,
) -> Result<String, Fail> {
    fill(alloc, parts, named, true, line)?;
    let mut text = String::new(alloc);
    write_stacks(alloc, parts, given(line, "does", ""), &mut text)?;
    Ok(text)
}

/// What comes of a line.
fn starts_told(alloc: Global, line: &str) -> Result<String, Fail> {
    let named = graph(alloc)?;
    let mut parts = nothing(alloc);
    let came = starts_answer(alloc, &named, &mut parts, line);
    let_go(parts);
    graph_cases::let_go(named);
    came
}

/// Lines of stacks.
pub(crate) struct Starts;

impl Answers for Starts {
    fn answer(alloc: Global, line: &str) -> Result<String, Fail> {
        check_words(line)?;
        starts_told(alloc, line)
    }
}
