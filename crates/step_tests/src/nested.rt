//! Post-returns.

use crate::entries::{count_of, instance_of, write_instance};
use crate::given::{check_words, given, words_of};
use crate::module::store_with;
use crate::telling::{stopped, write_lines};
use crate::world::{let_go, nothing};
use ca_base::Fuel;
use cases::Answers;
use comp_graph::{CoreRef, FuncRef};
use entry_gate::Kind;
use graph_cases::{NamedGraph, graph};
use instances::Instance;
use std::alloc::Global;
use std::fmt::Write;
use std::test::Fail;
use table_texts::number;
use task_table::{Callee, Caller, TaskSlot, Tasks};
use tasks::TaskEvent;
use world_parts::{Part, Parts, Rest};
use world_stacks::post_return;

/// The own function of the core instance.
pub(crate) const OWN: FuncRef = FuncRef::Instance(CoreRef {
    instance: 0,
    index: 9,
});

/// A function that is not there.
const ABSENT: FuncRef = FuncRef::Instance(CoreRef {
    instance: 0,
    index: 10,
});

/// The words of context of a line.
fn context_of(words: &str) -> Result<(u32, u32), Fail> {
    let (first, second) = words.split_once(' ').ok_or("no context")?;
    Ok((number(first)?, number(second)?))
}

/// Task 0, which is over or instantiates, and task 1 of the first instance, which the script called and which has these words.
fn add_tasks(
    alloc: Global,
    tasks: &mut Tasks,
    is_made: bool,
    context: (u32, u32),
) -> Result<(), Fail> {
    let mut init = TaskSlot::new(alloc, 0, Kind::Sync, Callee::Init, Caller::Nobody);
    let _entered = init.advance(TaskEvent::Enter);
    if is_made {
        let _exited = init.advance(TaskEvent::Exit);
    }
    let _init = tasks.add(init)?;
    let mut slot = TaskSlot::new(alloc, 0, Kind::Sync, Callee::Export(0), Caller::Host(1));
    let _entered = slot.advance(TaskEvent::Enter);
    slot.context = context;
    let _task = tasks.add(slot)?;
    Ok(())
}

/// Fills a world: two instances, the first of which has a table, two tasks, and a core instance.
pub(crate) fn fill(
    alloc: Global,
    parts: &mut Parts,
    named: &NamedGraph,
    is_made: bool,
    line: &str,
) -> Result<(), Fail> {
    let code = given(line, "code", "");
    parts.store = store_with(alloc, named, given(line, "takes", "none"), code)?;
    parts.feed.left = Fuel::new(u64::from(number(given(line, "units", "100"))?));
    let context = context_of(given(line, "context", "0 0"))?;
    add_tasks(alloc, &mut parts.tasks, is_made, context)?;
    let table = instance_of(alloc, given(line, "in", ""), &[], &[])?;
    parts.instances.push(table)?;
    parts.instances.push(Instance::new(alloc))?;
    Ok(())
}

/// The post-return of a line, if there is one.
fn func_of(named: &NamedGraph, line: &str) -> Result<Option<FuncRef>, Fail> {
    match given(line, "func", "own") {
        "own" => Ok(Some(OWN)),
        "none" => Ok(None),
        "absent" => Ok(Some(ABSENT)),
        name => {
            let number = named.canon(0, name).ok_or("no such function")?;
            Ok(Some(FuncRef::Canon(number)))
        }
    }
}

/// Runs the post-return of a line.
fn run(alloc: Global, named: &NamedGraph, parts: &mut Parts, line: &str) -> Result<Part<()>, Fail> {
    let func = func_of(named, line)?;
    let words = words_of(alloc, given(line, "words", ""))?;
    Ok(post_return(alloc, &named.graph, parts, 1, func, &words))
}

/// What comes of it, as text.
fn came_told(came: Part<()>, rest: Rest) -> &'static str {
    match (came, rest) {
        (Ok(()), Rest::Leaves) => "ok",
        (Ok(()), _) => "another rest",
        (Err(why), _) => stopped(why),
    }
}

/// Writes the units that are left, and the words of task 1.
fn write_left(parts: &Parts, text: &mut String) -> Result<(), Fail> {
    let Some(slot) = parts.tasks.slot(1) else {
        return Err(Fail::new("no task"));
    };
    let (first, second) = slot.context;
    let left = parts.feed.left.left();
    write!(text, "; {left} left, {first} {second}")?;
    Ok(())
}

/// Writes the table of the first instance, where something was in it.
pub(crate) fn write_table(
    alloc: Global,
    parts: &Parts,
    line: &str,
    text: &mut String,
) -> Result<(), Fail> {
    let count = count_of(given(line, "in", ""))?;
    match parts.instances.get(0) {
        Some(instance) => write_instance(alloc, instance, "in", count, text),
        None => Err(Fail::new("no instance")),
    }
}

/// Runs a post-return in a world, and writes what comes of it.
fn write_post(
    alloc: Global,
    named: &NamedGraph,
    parts: &mut Parts,
    line: &str,
    text: &mut String,
) -> Result<(), Fail> {
    fill(alloc, parts, named, true, line)?;
    let came = run(alloc, named, parts, line)?;
    text.push_str(came_told(came, parts.rest))?;
    if text.as_str() == "stuck" {
        return Ok(());
    }
    write_lines(alloc, parts, text)?;
    write_left(parts, text)?;
    write_table(alloc, parts, line, text)
}

/// What comes of a line in a world that has nothing yet.
fn post_answer(
    alloc: Global,
    named: &NamedGraph,
    parts: &mut Parts,
    line: &str,
) -> Result<String, Fail> {
    let mut text = String::new(alloc);
    write_post(alloc, named, parts, line, &mut text)?;
    Ok(text)
}

/// What comes of a line.
fn post_told(alloc: Global, line: &str) -> Result<String, Fail> {
    let named = graph(alloc)?;
    let mut parts = nothing(alloc);
    let came = post_answer(alloc, &named, &mut parts, line);
    let_go(parts);
    graph_cases::let_go(named);
    came
}

/// Lines of post-returns.
pub(crate) struct Posts;

impl Answers for Posts {
    fn answer(alloc: Global, line: &str) -> Result<String, Fail> {
        check_words(line)?;
        post_told(alloc, line)
    }
}
