//! Labels of words and numbers.

use std::alloc::{AllocError, Global};
use std::test::Fail;
use syntax_trees::Seq;
use trace_labels::{BlockReason, Builtin, Channel, Copied, Label, TrapName};

/// The numbers of a text, with spaces between them.
pub fn numbers_of(alloc: Global, text: &str) -> Result<Vec<u64>, Fail> {
    let mut numbers = Vec::new(alloc);
    for word in text.split_whitespace() {
        numbers.push(word.parse()?)?;
    }
    Ok(numbers)
}

/// The number at a place, which is 0 where none of 32 bits is there.
pub fn number_at(numbers: &[u64], place: usize) -> u32 {
    match numbers.get(place) {
        Some(number) => u32::try_from(*number).unwrap_or(0),
        None => 0,
    }
}

/// The first numbers of a line.
#[derive(Clone, Copy)]
struct First {
    one: u32,
    two: u32,
    three: u32,
    four: u32,
}

/// The first of these numbers.
fn first_of(numbers: &[u64]) -> First {
    First {
        one: number_at(numbers, 0),
        two: number_at(numbers, 1),
        three: number_at(numbers, 2),
        four: number_at(numbers, 3),
    }
}

/// Why a task blocks.
fn reason(kind: &str, number: u32) -> Option<BlockReason> {
    match kind {
        "entry" => Some(BlockReason::Entry),
        "yield" => Some(BlockReason::Yield),
        "wait" => Some(BlockReason::Wait(number)),
        "poll" => Some(BlockReason::Poll(number)),
        "call" => Some(BlockReason::Call(number)),
        "copy" => Some(BlockReason::Copy(number)),
        "cancel" => Some(BlockReason::Cancel(number)),
        _ => None,
    }
}

/// The label of task 2 where it blocks.
pub fn blocked(kind: &str, number: u32) -> Option<Label> {
    let reason = reason(kind, number)?;
    Some(Label::Block { task: 2, reason })
}

/// The label of what a task does.
fn of_task(kind: &str, numbers: First) -> Option<Label> {
    let task = numbers.one;
    match kind {
        "enter" => Some(Label::Enter { task }),
        "exit" => Some(Label::Exit { task }),
        "go" => Some(Label::Go { task }),
        "return" => Some(Label::Return { task, value: None }),
        "cancelled" => Some(Label::Cancelled { task }),
        "overflow" => Some(Label::Trap {
            task,
            name: TrapName::DivideOverflow,
        }),
        "event" => Some(Label::Event {
            task,
            code: numbers.two,
            index: numbers.three,
            payload: numbers.four,
        }),
        _ => None,
    }
}

/// The label of what goes on between tasks.
fn between_tasks(kind: &str, numbers: First) -> Option<Label> {
    match kind {
        "call" => Some(Label::Call {
            caller: numbers.one,
            callee: numbers.two,
            instance: numbers.three,
        }),
        "lend" => Some(Label::Lend {
            instance: numbers.one,
            handle: numbers.two,
            task: numbers.three,
        }),
        "unlend" => Some(Label::Unlend {
            instance: numbers.one,
            handle: numbers.two,
            task: numbers.three,
        }),
        "units" => Some(Label::Copy {
            channel: Channel::Stream(numbers.one),
            copied: Copied::Units(numbers.two),
        }),
        "unit" => Some(Label::Copy {
            channel: Channel::Future(numbers.one),
            copied: Copied::Units(1),
        }),
        _ => None,
    }
}

/// The label of what happens to a run.
fn of_run(kind: &str, numbers: First) -> Option<Label> {
    match kind {
        "cancel" => Some(Label::Cancel { call: numbers.one }),
        "choose" => Some(Label::Choose {
            alternatives: numbers.one,
            chosen: numbers.two,
        }),
        "done" => Some(Label::Done),
        "fuel" => Some(Label::Fuel),
        _ => None,
    }
}

/// The numbers behind the first one.
fn words(alloc: Global, numbers: &[u64]) -> Result<Seq<u64>, AllocError> {
    match numbers.split_first() {
        Some((_task, words)) => Ok(Seq::from_vec(words.to_vec(alloc)?)),
        None => Ok(Seq::new(alloc)),
    }
}

/// The numbers as tasks.
pub fn tasks(alloc: Global, numbers: &[u64]) -> Result<Seq<u32>, Fail> {
    let mut tasks = Seq::new(alloc);
    for number in numbers {
        tasks.push(u32::try_from(*number)?)?;
    }
    Ok(tasks)
}

/// The label of a call of a built-in.
fn called(alloc: Global, builtin: Builtin, numbers: &[u64]) -> Result<Label, Fail> {
    let words = words(alloc, numbers)?;
    let task = number_at(numbers, 0);
    Ok(Label::Do {
        task,
        builtin,
        words,
    })
}

/// The label of an answer of a built-in.
fn got(alloc: Global, numbers: &[u64]) -> Result<Label, Fail> {
    let words = words(alloc, numbers)?;
    let task = number_at(numbers, 0);
    Ok(Label::Got { task, words })
}

/// A label that has a list.
fn with_list(alloc: Global, kind: &str, numbers: &[u64]) -> Result<Label, Fail> {
    match kind {
        "new" => called(alloc, Builtin::StreamNew, numbers),
        "read" => called(alloc, Builtin::StreamRead, numbers),
        "got" => got(alloc, numbers),
        "deadlock" => Ok(Label::Deadlock {
            tasks: tasks(alloc, numbers)?,
        }),
        _ => Err(Fail::new("no label")),
    }
}

/// A label that has no list.
fn without_list(kind: &str, numbers: First) -> Option<Label> {
    if let Some(label) = of_task(kind, numbers) {
        return Some(label);
    }
    if let Some(label) = between_tasks(kind, numbers) {
        return Some(label);
    }
    of_run(kind, numbers)
}

/// The label of a word and numbers.
pub fn label_of(alloc: Global, kind: &str, numbers: &[u64]) -> Result<Label, Fail> {
    match without_list(kind, first_of(numbers)) {
        Some(label) => Ok(label),
        None => with_list(alloc, kind, numbers),
    }
}
