//! The texts of labels.

ghost use Rattle.std.specs.Prelude.{◌≡◌, ◌++◌, OnOk, IfOk};
ghost use Rattle.trace_labels.specs.declared.label.Label.TheVariants.{Take, Choose, Call, Block, Event, Lend, Unlend, Trap};
ghost use Rattle.trace_show.specs.LabelText.{label_text, words_text, args_text, result_text, copied_text};

use crate::values::{push_each_typed, push_typed};
use faults::Memory;
use std::alloc::Global;
use syntax_trees::{Bytes, Name, Seq};
use trace_labels::{BlockReason, Copied, Label, TrapName, TypedValue};
use value_texts::{Text, push_all, push_name, push_separated};

/// Appends a text.
pub(crate) fn push_str(text: &str, to: &mut Vec<u8>) -> Result<(), Memory>
    ensures { OnOk result (to.new.items ≡ to.old.items ++ text.now) }
{
    to.extend_from_slice(text.as_bytes())?;
    Ok(())
}

/// The words that a built-in is called with, or answers.
struct Words;

impl Text for Words {
    ghost use Rattle.std.specs.Fmt.{decimal};

    type Item = u64;

    ghost text = { decimal };

    fn push(alloc: Global, item: &u64, to: &mut Vec<u8>) -> Result<(), Memory> {
        let digits = item.to_string(alloc)?;
        push_str(digits.as_str(), to)
    }
}

/// Values with their types.
struct Args;

impl Text for Args {
    ghost use Rattle.trace_show.specs.Typed.{typed_text};

    type Item = TypedValue;

    ghost text = { typed_text };

    fn push(alloc: Global, item: &TypedValue, to: &mut Vec<u8>) -> Result<(), Memory> {
        push_typed(alloc, item, to)
    }
}

/// Tasks, each behind a space.
struct Tasks;

impl Text for Tasks {
    ghost use Rattle.std.specs.Prelude.{◌++◌, codes};
    ghost use Rattle.trace_labels.specs.Parts.{task_text};

    type Item = u32;

    ghost text = { λ task. codes " " ++ task_text task };

    fn push(alloc: Global, item: &u32, to: &mut Vec<u8>) -> Result<(), Memory> {
        let text = format!(in alloc; " T{item}")?;
        push_str(text.as_str(), to)
    }
}

/// Appends words in parentheses.
fn push_words(alloc: Global, words: &[u64], to: &mut Vec<u8>) -> Result<(), Memory>
    ensures { OnOk result (to.new.items ≡ to.old.items ++ words_text words.now) }
{
    to.push(b'(')?;
    push_separated::<Words>(alloc, b", ", words, to)?;
    to.push(b')')?;
    Ok(())
}

/// Appends arguments in parentheses.
fn push_args(alloc: Global, args: &[TypedValue], to: &mut Vec<u8>) -> Result<(), Memory>
    ensures { OnOk result (to.new.items ≡ to.old.items ++ args_text args.now) }
{
    to.push(b'(')?;
    push_separated::<Args>(alloc, b", ", args, to)?;
    to.push(b')')?;
    Ok(())
}

/// Appends a result in parentheses, or nothing in them.
fn push_result(alloc: Global, value: &Option<TypedValue>, to: &mut Vec<u8>) -> Result<(), Memory>
    ensures { OnOk result (to.new.items ≡ to.old.items ++ result_text value.now) }
{
    to.push(b'(')?;
    if let Some(value) = value {
        push_typed(alloc, value, to)?;
    }
    to.push(b')')?;
    Ok(())
}

/// Appends how many elements were copied, and these in parentheses.
fn push_copied(alloc: Global, copied: &Copied, to: &mut Vec<u8>) -> Result<(), Memory>
    ensures { OnOk result (to.new.items ≡ to.old.items ++ copied_text copied.now) }
{
    match copied {
        Copied::Units(count) => {
            let text = format!(in alloc; "{count} ()")?;
            push_str(text.as_str(), to)
        }
        Copied::Values(elements) => {
            let count = elements.values.len();
            let text = format!(in alloc; "{count} (")?;
            push_str(text.as_str(), to)?;
            push_each_typed(alloc, elements, to)?;
            to.push(b')')?;
            Ok(())
        }
    }
}

/// Appends the line of a call that is taken.
fn push_take(
    alloc: Global,
    call: u32,
    task: u32,
    name: &Name,
    args: &[TypedValue],
    to: &mut Vec<u8>,
) -> Result<(), Memory>
    ensures { OnOk result (to.new.items ≡ to.old.items ++ label_text (Take call task name.now args.now)) }
{
    let text = format!(in alloc; "take {call} T{task} ")?;
    push_str(text.as_str(), to)?;
    push_name(name, to)?;
    to.push(b' ')?;
    push_args(alloc, args, to)?;
    to.push(b'\n')?;
    Ok(())
}

/// Appends the line of a choice.
fn push_choose(
    alloc: Global,
    alternatives: u32,
    chosen: u32,
    to: &mut Vec<u8>,
) -> Result<(), Memory>
    ensures { OnOk result (to.new.items ≡ to.old.items ++ label_text (Choose alternatives chosen)) }
{
    let text = format!(in alloc; "choose {alternatives} {chosen}\n")?;
    push_str(text.as_str(), to)?;
    Ok(())
}

/// Appends the line of a call.
fn push_call(
    alloc: Global,
    caller: u32,
    callee: u32,
    instance: u32,
    to: &mut Vec<u8>,
) -> Result<(), Memory>
    ensures { OnOk result (to.new.items ≡ to.old.items ++ label_text (Call caller callee instance)) }
{
    let text = format!(in alloc; "call T{caller} T{callee} I{instance}\n")?;
    push_str(text.as_str(), to)?;
    Ok(())
}

/// Appends the line of a task that blocks.
fn push_block(alloc: Global, task: u32, reason: BlockReason, to: &mut Vec<u8>) -> Result<(), Memory>
    ensures { OnOk result (to.new.items ≡ to.old.items ++ label_text (Block task reason)) }
{
    let text = format!(in alloc; "block T{task} {reason}\n")?;
    push_str(text.as_str(), to)?;
    Ok(())
}

/// Appends the line of an event.
fn push_event(
    alloc: Global,
    task: u32,
    code: u32,
    index: u32,
    payload: u32,
    to: &mut Vec<u8>,
) -> Result<(), Memory>
    ensures { OnOk result (to.new.items ≡ to.old.items ++ label_text (Event task code index payload)) }
{
    let text = format!(in alloc; "event T{task} {code} {index} {payload}\n")?;
    push_str(text.as_str(), to)?;
    Ok(())
}

/// Appends the line of a handle that is lent.
fn push_lend(
    alloc: Global,
    instance: u32,
    handle: u32,
    task: u32,
    to: &mut Vec<u8>,
) -> Result<(), Memory>
    ensures { OnOk result (to.new.items ≡ to.old.items ++ label_text (Lend instance handle task)) }
{
    let text = format!(in alloc; "lend I{instance} {handle} T{task}\n")?;
    push_str(text.as_str(), to)?;
    Ok(())
}

/// Appends the line of a lent handle that is given back.
fn push_unlend(
    alloc: Global,
    instance: u32,
    handle: u32,
    task: u32,
    to: &mut Vec<u8>,
) -> Result<(), Memory>
    ensures { OnOk result (to.new.items ≡ to.old.items ++ label_text (Unlend instance handle task)) }
{
    let text = format!(in alloc; "unlend I{instance} {handle} T{task}\n")?;
    push_str(text.as_str(), to)?;
    Ok(())
}

/// Appends the line of a trap.
fn push_trap(alloc: Global, task: u32, name: TrapName, to: &mut Vec<u8>) -> Result<(), Memory>
    ensures { OnOk result (to.new.items ≡ to.old.items ++ label_text (Trap task name)) }
{
    let text = format!(in alloc; "trap T{task} {name}\n")?;
    push_str(text.as_str(), to)?;
    Ok(())
}

/// Appends a label's line. It fails for want of memory alone.
pub(crate) fn push_label(alloc: Global, label: &Label, to: &mut Vec<u8>) -> Result<(), Memory>
    ensures { OnOk result (to.new.items ≡ to.old.items ++ label_text label.now) }
{
    match label {
        Label::Take {
            call,
            task,
            name,
            args,
        } => push_take(alloc, *call, *task, name, args.as_slice(), to),
        Label::Cancel { call } => {
            let text = format!(in alloc; "cancel {call}\n")?;
            push_str(text.as_str(), to)?;
            Ok(())
        }
        Label::Choose {
            alternatives,
            chosen,
        } => push_choose(alloc, *alternatives, *chosen, to),
        Label::Call {
            caller,
            callee,
            instance,
        } => push_call(alloc, *caller, *callee, *instance, to),
        Label::Enter { task } => {
            let text = format!(in alloc; "enter T{task}\n")?;
            push_str(text.as_str(), to)?;
            Ok(())
        }
        Label::Exit { task } => {
            let text = format!(in alloc; "exit T{task}\n")?;
            push_str(text.as_str(), to)?;
            Ok(())
        }
        Label::Do {
            task,
            builtin,
            words,
        } => {
            let text = format!(in alloc; "do T{task} {builtin} ")?;
            push_str(text.as_str(), to)?;
            push_words(alloc, words.as_slice(), to)?;
            to.push(b'\n')?;
            Ok(())
        }
        Label::Got { task, words } => {
            let text = format!(in alloc; "got T{task} ")?;
            push_str(text.as_str(), to)?;
            push_words(alloc, words.as_slice(), to)?;
            to.push(b'\n')?;
            Ok(())
        }
        Label::Block { task, reason } => push_block(alloc, *task, *reason, to),
        Label::Go { task } => {
            let text = format!(in alloc; "go T{task}\n")?;
            push_str(text.as_str(), to)?;
            Ok(())
        }
        Label::Event {
            task,
            code,
            index,
            payload,
        } => push_event(alloc, *task, *code, *index, *payload, to),
        Label::Copy { channel, copied } => {
            let text = format!(in alloc; "copy {channel} ")?;
            push_str(text.as_str(), to)?;
            push_copied(alloc, copied, to)?;
            to.push(b'\n')?;
            Ok(())
        }
        Label::Lend {
            instance,
            handle,
            task,
        } => push_lend(alloc, *instance, *handle, *task, to),
        Label::Unlend {
            instance,
            handle,
            task,
        } => push_unlend(alloc, *instance, *handle, *task, to),
        Label::Return { task, value } => {
            let text = format!(in alloc; "return T{task} ")?;
            push_str(text.as_str(), to)?;
            push_result(alloc, value, to)?;
            to.push(b'\n')?;
            Ok(())
        }
        Label::Cancelled { task } => {
            let text = format!(in alloc; "cancelled T{task}\n")?;
            push_str(text.as_str(), to)?;
            Ok(())
        }
        Label::Done => push_str("done\n", to),
        Label::Trap { task, name } => push_trap(alloc, *task, *name, to),
        Label::Deadlock { tasks } => {
            push_str("deadlock", to)?;
            push_all::<Tasks>(alloc, tasks.as_slice(), to)?;
            to.push(b'\n')?;
            Ok(())
        }
        Label::Fuel => push_str("fuel\n", to),
    }
}

/// The text of a label: its line, with the line feed at its end. It fails for want of memory alone.
pub fn label_text(alloc: Global, label: &Label) -> Result<Bytes, Memory>
    ensures { IfOk result (λ text. text ≡ label_text label.now) }
{
    let mut text = Vec::new(alloc);
    push_label(alloc, label, &mut text)?;
    Ok(Seq::from_vec(text))
}
