//! What `check` and `show` tell of a component that is linked.

ghost use Rattle.std.specs.Prelude.{◌≡◌, ◌++◌, OnOk, IfOk, codes};
ghost use Rattle.std.specs.Fmt.{decimal};
ghost use Rattle.syntax_trees.specs.TypeText.{type_text};
ghost use Rattle.trace_show.specs.LabelText.{line, listed};
ghost use Rattle.answer_texts.specs.Shown.{accepted_text, arrow_text, export_line, graph_text, param_text};

use comp_graph::Graph;
use faults::Memory;
use std::alloc::Global;
use syntax_trees::{Bytes, Export, Param, Seq, Shared, ValType};
use trace_show::{name_text, type_text};
use value_texts::{Text, push_all, push_separated};

/// The text for a component that is linked.
const ACCEPTED: &[u8] = b"accepted\n";

/// How many bytes there may be before the text of a type: types share parts, so a small file may have more text than memory holds.
const TEXT_LIMIT: usize = 268_435_456;

/// Appends the text of a type. Where there is too much text already, that is want of memory.
fn push_type(alloc: Global, val_type: &ValType, text: &mut Vec<u8>) -> Result<(), Memory>
    ensures { OnOk result (text.new.items ≡ text.old.items ++ type_text val_type.now) }
{
    if text.len() >= TEXT_LIMIT {
        return Err(Memory);
    }
    text.extend_from_slice(type_text(alloc, val_type)?.as_slice())?;
    Ok(())
}

/// Parameters, the type of each.
struct ParamTypes;

impl Text for ParamTypes {
    ghost use Rattle.answer_texts.specs.Shown.{param_text};

    type Item = Param;

    ghost text = { param_text };

    fn push(alloc: Global, item: &Param, to: &mut Vec<u8>) -> Result<(), Memory> {
        push_type(alloc, item.val_type.get(), to)
    }
}

/// Appends the types of parameters, in parentheses.
fn push_params(alloc: Global, params: &[Param], text: &mut Vec<u8>) -> Result<(), Memory>
    ensures { OnOk result (text.new.items ≡ text.old.items ++ listed param_text params.now) }
{
    text.push(b'(')?;
    push_separated::<ParamTypes>(alloc, b", ", params, text)?;
    text.push(b')')?;
    Ok(())
}

/// Appends the type of a result behind an arrow, if there is one.
fn push_result(
    alloc: Global,
    result_type: &Option<Shared<ValType>>,
    text: &mut Vec<u8>,
) -> Result<(), Memory>
    ensures { OnOk result (text.new.items ≡ text.old.items ++ arrow_text result_type.now) }
{
    if let Some(val_type) = result_type {
        text.extend_from_slice(b" -> ")?;
        push_type(alloc, val_type.get(), text)?;
    }
    Ok(())
}

/// Exports, a line for each.
struct ExportLines;

impl Text for ExportLines {
    ghost use Rattle.answer_texts.specs.Shown.{export_line};

    type Item = Export;

    ghost text = { export_line };

    fn push(alloc: Global, item: &Export, to: &mut Vec<u8>) -> Result<(), Memory> {
        to.extend_from_slice(b"func ")?;
        to.extend_from_slice(name_text(alloc, &item.name)?.as_slice())?;
        to.push(b' ')?;
        let func_type = item.func_type.get();
        push_params(alloc, func_type.params.as_slice(), to)?;
        push_result(alloc, &func_type.result, to)?;
        to.push(b'\n')?;
        Ok(())
    }
}

/// The text that tells that a component is linked. It fails for want of memory alone.
pub fn accepted_text(alloc: Global) -> Result<Bytes, Memory>
    ensures { IfOk result (λ text. text ≡ accepted_text) }
{
    let mut text = Vec::new(alloc);
    text.extend_from_slice(ACCEPTED)?;
    Ok(Seq::from_vec(text))
}

/// The text of a component that is linked: the number of its component instances, and a line for each function that can be
/// called, with its type (Component Model, WIT.md, "Types"). It fails for want of memory alone, and so it does where the types
/// before one have more than 256 MiB of text.
pub fn graph_text(alloc: Global, graph: &Graph) -> Result<Bytes, Memory>
    ensures { IfOk result (λ text. text ≡ graph_text graph.now) }
{
    let count = graph.instance_count().to_string(alloc)?;
    let mut text = Vec::new(alloc);
    text.extend_from_slice(b"instances ")?;
    text.extend_from_slice(count.as_bytes())?;
    text.push(b'\n')?;
    push_all::<ExportLines>(alloc, graph.exports().as_slice(), &mut text)?;
    Ok(Seq::from_vec(text))
}
