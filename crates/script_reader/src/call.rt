//! Calls of exported functions.

ghost use Rattle.std.specs.Prelude.{◌≡◌, ◌≤◌, length};
ghost use Rattle.std.specs.List.{position_or_len};
ghost use Rattle.std.specs.Str.{IsUtf8};
ghost use Rattle.faults.specs.Faults.{MayMake};
ghost use Rattle.script_reader.specs.Script as scripts;

use crate::directory::Directory;
use crate::fault::ScriptWhy;
use crate::script::Call;
use crate::text::{after_mark, is_blank};
use faults::MemoryOr;
use std::alloc::Global;
use syntax_trees::{Export, Name, Values};
use value_reader::{func_has_host_type, read_arguments};

/// Whether a name ends before this byte.
fn ends_name(byte: u8) -> bool
    ensures { result ≡ scripts.ends_name byte }
{
    is_blank(byte) || byte == b'('
}

/// How many bytes a name at the front of a text has.
fn name_length(text: &[u8]) -> usize
    ensures value { result ≡ position_or_len scripts.ends_name text.now }
    ensures within { result ≤ length text.now }
{
    text.iter().take_while(|byte| !ends_name(**byte)).count()
}

/// A name at the front of a text, and what stands behind it.
fn name_and_rest(text: &[u8]) -> (&[u8], &[u8])
    ensures name { result.0.now ≡ scripts.name_of text.now }
    ensures rest { result.1.now ≡ scripts.behind_name text.now }
{
    text.split_at(name_length(text))
}

/// Reads the arguments of an export, from the text behind its name.
fn arguments_of(alloc: Global, export: &Export, text: &[u8]) -> Result<Values, MemoryOr<ScriptWhy>>
    ensures { MayMake (λ values. values) (scripts.arguments_of export.now text.now) result }
{
    let func_type = export.func_type.get();
    if func_has_host_type(func_type) {
        return Err(MemoryOr::Fault(ScriptWhy::HostType));
    }
    match read_arguments(alloc, text, func_type.params.as_slice())? {
        Some(values) => Ok(values),
        None => Err(MemoryOr::Fault(ScriptWhy::Value)),
    }
}

/// Reads a call, from the text behind the word `call` and one space.
pub fn read_call(
    alloc: Global,
    directory: &Directory,
    text: &[u8],
) -> Result<Call, MemoryOr<ScriptWhy>>
    requires { IsUtf8 text.now }
    ensures { MayMake (λ call. call) (scripts.call_of directory.now text.now) result }
{
    let (name, rest) = name_and_rest(text);
    let _opened = after_mark(b'(', rest).ok_or(ScriptWhy::Form)?;
    let export = directory.export_named(name).ok_or(ScriptWhy::Export)?;
    let values = arguments_of(alloc, export, rest)?;
    let name = Name::new(alloc, export.name.as_str())?;
    Ok(Call { name, values })
}
