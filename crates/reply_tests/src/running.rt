//! What is looked up of a graph and a script by numbers, and values that are the same.

use crate::telling::{write_after, write_behind, write_numbers};
use cases::Answers;
use faults::MemoryOr;
use graph_cases::{NamedGraph, graph, let_go};
use laid_types::LaidTypes;
use programs::{CallNumbers, FuncNumbers, Program, same_value, same_values, typed_values};
use script_reader::{Script, ScriptFault, read_script};
use std::alloc::Global;
use std::test::Fail;
use syntax_trees::{Export, Exports, Name, Param, Seq, Shared, Value};
use task_table::Callee;
use trace_labels::TypedValue;
use type_texts::{func_of, params_of, type_told, value_told, values_of};

/// A script of three calls.
const SCRIPT: &str = "call sum (2, 3)\ncall sum (4, 5)\ncall none ()\n";

/// An export of a name and a function type of texts.
fn export(alloc: Global, name: &str, params: &str, returned: &str) -> Result<Export, Fail> {
    Ok(Export {
        name: Name::new(alloc, name)?,
        func_type: Shared::new(alloc, func_of(alloc, params, returned)?)?,
    })
}

/// The exports that the script calls.
fn exports(alloc: Global) -> Result<Exports, Fail> {
    let sum = export(alloc, "sum", "u32 u32", "u32")?;
    let none = export(alloc, "none", "", "")?;
    Ok(Seq::from_vec(Vec::from_array(alloc, [sum, none])?))
}

/// The script, where these are the exports.
fn script_for(alloc: Global, exports: &Exports) -> Result<Script, MemoryOr<ScriptFault>> {
    read_script(alloc, SCRIPT.as_bytes(), exports)
}

/// The script.
fn script(alloc: Global) -> Result<Script, Fail> {
    let exports = exports(alloc)?;
    match script_for(alloc, &exports) {
        Ok(script) => Ok(script),
        Err(_) => Err(Fail::new("no script")),
    }
}

/// Adds the calls of the script in another order, and one of an item that is not there.
fn add_calls(calls: &mut Vec<CallNumbers>) -> Result<(), Fail> {
    for (item, export) in [(0, 0), (2, 1), (1, 0), (3, 0)] {
        calls.push(CallNumbers { item, export })?;
    }
    Ok(())
}

/// Adds the resources that two component instances define.
fn add_resources(alloc: Global, resources: &mut Vec<Seq<u32>>) -> Result<(), Fail> {
    resources.push(Seq::from_vec(Vec::from_slice(alloc, &[1, 3])?))?;
    resources.push(Seq::new(alloc))?;
    Ok(())
}

/// Numbers of what a function passes.
fn passes(params: usize, returned: Option<usize>) -> FuncNumbers {
    FuncNumbers { params, returned }
}

/// A program in which nothing has a number.
fn bare<'g>(
    alloc: Global,
    named: &'g NamedGraph,
    types: &'g LaidTypes,
    script: &'g Script,
) -> Program<'g, 'static> {
    Program {
        graph: &named.graph,
        script,
        types,
        exports: Vec::new(alloc),
        canons: Vec::new(alloc),
        values: Vec::new(alloc),
        ends: named.graph.types().canons.as_slice(),
        calls: Vec::new(alloc),
        resources: Vec::new(alloc),
    }
}

/// Gives two exports, a built-in and a lower, calls and resources their numbers.
fn number_all(alloc: Global, program: &mut Program<'_, '_>) -> Result<(), Fail> {
    program.exports.push(passes(1, Some(2)))?;
    program.exports.push(passes(3, None))?;
    program.canons.push(None)?;
    program.canons.push(Some(passes(2, None)))?;
    program.values.push(Some(1))?;
    program.values.push(None)?;
    add_calls(&mut program.calls)?;
    add_resources(alloc, &mut program.resources)
}

/// What a task runs, by a name and a number.
fn callee_named(name: &str, number: u32) -> Callee {
    match name {
        "export" => Callee::Export(number as usize),
        "lowered" => Callee::Lowered(number),
        "destroys" => Callee::Destroys(number),
        _ => Callee::Init,
    }
}

/// Writes a number, where there is one.
fn write_some(text: &mut String, number: Option<usize>) -> Result<(), Fail> {
    match number {
        Some(number) => write_behind(text, "", number as u64)?,
        None => text.push_str("none")?,
    }
    Ok(())
}

/// Writes the type of the arguments of what a task runs.
fn write_params(
    alloc: Global,
    program: &Program<'_, '_>,
    callee: Callee,
    text: &mut String,
) -> Result<(), Fail> {
    let Some(params) = program.params_of(callee) else {
        return Ok(text.push_str("none")?);
    };
    write_behind(text, "", params.number() as u64)?;
    text.push(' ')?;
    let told = type_told(alloc, params.laid().val_type())?;
    Ok(text.push_str(told.as_str())?)
}

/// Writes numbers of the arguments of the script's call of a number.
fn write_values(program: &Program<'_, '_>, call: u32, text: &mut String) -> Result<(), Fail> {
    let Some(values) = program.host_values(call) else {
        return Ok(text.push_str("none")?);
    };
    text.push_str("values")?;
    for value in values {
        match value {
            Value::U32(number) => write_after(text, " ", *number)?,
            _ => text.push_str(" another value")?,
        }
    }
    Ok(())
}

/// Writes what is looked up of a program.
fn write_found(
    alloc: Global,
    program: &Program<'_, '_>,
    line: &str,
    text: &mut String,
) -> Result<(), Fail> {
    let (what, rest) = line.split_once(' ').ok_or("no number")?;
    let (name, number) = rest.split_once(' ').unwrap_or(("", rest));
    let number = number.parse::<u32>()?;
    match what {
        "params" => write_params(alloc, program, callee_named(name, number), text),
        "returned" => write_some(text, program.returned_of(callee_named(name, number))),
        "value" => write_some(text, program.value_of(number)),
        "call" => write_values(program, number, text),
        _ => {
            match program.resources_of(number as usize) {
                Some(resources) => write_numbers(text, resources)?,
                None => text.push_str("none")?,
            }
            Ok(())
        }
    }
}

/// What is looked up of a program that has no numbers yet.
fn found(alloc: Global, program: &mut Program<'_, '_>, line: &str) -> Result<String, Fail> {
    number_all(alloc, program)?;
    let mut text = String::new(alloc);
    write_found(alloc, program, line, &mut text)?;
    Ok(text)
}

/// What is looked up of the program of a graph and a script.
fn found_in(
    alloc: Global,
    named: &NamedGraph,
    script: &Script,
    line: &str,
) -> Result<String, Fail> {
    let mut program = bare(alloc, named, named.graph.types().types.values(), script);
    found(alloc, &mut program, line)
}

/// What is looked up of the program of a graph.
fn found_of(alloc: Global, named: &NamedGraph, line: &str) -> Result<String, Fail> {
    let script = script(alloc)?;
    found_in(alloc, named, &script, line)
}

/// What is looked up of a program. Of its two exports the first one passes type 1 and answers type 2, and the other passes type 3; its canonical
/// function 1 lowers a function that passes type 2, and 0 is a built-in of type 1. It has four calls, of items of the script: the first one,
/// of two arguments; the third one, of none; the second one, of two others; and one that is not there. Its first instance defines the resources
/// 1 and 3, and its second one none. Types 0 to 3 are u8, u32, string, and the tuple of nothing.
pub(crate) struct Lookups;

impl Answers for Lookups {
    fn answer(alloc: Global, given: &str) -> Result<String, Fail> {
        match graph(alloc) {
            Ok(named) => {
                let told = found_of(alloc, &named, given);
                let_go(named);
                told
            }
            Err(fail) => Err(fail),
        }
    }
}

/// Writes a value that is the same, behind a space.
fn write_same(alloc: Global, typed: &TypedValue, text: &mut String) -> Result<(), Fail> {
    let same = same_value(alloc, &typed.value)?;
    let told = value_told(alloc, &same, typed.val_type.get())?;
    text.push(' ')?;
    Ok(text.push_str(told.as_str())?)
}

/// Values that are the same, as text.
fn all_same(alloc: Global, typed: &[TypedValue]) -> Result<String, Fail> {
    let mut text = String::new(alloc);
    for value in typed {
        write_same(alloc, value, &mut text)?;
    }
    Ok(text)
}

/// Values that are copied, with the types of parameters, as text.
fn copied(alloc: Global, params: &[Param], values: &[Value]) -> Result<String, Fail> {
    let same = same_values(alloc, values)?;
    let typed = typed_values(alloc, params, same.as_slice())?;
    all_same(alloc, typed.as_slice())
}

/// Values that are copied: their types and the values, and how the same values print.
pub(crate) struct Copies;

impl Answers for Copies {
    fn answer(alloc: Global, given: &str) -> Result<String, Fail> {
        let (types, values) = given.split_once(" | ").ok_or("no values")?;
        let params = params_of(alloc, types)?;
        let values = values_of(alloc, values)?;
        copied(alloc, params.as_slice(), &values)
    }
}
