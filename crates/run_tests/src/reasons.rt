//! Reasons of refusals, by their names.

use comp_reader::ComponentWhy;
use link_spec::LinkWhy;
use script_reader::ScriptWhy;
use std::alloc::Global;
use std::test::Fail;
use syntax_trees::Name;
use wasm_code_reader::ModuleWhy;
use wasm_typing::ValidWhy;

/// Why a core module is refused, by a name and a number behind it.
fn module_why(text: &str) -> Result<ModuleWhy, Fail> {
    let (name, argument) = text.split_once(' ').unwrap_or((text, ""));
    Ok(match name {
        "Truncated" => ModuleWhy::Truncated,
        "Leb" => ModuleWhy::Leb,
        "Magic" => ModuleWhy::Magic,
        "SectionOrder" => ModuleWhy::SectionOrder,
        "SectionSize" => ModuleWhy::SectionSize,
        "Utf8" => ModuleWhy::Utf8,
        "Float" => ModuleWhy::Float,
        "Unsupported" => ModuleWhy::Unsupported(argument.parse::<u8>()?),
        "Count" => ModuleWhy::Count,
        "Limit" => ModuleWhy::Limit,
        _ => return Err(Fail::new("another reason of a module")),
    })
}

/// Why a core module is not valid, by a name.
fn valid_why(name: &str) -> Result<ValidWhy, Fail> {
    Ok(match name {
        "Index" => ValidWhy::Index,
        "Label" => ValidWhy::Label,
        "Align" => ValidWhy::Align,
        "Stack" => ValidWhy::Stack,
        "Typing" => ValidWhy::Typing,
        "Name" => ValidWhy::Name,
        "Limit" => ValidWhy::Limit,
        _ => return Err(Fail::new("another reason of validation")),
    })
}

/// Why a component is refused, by a name and an argument behind it.
pub fn component_why(text: &str) -> Result<ComponentWhy, Fail> {
    let (name, argument) = text.split_once(' ').unwrap_or((text, ""));
    Ok(match name {
        "Truncated" => ComponentWhy::Truncated,
        "Leb" => ComponentWhy::Leb,
        "Utf8" => ComponentWhy::Utf8,
        "Magic" => ComponentWhy::Magic,
        "SectionSize" => ComponentWhy::SectionSize,
        "Unsupported" => ComponentWhy::Unsupported(argument.parse::<u8>()?),
        "Float" => ComponentWhy::Float,
        "Limit" => ComponentWhy::Limit,
        "Module" => ComponentWhy::Module(module_why(argument)?),
        "Invalid" => ComponentWhy::Invalid(valid_why(argument)?),
        _ => return Err(Fail::new("another reason of a component")),
    })
}

/// Why a component is not linked, by a name and an argument behind it.
pub fn link_why(alloc: Global, text: &str) -> Result<LinkWhy, Fail> {
    let (name, argument) = text.split_once(' ').unwrap_or((text, ""));
    Ok(match name {
        "RootImport" => LinkWhy::RootImport,
        "Index" => LinkWhy::Index,
        "Missing" => LinkWhy::Missing(Name::new(alloc, argument)?),
        "Typing" => LinkWhy::Typing,
        "Canon" => LinkWhy::Canon,
        "Limit" => LinkWhy::Limit,
        _ => return Err(Fail::new("another reason of linking")),
    })
}

/// Why a script is refused, by a name.
pub fn script_why(name: &str) -> Result<ScriptWhy, Fail> {
    Ok(match name {
        "Size" => ScriptWhy::Size,
        "Utf8" => ScriptWhy::Utf8,
        "Form" => ScriptWhy::Form,
        "Fuel" => ScriptWhy::Fuel,
        "CallNumber" => ScriptWhy::CallNumber,
        "Export" => ScriptWhy::Export,
        "HostType" => ScriptWhy::HostType,
        "Value" => ScriptWhy::Value,
        _ => return Err(Fail::new("another reason of a script")),
    })
}
