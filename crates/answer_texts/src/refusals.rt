//! The lines that tell of a refusal.

ghost use Rattle.std.specs.Prelude.{◌≡◌, ◌++◌, IfOk, OnOk, codes};
ghost use Rattle.std.specs.Option.{MatchOption};
ghost use Rattle.std.specs.Fmt.{decimal};
ghost use Rattle.trace_show.specs.LabelText.{line};
ghost use Rattle.answer_texts.specs.Refusals.{with_argument, byte_text, module_why_text, valid_why_text, component_why_text, link_why_text, script_why_text, refused_line, link_refused_line, script_refused_line};

use ca_base::Refusal;
use comp_reader::ComponentWhy;
use faults::Memory;
use link_spec::{LinkFault, LinkWhy};
use script_reader::{ScriptFault, ScriptWhy};
use std::alloc::Global;
use syntax_trees::{Bytes, Seq};
use trace_show::name_text;
use wasm_code_reader::ModuleWhy;
use wasm_typing::ValidWhy;

/// The name of a reason, and the text of its argument, if it has one.
type Reason = (&'static [u8], Option<Bytes>);

/// A byte as two hexadecimal digits.
fn byte_text(alloc: Global, byte: u8) -> Result<Bytes, Memory>
    ensures { IfOk result (λ text. text ≡ byte_text byte) }
{
    let digits = hex::encode(alloc, [byte])?;
    Ok(Seq::from_vec(digits.into_bytes()))
}

/// Appends an argument, in parentheses.
fn push_argument(argument: &[u8], text: &mut Vec<u8>) -> Result<(), Memory>
    ensures { OnOk result (text.new.items ≡ text.old.items ++ (codes "(" ++ argument.now ++ codes ")")) }
{
    text.push(b'(')?;
    text.extend_from_slice(argument)?;
    text.push(b')')?;
    Ok(())
}

/// The text of a reason: its name, and its argument in parentheses.
fn reason_text(alloc: Global, name: &[u8], argument: &Option<Bytes>) -> Result<Bytes, Memory>
    ensures { IfOk result (λ text. MatchOption argument.now (text ≡ name.now) (λ a. text ≡ with_argument name.now a)) }
{
    let mut text = Vec::new(alloc);
    text.extend_from_slice(name)?;
    let Some(argument) = argument else {
        return Ok(Seq::from_vec(text));
    };
    push_argument(argument.as_slice(), &mut text)?;
    Ok(Seq::from_vec(text))
}

/// Why a core module is refused.
fn module_reason(alloc: Global, why: ModuleWhy) -> Result<Reason, Memory>
    ensures { IfOk result (λ r. MatchOption r.1 (r.0.now ≡ module_why_text why) (λ a. with_argument r.0.now a ≡ module_why_text why)) }
{
    match why {
        ModuleWhy::Truncated => Ok((b"Truncated", None)),
        ModuleWhy::Leb => Ok((b"Leb", None)),
        ModuleWhy::Magic => Ok((b"Magic", None)),
        ModuleWhy::SectionOrder => Ok((b"SectionOrder", None)),
        ModuleWhy::SectionSize => Ok((b"SectionSize", None)),
        ModuleWhy::Utf8 => Ok((b"Utf8", None)),
        ModuleWhy::Float => Ok((b"Float", None)),
        ModuleWhy::Unsupported(byte) => Ok((b"Unsupported", Some(byte_text(alloc, byte)?))),
        ModuleWhy::Count => Ok((b"Count", None)),
        ModuleWhy::Limit => Ok((b"Limit", None)),
    }
}

/// The text of why a core module is refused.
fn module_text(alloc: Global, why: ModuleWhy) -> Result<Bytes, Memory>
    ensures { IfOk result (λ text. text ≡ module_why_text why) }
{
    let (name, argument) = module_reason(alloc, why)?;
    reason_text(alloc, name, &argument)
}

/// Why a core module is not valid.
fn valid_text(why: ValidWhy) -> &'static [u8]
    ensures { result.now ≡ valid_why_text why }
{
    match why {
        ValidWhy::Index => b"Index",
        ValidWhy::Label => b"Label",
        ValidWhy::Align => b"Align",
        ValidWhy::Stack => b"Stack",
        ValidWhy::Typing => b"Typing",
        ValidWhy::Name => b"Name",
        ValidWhy::Limit => b"Limit",
    }
}

/// Bytes of their own that are these.
fn owned(alloc: Global, bytes: &[u8]) -> Result<Bytes, Memory>
    ensures { IfOk result (λ text. text ≡ bytes.now) }
{
    let mut text = Vec::new(alloc);
    text.extend_from_slice(bytes)?;
    Ok(Seq::from_vec(text))
}

/// Why a component is refused.
fn component_reason(alloc: Global, why: ComponentWhy) -> Result<Reason, Memory>
    ensures { IfOk result (λ r. MatchOption r.1 (r.0.now ≡ component_why_text why) (λ a. with_argument r.0.now a ≡ component_why_text why)) }
{
    match why {
        ComponentWhy::Truncated => Ok((b"Truncated", None)),
        ComponentWhy::Leb => Ok((b"Leb", None)),
        ComponentWhy::Utf8 => Ok((b"Utf8", None)),
        ComponentWhy::Magic => Ok((b"Magic", None)),
        ComponentWhy::SectionSize => Ok((b"SectionSize", None)),
        ComponentWhy::Unsupported(byte) => Ok((b"Unsupported", Some(byte_text(alloc, byte)?))),
        ComponentWhy::Float => Ok((b"Float", None)),
        ComponentWhy::Limit => Ok((b"Limit", None)),
        ComponentWhy::Module(why) => Ok((b"Module", Some(module_text(alloc, why)?))),
        ComponentWhy::Invalid(why) => Ok((b"Invalid", Some(owned(alloc, valid_text(why))?))),
    }
}

/// Why a component is not linked.
fn link_reason(alloc: Global, why: &LinkWhy) -> Result<Reason, Memory>
    ensures { IfOk result (λ r. MatchOption r.1 (r.0.now ≡ link_why_text why.now) (λ a. with_argument r.0.now a ≡ link_why_text why.now)) }
{
    match why {
        LinkWhy::RootImport => Ok((b"RootImport", None)),
        LinkWhy::Index => Ok((b"Index", None)),
        LinkWhy::Missing(name) => Ok((b"Missing", Some(name_text(alloc, name)?))),
        LinkWhy::Typing => Ok((b"Typing", None)),
        LinkWhy::Canon => Ok((b"Canon", None)),
        LinkWhy::Limit => Ok((b"Limit", None)),
    }
}

/// Why a script is refused.
fn script_text(why: ScriptWhy) -> &'static [u8]
    ensures { result.now ≡ script_why_text why }
{
    match why {
        ScriptWhy::Size => b"Size",
        ScriptWhy::Utf8 => b"Utf8",
        ScriptWhy::Form => b"Form",
        ScriptWhy::Fuel => b"Fuel",
        ScriptWhy::CallNumber => b"CallNumber",
        ScriptWhy::Export => b"Export",
        ScriptWhy::HostType => b"HostType",
        ScriptWhy::Value => b"Value",
    }
}

/// The line of a refusal: what is refused, the number of its place, and why.
fn line_of(alloc: Global, front: &[u8], place: usize, why: &[u8]) -> Result<Bytes, Memory>
    ensures { IfOk result (λ text. text ≡ line (front.now ++ decimal place ++ codes ": " ++ why.now)) }
{
    let digits = place.to_string(alloc)?;
    let mut text = Vec::new(alloc);
    text.extend_from_slice(front)?;
    text.extend_from_slice(digits.as_bytes())?;
    text.extend_from_slice(b": ")?;
    text.extend_from_slice(why)?;
    text.push(b'\n')?;
    Ok(Seq::from_vec(text))
}

/// The line for a component file that is refused: the byte place, counted from 0, and the reason, as in
/// `refused at 11: Unsupported(1c)`. It fails for want of memory alone.
pub fn refused_line(alloc: Global, refusal: Refusal<ComponentWhy>) -> Result<Bytes, Memory>
    ensures { IfOk result (λ text. text ≡ refused_line refusal) }
{
    let (name, argument) = component_reason(alloc, refusal.why)?;
    let why = reason_text(alloc, name, &argument)?;
    line_of(alloc, b"refused at ", refusal.place, why.as_slice())
}

/// The line for a component that is not linked: the byte place of the item that is refused, and the reason, as in
/// `link refused at 36: Missing(m)`. It fails for want of memory alone.
pub fn link_refused_line(alloc: Global, fault: &LinkFault) -> Result<Bytes, Memory>
    ensures { IfOk result (λ text. text ≡ link_refused_line fault.now) }
{
    let (name, argument) = link_reason(alloc, &fault.why)?;
    let why = reason_text(alloc, name, &argument)?;
    line_of(alloc, b"link refused at ", fault.place, why.as_slice())
}

/// The line for a script file that is refused: the number of its line, counted from 1, and the reason, as in
/// `script refused at line 1: Value`. It fails for want of memory alone.
pub fn script_refused_line(alloc: Global, fault: ScriptFault) -> Result<Bytes, Memory>
    ensures { IfOk result (λ text. text ≡ script_refused_line fault) }
{
    line_of(
        alloc,
        b"script refused at line ",
        fault.line,
        script_text(fault.why),
    )
}
