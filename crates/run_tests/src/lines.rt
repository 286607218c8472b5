//! The lines of refusals.

use crate::reasons::{component_why, link_why, script_why};
use answer_texts::{link_refused_line, refused_line, script_refused_line};
use ca_base::Refusal;
use cases::Steps;
use link_spec::LinkFault;
use script_reader::ScriptFault;
use std::alloc::Global;
use std::test::Fail;
use syntax_trees::Bytes;

/// Whose lines of refusals they are.
#[derive(Clone, Copy)]
pub enum Line {
    /// A component that is refused.
    Component,
    /// A component that is not linked.
    Link,
    /// A script that is refused.
    Script,
}

/// The line for a component that is not linked at a place, for this reason.
fn link_line(alloc: Global, place: usize, reason: &str) -> Result<Bytes, Fail> {
    let why = link_why(alloc, reason)?;
    Ok(link_refused_line(alloc, &LinkFault { place, why })?)
}

/// The line of a refusal at a place, for this reason.
fn line_of(alloc: Global, kind: Line, place: usize, reason: &str) -> Result<Bytes, Fail> {
    match kind {
        Line::Component => {
            let why = component_why(reason)?;
            Ok(refused_line(alloc, Refusal { place, why })?)
        }
        Line::Link => link_line(alloc, place, reason),
        Line::Script => {
            let why = script_why(reason)?;
            Ok(script_refused_line(alloc, ScriptFault { line: place, why })?)
        }
    }
}

impl Steps for Line {
    fn step(&mut self, alloc: Global, line: &str, text: &mut String) -> Result<(), Fail> {
        let (place, reason) = line.split_once(' ').ok_or("no reason")?;
        let told = line_of(alloc, *self, place.parse()?, reason)?;
        let told = str::from_utf8(told.as_slice())?;
        text.push_str(told.strip_suffix("\n").ok_or("no line feed")?)?;
        Ok(())
    }

    fn begin(_alloc: Global, title: &str) -> Result<Self, Fail> {
        match title {
            "component" => Ok(Line::Component),
            "link" => Ok(Line::Link),
            "script" => Ok(Line::Script),
            _ => Err(Fail::new("another kind of lines")),
        }
    }
}
