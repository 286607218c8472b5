//! What a case asks.

use crate::components::add_line;
use std::alloc::{AllocError, Global};
use std::str::Lines;
use std::test::Fail;

/// What is asked of a component.
#[derive(Clone, Copy)]
pub enum Command {
    /// The run of a script; `dump` asks for what the run leaves.
    Run {
        /// Whether that is asked for.
        dump: bool,
    },
    /// Whether it is linked.
    Check,
    /// What can be called of it.
    Show,
}

/// The command of a line, if it is one.
fn command_of(line: &str) -> Option<Command> {
    match line {
        "run" => Some(Command::Run { dump: false }),
        "run --dump" => Some(Command::Run { dump: true }),
        "check" => Some(Command::Check),
        "show" => Some(Command::Show),
        _ => None,
    }
}

/// What a case asks: a command, for a component and a script.
#[derive(Drop)]
pub struct Case {
    /// The bytes of the component.
    pub component: Vec<u8>,
    /// The command.
    pub command: Command,
    /// The text of the script.
    pub script: String,
}

/// Adds the bytes of lines up to the command, and answers that.
fn add_component(
    alloc: Global,
    lines: &mut Lines<'_>,
    bytes: &mut Vec<u8>,
) -> Result<Command, Fail> {
    for line in lines {
        match command_of(line) {
            Some(command) => return Ok(command),
            None => add_line(alloc, line, bytes)?,
        }
    }
    Err(Fail::new("no command"))
}

/// Adds a line of a script.
fn add_script_line(line: &str, script: &mut String) -> Result<(), AllocError> {
    match line.strip_suffix("\\") {
        Some(front) => script.push_str(front),
        None => {
            script.push_str(line)?;
            script.push('\n')
        }
    }
}

/// The script of lines.
fn script_of(alloc: Global, lines: Lines<'_>) -> Result<String, AllocError> {
    let mut script = String::new(alloc);
    for line in lines {
        add_script_line(line, &mut script)?;
    }
    Ok(script)
}

/// The case of the lines before its answer.
pub fn case_of(alloc: Global, given: &str) -> Result<Case, Fail> {
    let (_title, rest) = given.split_once('\n').ok_or("no lines")?;
    let mut lines = rest.lines();
    let mut component = Vec::new(alloc);
    let command = add_component(alloc, &mut lines, &mut component)?;
    let script = script_of(alloc, lines)?;
    Ok(Case {
        component,
        command,
        script,
    })
}
