//! The files that a command names.

ghost use Rattle.std.specs.Prelude.{◌≡◌, ℕ, List, IfOk, MatchResult};
ghost use Rattle.wcm.specs.Files.{IsRead, IsOfText, IsFileRead, IsFileRefused, IsScriptFile, IsScriptFileRefused};
ghost use Rattle.wcm.specs.Stops.{ReadsFor};

use ca_base::Refusal;
use ca_io::{FileError, Files, read_all};
use comp_reader::{Component, ComponentWhy, read_component};
use faults::MemoryOr;
use graph_laws::laws::files_are_bytes;
use script_reader::{Script, ScriptFault, ScriptWhy, read_script};
use std::alloc::Global;
use syntax_trees::Exports;

/// Why a file gave nothing.
#[derive(Clone, Copy)]
pub enum NotRead {
    /// It was not read.
    Fault,
    /// Memory ran out.
    Memory,
}

/// How many bytes a component file may have.
const COMPONENT_LIMIT: u64 = 16 * 1024 * 1024;

/// The refusal of a component file that has more.
const TOO_LONG: Refusal<ComponentWhy> = Refusal {
    place: 16 * 1024 * 1024,
    why: ComponentWhy::Limit,
};

/// How many bytes a script file may have.
const SCRIPT_LIMIT: u64 = 1024 * 1024;

/// The refusal of a script file that has more.
const TOO_LONG_SCRIPT: ScriptFault = ScriptFault {
    line: 0,
    why: ScriptWhy::Size,
};

/// The component of a file, or the refusal of that file, of the bytes that the file held when it was read.
pub fn component_of<F: Files>(
    alloc: Global,
    name: &str,
    files: &mut F,
) -> Result<Result<Component, Refusal<ComponentWhy>>, NotRead>
    ensures file { IfOk result (λ found. MatchResult found (IsFileRead (F.held files.old) name.now) (IsFileRefused (F.held files.old) name.now)) }
    ensures read { IfOk result (λ found. IfOk found IsRead) }
    ensures same { (other : List ℕ) → F.held files.new other ≡ F.held files.old other }
    ensures cause { ReadsFor (F.faults files.old) (F.faults files.new) result }
{
    let bytes = match read_all(alloc, files, name, COMPONENT_LIMIT) {
        Ok(bytes) => bytes,
        Err(FileError::Limit) => return Ok(Err(TOO_LONG)),
        Err(FileError::Fault) => return Err(NotRead::Fault),
        Err(FileError::Memory) => return Err(NotRead::Memory),
    };
    files_are_bytes(bytes.as_slice());
    match read_component(alloc, bytes.as_slice()) {
        Ok(component) => Ok(Ok(component)),
        Err(MemoryOr::Fault(refusal)) => Ok(Err(refusal)),
        Err(MemoryOr::Memory) => Err(NotRead::Memory),
    }
}

/// The script of a file for a component with these exports, or the refusal of that file, of the bytes that the file held when it was
/// read.
pub fn script_of<F: Files>(
    alloc: Global,
    name: &str,
    files: &mut F,
    exports: &Exports,
) -> Result<Result<Script, ScriptFault>, NotRead>
    ensures file { IfOk result (λ found. MatchResult found (IsScriptFile (F.held files.old) name.now exports.now) (IsScriptFileRefused (F.held files.old) name.now exports.now)) }
    ensures said { IfOk result (λ found. IfOk found (λ s. IsOfText exports.now s)) }
    ensures same { (other : List ℕ) → F.held files.new other ≡ F.held files.old other }
    ensures cause { ReadsFor (F.faults files.old) (F.faults files.new) result }
{
    let bytes = match read_all(alloc, files, name, SCRIPT_LIMIT) {
        Ok(bytes) => bytes,
        Err(FileError::Limit) => return Ok(Err(TOO_LONG_SCRIPT)),
        Err(FileError::Fault) => return Err(NotRead::Fault),
        Err(FileError::Memory) => return Err(NotRead::Memory),
    };
    match read_script(alloc, bytes.as_slice(), exports) {
        Ok(script) => Ok(Ok(script)),
        Err(MemoryOr::Fault(fault)) => Ok(Err(fault)),
        Err(MemoryOr::Memory) => Err(NotRead::Memory),
    }
}
