//! The reader of scripts.

ghost use Rattle.std.specs.Prelude.{◌≡◌, IfOk, IfErr};
ghost use Rattle.faults.specs.declared.memory.MemoryOr.TheVariants.{Memory};
ghost use Rattle.faults.specs.Faults.{IfFault, MayMake};
ghost use Rattle.script_reader.specs.Script as scripts;
ghost use Rattle.script_reader.specs.Script.{IsScript, IsScriptRefused, AreItems};

use crate::directory::Directory;
use crate::draft::Draft;
use crate::fault::{ScriptFault, ScriptWhy};
use crate::parts::Parts;
use crate::script::Script;
use crate::text::{line_at, line_text};
use faults::MemoryOr;
use std::alloc::Global;
use syntax_trees::Exports;

/// How many bytes a script has at most: 1 MiB.
const SIZE_LIMIT: usize = 1024 * 1024;

/// The lines of a text.
fn lines_of(text: &str) -> Parts
    ensures { result ≡ scripts.lines text.now }
{
    Parts::of(b'\n', text.as_bytes())
}

/// What the lines of a text say, or the first fault of theirs.
#[tactic(auto, using(crate::proofs::Splits::few_parts, crate::proofs::Pieces::lines_are_utf8))]
fn read_lines(
    alloc: Global,
    text: &str,
    directory: &Directory,
) -> Result<Draft, MemoryOr<ScriptFault>>
    ensures { MayMake (λ draft. draft) (scripts.add_lines directory.now scripts.empty_draft 1 (scripts.lines text.now)) result }
{
    let mut lines = lines_of(text);
    let mut draft = Draft::new(alloc);
    let mut number = 0;
    while let Some(line) = lines.next() {
        number += 1;
        match draft.add_line(alloc, directory, line_text(line)) {
            Ok(()) => (),
            Err(MemoryOr::Memory) => return Err(MemoryOr::Memory),
            Err(MemoryOr::Fault(why)) => {
                return Err(MemoryOr::Fault(ScriptFault { line: number, why }));
            }
        }
    }
    Ok(draft)
}

/// Reads a script for a component with these exports.
///
/// It answers what the script says, or the first line that is refused and why: a text of more than 1 MiB (`Size`, at line
/// 0), one that is not UTF-8 (`Utf8`, at the line of the first byte that is not), and else line by line the first fault
/// in the order of `ScriptWhy`. `Memory` is want of memory.
#[tactic(auto, using(crate::proofs::Scripts::is_script, crate::proofs::Scripts::is_refused, crate::proofs::Called::scripts_call_exports))]
pub fn read_script(
    alloc: Global,
    bytes: &[u8],
    exports: &Exports,
) -> Result<Script, MemoryOr<ScriptFault>>
    // What is read is that script.
    ensures ok { IfOk result (λ s. IsScript exports.now bytes.now s) }
    // The text of a script isn't refused.
    ensures only { (s : scripts.Script) → IsScript exports.now bytes.now s → IfErr result (λ e. e ≡ Memory) }
    // What is refused is no script, and this is the line and the reason.
    ensures refused { IfErr result (λ e. IfFault e (λ fault. IsScriptRefused exports.now bytes.now fault)) }
    // Each item calls an export, with values of its parameters' types, or cancels a call before it.
    ensures items { IfOk result (λ s. AreItems exports.now 0 s.items) }
{
    if bytes.len() > SIZE_LIMIT {
        return Err(MemoryOr::Fault(ScriptFault {
            line: 0,
            why: ScriptWhy::Size,
        }));
    }
    let text = match simdutf8::compat::from_utf8(bytes) {
        Ok(text) => text,
        Err(error) => {
            return Err(MemoryOr::Fault(ScriptFault {
                line: line_at(error.valid_up_to(), bytes),
                why: ScriptWhy::Utf8,
            }));
        }
    };
    let directory = Directory::of(alloc, exports.as_slice())?;
    let draft = read_lines(alloc, text, &directory)?;
    Ok(draft.into_script())
}
