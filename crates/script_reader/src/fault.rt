//! Why texts are no scripts.

ghost use Rattle.std.specs.Prelude.{◌≡◌};

use faults::MemoryOr;
use thiserror::Error;

/// Why a text is refused. At one line the first in this order is told.
#[derive(Clone, Copy, Debug, Error)]
pub enum ScriptWhy {
    /// The text has more than 1 MiB.
    #[error("the text has more than 1 MiB")]
    Size,
    /// The text is not UTF-8.
    #[error("the text is not UTF-8")]
    Utf8,
    /// There is no such line, or it is a `fuel` line behind a line that says something.
    #[error("there is no such line, or it gives fuel behind a line that says something")]
    Form,
    /// The units of fuel are not from 1 to 1,000,000,000.
    #[error("the units of fuel are not from 1 to 1,000,000,000")]
    Fuel,
    /// No call before the line has the number.
    #[error("no call before the line has the number")]
    CallNumber,
    /// No function that can be called is exported under the name.
    #[error("no function that can be called is exported under the name")]
    Export,
    /// The function's type holds a handle, or the end of a stream or a future, whose values no script can write.
    #[error("the function's type holds a handle or an end, whose values no script can write")]
    HostType,
    /// The arguments are no values of the parameters' types.
    #[error("the arguments are no values of the parameters' types")]
    Value,
}

/// Where a text is refused first, and why.
#[derive(Clone, Copy, Debug, Error)]
#[error("line {line}: {why}")]
pub struct ScriptFault {
    /// The number of the line, counted from 1; 0 where the text is too long.
    pub line: usize,
    /// The reason.
    pub why: ScriptWhy,
}

impl From<ScriptWhy> for MemoryOr<ScriptWhy> {
    ghost use Rattle.faults.specs.declared.memory.MemoryOr.TheVariants.{Fault};

    ghost from_gives = { λ why e. e ≡ Fault why };

    fn from(why: ScriptWhy) -> MemoryOr<ScriptWhy> {
        MemoryOr::Fault(why)
    }
}

impl From<ScriptFault> for MemoryOr<ScriptFault> {
    ghost use Rattle.faults.specs.declared.memory.MemoryOr.TheVariants.{Fault};

    ghost from_gives = { λ fault e. e ≡ Fault fault };

    fn from(fault: ScriptFault) -> MemoryOr<ScriptFault> {
        MemoryOr::Fault(fault)
    }
}
