//! How a call of the program ends.

ghost use Rattle.std.specs.Prelude.{◌≡◌};
ghost use Rattle.std.specs.Process.{exit_status};
ghost use Rattle.wcm.specs.Status.{status_of_run, status_code};

use machine_runs::RunEnd;
use std::process::ExitCode;

/// How a call of the program ends.
#[derive(Clone, Copy, Debug)]
pub enum Status {
    /// The run is done, or the component is linked and only to be checked or shown.
    Done,
    /// The run ended in a trap.
    Trap,
    /// The words are no command.
    Usage,
    /// The component file is refused.
    Refused,
    /// The script file is refused.
    ScriptRefused,
    /// The run ended in a deadlock.
    Deadlock,
    /// The run ended by want of fuel.
    Fuel,
    /// A file was not read.
    ReadFault,
    /// The output or the error output took no more.
    WriteFault,
    /// Memory ran out; or a run has more steps than are made, or no rule applies to what is kept.
    Memory,
    /// The component is not linked.
    LinkRefused,
}

impl Status {
    /// The number of the exit status.
    fn code(self) -> u8
        ensures { result ≡ status_code self }
    {
        match self {
            Status::Done => 0,
            Status::Trap => 1,
            Status::Usage => 2,
            Status::Refused => 3,
            Status::ScriptRefused => 4,
            Status::Deadlock => 5,
            Status::Fuel => 6,
            Status::ReadFault => 7,
            Status::WriteFault => 8,
            Status::Memory => 9,
            Status::LinkRefused => 10,
        }
    }
}

/// The exit status of the process.
pub fn exit_code(status: Status) -> ExitCode
    ensures { exit_status result ≡ status_code status }
{
    ExitCode::from(status.code())
}

/// The status of a run that ends so.
pub fn status_of_end(end: RunEnd) -> Status
    ensures { result ≡ status_of_run end }
{
    match end {
        RunEnd::Done => Status::Done,
        RunEnd::Trap => Status::Trap,
        RunEnd::Deadlock => Status::Deadlock,
        RunEnd::Fuel => Status::Fuel,
    }
}
