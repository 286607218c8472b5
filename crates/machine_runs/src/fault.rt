//! Why runs come to no end.

ghost use Rattle.std.specs.Prelude.{◌≡◌};
ghost use Rattle.machine_runs.specs.Playing.{put_fault};

use ca_io::Failed;
use faults::{Memory, MemoryOr};
use std::alloc::AllocError;
use thiserror::Error;

/// Why a run of a script came to no end.
#[derive(Clone, Copy, Debug, Error)]
pub enum RunFault {
    /// A write of the trace failed.
    #[error("a write of the trace failed")]
    Write,
    /// Memory, or numbers, ran out.
    #[error("out of memory")]
    Memory,
    /// The run goes beyond what is run: no rule applies, or a task traps and none acts, or more steps follow than are made.
    #[error("the run goes beyond what is run")]
    Beyond,
}

impl From<AllocError> for RunFault {
    ghost use Rattle.machine_runs.specs.declared.fault.RunFault.TheVariants as fault;

    ghost from_gives = { λ _ e. e ≡ fault.Memory };

    fn from(_e: AllocError) -> RunFault {
        RunFault::Memory
    }
}

impl From<Memory> for RunFault {
    ghost use Rattle.machine_runs.specs.declared.fault.RunFault.TheVariants as fault;

    ghost from_gives = { λ _ e. e ≡ fault.Memory };

    fn from(_e: Memory) -> RunFault {
        RunFault::Memory
    }
}

/// Why lines were not put, as a fault of a run.
pub(crate) fn put_fault(fault: MemoryOr<Failed>) -> RunFault
    ensures { result ≡ put_fault fault }
{
    match fault {
        MemoryOr::Memory => RunFault::Memory,
        MemoryOr::Fault(Failed) => RunFault::Write,
    }
}
