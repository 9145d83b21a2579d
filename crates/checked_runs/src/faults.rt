//! Why a checked run has no outcome.

ghost use Rattle.std.specs.Prelude.{◌≡◌};
ghost use Rattle.checked_runs.specs.Faults.{checked_code};

use certificate_check::Refusal;
use hda_run::WorldFault;
use memory::OutOfMemory;
use thiserror::Error;

/// Why a checked run has no outcome.
#[derive(Clone, Copy, Debug, PartialEq, Eq, Error)]
pub enum CheckedFault {
    /// V2
    #[error("the count of workers is not from 1 to 16")]
    WorkerCount,
    /// V3
    #[error("no memory before the first step")]
    Memory(OutOfMemory),
    /// V4
    #[error("the checker refused the certificate of the plan: {0}")]
    Refused(Refusal),
}

impl CheckedFault {
    /// The code that the fault is reported by: `V2` to `V4`.
    pub fn code(self) -> &'static str
        ensures { result.now ≡ checked_code self }
    {
        match self {
            CheckedFault::WorkerCount => "V2",
            CheckedFault::Memory(_) => "V3",
            CheckedFault::Refused(_) => "V4",
        }
    }
}

impl From<WorldFault> for CheckedFault {
    ghost use Rattle.std.specs.Prelude.{◌≡◌};
    ghost use Rattle.hda_run.specs.Faults.{world_code};
    ghost use Rattle.checked_runs.specs.Faults.{checked_code, of_world_fault};

    ghost from_gives = { λ fault checked. checked ≡ of_world_fault fault };

    fn from(fault: WorldFault) -> CheckedFault
        ensures given { result ≡ of_world_fault fault }
        ensures code { checked_code result ≡ world_code fault }
    {
        match fault {
            WorldFault::WorkerCount => CheckedFault::WorkerCount,
            WorldFault::Memory(refused) => CheckedFault::Memory(refused),
        }
    }
}
