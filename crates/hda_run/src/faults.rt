//! Why there is no job, or no world.

ghost use Rattle.std.specs.Prelude.{◌≡◌};
ghost use Rattle.hda_run.specs.Faults.{job_code, world_code};

use memory::OutOfMemory;
use outcomes::SolveFault;
use thiserror::Error;

/// Why there is no job.
#[derive(Clone, Copy, Debug, PartialEq, Eq, Error)]
pub enum JobFault {
    /// V1
    #[error("start, goal, weights and tables are not of one shape")]
    ShapesDiffer,
}

impl JobFault {
    /// The code that the fault is reported by: `V1`.
    pub fn code(self) -> &'static str
        ensures { result.now ≡ job_code self }
    {
        match self {
            JobFault::ShapesDiffer => "V1",
        }
    }
}

/// Why there is no world.
#[derive(Clone, Copy, Debug, PartialEq, Eq, Error)]
pub enum WorldFault {
    /// V2
    #[error("the count of workers is not from 1 to 16")]
    WorkerCount,
    /// V3
    #[error("memory was refused")]
    Memory(OutOfMemory),
}

impl WorldFault {
    /// The code that the fault is reported by: `V2` or `V3`.
    pub fn code(self) -> &'static str
        ensures { result.now ≡ world_code self }
    {
        match self {
            WorldFault::WorkerCount => "V2",
            WorldFault::Memory(_) => "V3",
        }
    }
}

impl From<JobFault> for SolveFault {
    ghost use Rattle.std.specs.Prelude.{◌≡◌};
    ghost use Rattle.outcomes.specs.Faults.{solve_code};
    ghost use Rattle.hda_run.specs.Faults.{job_code, of_job};

    ghost from_gives = { λ fault sum. sum ≡ of_job fault };

    fn from(fault: JobFault) -> SolveFault
        ensures given { result ≡ of_job fault }
        ensures code { solve_code result ≡ job_code fault }
    {
        match fault {
            JobFault::ShapesDiffer => SolveFault::ShapesDiffer,
        }
    }
}

impl From<WorldFault> for SolveFault {
    ghost use Rattle.std.specs.Prelude.{◌≡◌};
    ghost use Rattle.outcomes.specs.Faults.{solve_code};
    ghost use Rattle.hda_run.specs.Faults.{world_code, of_world};

    ghost from_gives = { λ fault sum. sum ≡ of_world fault };

    fn from(fault: WorldFault) -> SolveFault
        ensures given { result ≡ of_world fault }
        ensures code { solve_code result ≡ world_code fault }
    {
        match fault {
            WorldFault::WorkerCount => SolveFault::WorkerCount,
            WorldFault::Memory(refused) => SolveFault::Memory(refused),
        }
    }
}
