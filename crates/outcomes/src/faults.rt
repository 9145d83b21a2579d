//! Why a board could not be answered at all.

ghost use Rattle.std.specs.Prelude.{◌≡◌};
ghost use Rattle.outcomes.specs.Faults.{solve_code};

use memory::OutOfMemory;
use thiserror::Error;

/// Why a board could not be answered at all.
#[derive(Clone, Copy, Debug, PartialEq, Eq, Error)]
pub enum SolveFault {
    /// V1
    #[error("the shapes of the boards, the weights and the tables differ")]
    ShapesDiffer,
    /// V2
    #[error("there are fewer workers than 1, or more than 16")]
    WorkerCount,
    /// V3
    #[error("no memory before the first step")]
    Memory(OutOfMemory),
}

impl SolveFault {
    /// The code that the fault is reported by: `V1` to `V3`.
    pub fn code(self) -> &'static str
        ensures { result.now ≡ solve_code self }
    {
        match self {
            SolveFault::ShapesDiffer => "V1",
            SolveFault::WorkerCount => "V2",
            SolveFault::Memory(_) => "V3",
        }
    }
}
