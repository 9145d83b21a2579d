//! Why a run over lines ends early.

ghost use Rattle.std.specs.Prelude.{◌≡◌};
ghost use Rattle.batch_runs.specs.Faults.{lines_code};

use crate::report::NoReport;
use thiserror::Error;

/// Why a run over lines ended early.
#[derive(Clone, Copy, Debug, PartialEq, Eq, Error)]
pub enum LinesFault {
    /// B1
    #[error("the input cannot be read")]
    Read,
    /// B2
    #[error("the output cannot be written")]
    Write,
    /// B3
    #[error("no memory for a report")]
    Memory(NoReport),
}

impl LinesFault {
    /// The code that the fault is reported by: `B1` to `B3`.
    pub fn code(self) -> &'static str
        ensures { result.now ≡ lines_code self }
    {
        match self {
            LinesFault::Read => "B1",
            LinesFault::Write => "B2",
            LinesFault::Memory(_) => "B3",
        }
    }
}
