//! Why a text says no groups of a partition.

ghost use Rattle.std.specs.Prelude.{◌≡◌};
ghost use Rattle.batch_lines.specs.GroupFaults.{groups_code};

use memory::OutOfMemory;
use pattern_index::{GroupFault, PartitionFault};
use thiserror::Error;

/// Why a text says no groups of a partition.
#[derive(Clone, Copy, Debug, PartialEq, Eq, Error)]
pub enum GroupsFault {
    /// E5 to E8
    #[error("{0}")]
    NoGroup(GroupFault),
    /// E9 or E10
    #[error("{0}")]
    NoPartition(PartitionFault),
    /// There is no memory for the groups.
    #[error("no memory for the groups")]
    Memory(OutOfMemory),
}

impl GroupsFault {
    /// The word that the fault is reported by: `E5` to `E10`, or `memory`.
    pub fn code(self) -> &'static str
        ensures { result.now ≡ groups_code self }
    {
        match self {
            GroupsFault::NoGroup(fault) => fault.code(),
            GroupsFault::NoPartition(fault) => fault.code(),
            GroupsFault::Memory(_) => "memory",
        }
    }
}
