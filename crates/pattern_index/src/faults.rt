//! Why numbers are no group, and groups no partition.

ghost use Rattle.std.specs.Prelude.{◌≡◌};
ghost use Rattle.pattern_index.specs.Faults.{group_code, partition_code};

use thiserror::Error;

/// Why numbers are no group.
#[derive(Clone, Copy, Debug, PartialEq, Eq, Error)]
pub enum GroupFault {
    /// E5
    #[error("there is no number")]
    Empty,
    /// E6
    #[error("a number is no tile")]
    NotATile,
    /// E7
    #[error("a tile stood before")]
    Repeated,
    /// E8
    #[error("there are more views than a group may have")]
    TooManyViews,
}

impl GroupFault {
    /// The code that the fault is reported by: `E5` to `E8`.
    pub fn code(self) -> &'static str
        ensures { result.now ≡ group_code self }
    {
        match self {
            GroupFault::Empty => "E5",
            GroupFault::NotATile => "E6",
            GroupFault::Repeated => "E7",
            GroupFault::TooManyViews => "E8",
        }
    }
}

/// Why groups are no partition.
#[derive(Clone, Copy, Debug, PartialEq, Eq, Error)]
pub enum PartitionFault {
    /// E9
    #[error("two groups share a tile")]
    SharedTile,
    /// E10
    #[error("there are more groups than a partition may have")]
    TooManyGroups,
}

impl PartitionFault {
    /// The code that the fault is reported by: `E9` or `E10`.
    pub fn code(self) -> &'static str
        ensures { result.now ≡ partition_code self }
    {
        match self {
            PartitionFault::SharedTile => "E9",
            PartitionFault::TooManyGroups => "E10",
        }
    }
}
