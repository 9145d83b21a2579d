//! The faults of groups, partitions and tables in one.

ghost use Rattle.std.specs.Prelude.{◌≡◌};
ghost use Rattle.lower_bound.specs.Faults.{pattern_code};

use database_build::TableFault;
use pattern_index::{GroupFault, PartitionFault};
use thiserror::Error;

/// Why numbers are no group, groups no partition, or values and tables not those of groups.
#[derive(Clone, Copy, Debug, PartialEq, Eq, Error)]
pub enum PatternFault {
    /// E5
    #[error("there is no number")]
    Empty,
    /// E6
    #[error("a number is no tile")]
    NotATile,
    /// E7
    #[error("a tile stood before")]
    Repeated,
    /// E8
    #[error("there are more views than a group may have")]
    TooManyViews,
    /// E9
    #[error("two groups share a tile")]
    SharedTile,
    /// E10
    #[error("there are more groups than a partition may have")]
    TooManyGroups,
    /// E11
    #[error("the count of values or tables is another, or a table is of another group")]
    WrongCount,
}

impl PatternFault {
    /// The code that the fault is reported by: `E5` to `E11`.
    pub fn code(self) -> &'static str
        ensures { result.now ≡ pattern_code self }
    {
        match self {
            PatternFault::Empty => "E5",
            PatternFault::NotATile => "E6",
            PatternFault::Repeated => "E7",
            PatternFault::TooManyViews => "E8",
            PatternFault::SharedTile => "E9",
            PatternFault::TooManyGroups => "E10",
            PatternFault::WrongCount => "E11",
        }
    }
}

impl From<GroupFault> for PatternFault {
    ghost use Rattle.std.specs.Prelude.{◌≡◌};
    ghost use Rattle.pattern_index.specs.Faults.{group_code};
    ghost use Rattle.lower_bound.specs.Faults.{pattern_code, of_group};

    ghost from_gives = { λ fault sum. sum ≡ of_group fault };

    fn from(fault: GroupFault) -> PatternFault
        ensures given { result ≡ of_group fault }
        ensures code { pattern_code result ≡ group_code fault }
    {
        match fault {
            GroupFault::Empty => PatternFault::Empty,
            GroupFault::NotATile => PatternFault::NotATile,
            GroupFault::Repeated => PatternFault::Repeated,
            GroupFault::TooManyViews => PatternFault::TooManyViews,
        }
    }
}

impl From<PartitionFault> for PatternFault {
    ghost use Rattle.std.specs.Prelude.{◌≡◌};
    ghost use Rattle.pattern_index.specs.Faults.{partition_code};
    ghost use Rattle.lower_bound.specs.Faults.{pattern_code, of_partition};

    ghost from_gives = { λ fault sum. sum ≡ of_partition fault };

    fn from(fault: PartitionFault) -> PatternFault
        ensures given { result ≡ of_partition fault }
        ensures code { pattern_code result ≡ partition_code fault }
    {
        match fault {
            PartitionFault::SharedTile => PatternFault::SharedTile,
            PartitionFault::TooManyGroups => PatternFault::TooManyGroups,
        }
    }
}

impl From<TableFault> for PatternFault {
    ghost use Rattle.std.specs.Prelude.{◌≡◌};
    ghost use Rattle.database_build.specs.Tables.{table_code};
    ghost use Rattle.lower_bound.specs.Faults.{pattern_code, of_table};

    ghost from_gives = { λ fault sum. sum ≡ of_table fault };

    fn from(fault: TableFault) -> PatternFault
        ensures given { result ≡ of_table fault }
        ensures code { pattern_code result ≡ table_code fault }
    {
        match fault {
            TableFault::WrongCount => PatternFault::WrongCount,
        }
    }
}
