//! Why values are no table, and tables not those of a partition.

ghost use Rattle.std.specs.Prelude.{◌≡◌};
ghost use Rattle.database_build.specs.Tables.{table_code};

use thiserror::Error;

/// Why values are no table of a group, or tables not those of a partition.
#[derive(Clone, Copy, Debug, PartialEq, Eq, Error)]
pub enum TableFault {
    /// E11
    #[error("the count of values or tables is another, or a table is of another group")]
    WrongCount,
}

impl TableFault {
    /// The code that the fault is reported by: `E11`.
    pub fn code(self) -> &'static str
        ensures { result.now ≡ table_code self }
    {
        match self {
            TableFault::WrongCount => "E11",
        }
    }
}
