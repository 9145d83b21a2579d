//! What is wrong with bytes, why nothing was read or written, and the codes of these.

ghost use Rattle.std.specs.Prelude.{◌≡◌};
ghost use Rattle.certificate.specs.Faults.{format_code, read_code, write_code};

use memory::OutOfMemory;
use thiserror::Error;

/// What is wrong with bytes that spell no certificate.
#[derive(Clone, Copy, Debug, PartialEq, Eq, Error)]
pub enum FormatFault {
    /// F1
    #[error("the bytes begin as no certificate does")]
    OtherMagic,
    /// F2
    #[error("the input ends before the last byte due")]
    Truncated,
    /// F3
    #[error("a value is out of its range")]
    OutOfRange,
    /// F4
    #[error("a row does not come after the row before it")]
    NotRising,
    /// F5
    #[error("bytes stand after the last row")]
    BytesAfterEnd,
}

impl FormatFault {
    /// The code that the fault is reported by: `F1` to `F5`.
    pub fn code(self) -> &'static str
        ensures { result.now ≡ format_code self }
    {
        match self {
            FormatFault::OtherMagic => "F1",
            FormatFault::Truncated => "F2",
            FormatFault::OutOfRange => "F3",
            FormatFault::NotRising => "F4",
            FormatFault::BytesAfterEnd => "F5",
        }
    }
}

/// Why no certificate was read.
#[derive(Clone, Copy, Debug, PartialEq, Eq, Error)]
pub enum ReadFault {
    /// F1 to F5
    #[error("{0}")]
    Format(FormatFault),
    /// F6
    #[error("the input cannot be read")]
    Failed,
    /// F7
    #[error("no memory for the groups, the plan or the rows")]
    NoMemory(OutOfMemory),
}

impl ReadFault {
    /// The code that the fault is reported by: `F1` to `F7`.
    pub fn code(self) -> &'static str
        ensures { result.now ≡ read_code self }
    {
        match self {
            ReadFault::Format(fault) => fault.code(),
            ReadFault::Failed => "F6",
            ReadFault::NoMemory(_) => "F7",
        }
    }
}

/// Why no certificate was written.
#[derive(Clone, Copy, Debug, PartialEq, Eq, Error)]
pub enum WriteFault {
    /// F8
    #[error("the output cannot be written")]
    Failed,
}

impl WriteFault {
    /// The code that the fault is reported by: `F8`.
    pub fn code(self) -> &'static str
        ensures { result.now ≡ write_code self }
    {
        match self {
            WriteFault::Failed => "F8",
        }
    }
}
