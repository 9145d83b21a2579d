//! Why sides are no shape, why numbers are no board, and why a list says no weights.

ghost use Rattle.std.specs.Prelude.{◌≡◌};
ghost use Rattle.board.specs.Faults.{shape_code, tiles_code, weights_code};
ghost use Rattle.board.specs.Faults.{board_code};

use thiserror::Error;

/// Why sides are no shape.
#[derive(Clone, Copy, Debug, PartialEq, Eq, Error)]
pub enum ShapeFault {
    /// E1
    #[error("a side is not from 2 to 5")]
    SideOutOfRange,
}

impl ShapeFault {
    /// The code that the fault is reported by: `E1`.
    pub fn code(self) -> &'static str
        ensures { result.now ≡ shape_code self }
    {
        match self {
            ShapeFault::SideOutOfRange => "E1",
        }
    }
}

/// Why numbers are no board of a shape. Places count from 0.
#[derive(Clone, Copy, Debug, PartialEq, Eq, Error)]
pub enum TilesFault {
    /// E2
    #[error("the count of numbers is not the count of cells")]
    WrongCount,
    /// E3
    #[error("the number at place {0} is not below the count of cells")]
    TileOutOfRange(usize),
    /// E4
    #[error("the number at place {0} stood before")]
    TileRepeated(usize),
}

impl TilesFault {
    /// The code that the fault is reported by: `E2` to `E4`.
    pub fn code(self) -> &'static str
        ensures { result.now ≡ tiles_code self }
    {
        match self {
            TilesFault::WrongCount => "E2",
            TilesFault::TileOutOfRange(_) => "E3",
            TilesFault::TileRepeated(_) => "E4",
        }
    }
}

/// Why a list says no weights of a shape's tiles. Places count from 0.
#[derive(Clone, Copy, Debug, PartialEq, Eq, Error)]
pub enum WeightsFault {
    /// E13
    #[error("the count of weights is not the count of tiles")]
    WrongCount,
    /// E14
    #[error("the weight at place {0} is not from 1 to 255")]
    WeightOutOfRange(usize),
}

impl WeightsFault {
    /// The code that the fault is reported by: `E13` or `E14`.
    pub fn code(self) -> &'static str
        ensures { result.now ≡ weights_code self }
    {
        match self {
            WeightsFault::WrongCount => "E13",
            WeightsFault::WeightOutOfRange(_) => "E14",
        }
    }
}

/// Why sides are no shape, numbers no board, or a list no weights: the sum of these. Places count
/// from 0.
#[derive(Clone, Copy, Debug, PartialEq, Eq, Error)]
pub enum BoardFault {
    /// E1
    #[error("a side is not from 2 to 5")]
    SideOutOfRange,
    /// E2
    #[error("the count of numbers is not the count of cells")]
    WrongCount,
    /// E3
    #[error("the number at place {0} is not below the count of cells")]
    TileOutOfRange(usize),
    /// E4
    #[error("the number at place {0} stood before")]
    TileRepeated(usize),
    /// E13
    #[error("the count of weights is not the count of tiles")]
    WrongCountOfWeights,
    /// E14
    #[error("the weight at place {0} is not from 1 to 255")]
    WeightOutOfRange(usize),
}

impl BoardFault {
    /// The code that the fault is reported by: `E1` to `E4`, `E13` or `E14`.
    pub fn code(self) -> &'static str
        ensures { result.now ≡ board_code self }
    {
        match self {
            BoardFault::SideOutOfRange => "E1",
            BoardFault::WrongCount => "E2",
            BoardFault::TileOutOfRange(_) => "E3",
            BoardFault::TileRepeated(_) => "E4",
            BoardFault::WrongCountOfWeights => "E13",
            BoardFault::WeightOutOfRange(_) => "E14",
        }
    }
}

impl From<ShapeFault> for BoardFault {
    ghost use Rattle.std.specs.Prelude.{◌≡◌};
    ghost use Rattle.board.specs.Faults.{shape_code, board_code, of_shape};

    ghost from_gives = { λ fault sum. sum ≡ of_shape fault };

    fn from(fault: ShapeFault) -> BoardFault
        ensures given { result ≡ of_shape fault }
        ensures code { board_code result ≡ shape_code fault }
    {
        match fault {
            ShapeFault::SideOutOfRange => BoardFault::SideOutOfRange,
        }
    }
}

impl From<TilesFault> for BoardFault {
    ghost use Rattle.std.specs.Prelude.{◌≡◌};
    ghost use Rattle.board.specs.Faults.{tiles_code, board_code, of_tiles};

    ghost from_gives = { λ fault sum. sum ≡ of_tiles fault };

    fn from(fault: TilesFault) -> BoardFault
        ensures given { result ≡ of_tiles fault }
        ensures code { board_code result ≡ tiles_code fault }
    {
        match fault {
            TilesFault::WrongCount => BoardFault::WrongCount,
            TilesFault::TileOutOfRange(place) => BoardFault::TileOutOfRange(place),
            TilesFault::TileRepeated(place) => BoardFault::TileRepeated(place),
        }
    }
}

impl From<WeightsFault> for BoardFault {
    ghost use Rattle.std.specs.Prelude.{◌≡◌};
    ghost use Rattle.board.specs.Faults.{weights_code, board_code, of_weights};

    ghost from_gives = { λ fault sum. sum ≡ of_weights fault };

    fn from(fault: WeightsFault) -> BoardFault
        ensures given { result ≡ of_weights fault }
        ensures code { board_code result ≡ weights_code fault }
    {
        match fault {
            WeightsFault::WrongCount => BoardFault::WrongCountOfWeights,
            WeightsFault::WeightOutOfRange(place) => BoardFault::WeightOutOfRange(place),
        }
    }
}
