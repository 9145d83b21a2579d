//! The four moves: their letters, their opposites, and the neighbours that they lead to.

ghost use Rattle.std.specs.Prelude.{◌≡◌, ◌<◌, ◌%◌, ◌/◌, ◌↔◌, ℕ, IsTrue, Some};
ghost use Rattle.board.specs.Shapes.{cell_count};
ghost use Rattle.board.specs.Neighbours.{LiesTowards, neighbour, opposite};
ghost use Rattle.board.specs.Letters.{letter_of, move_of_letter};

use crate::shapes::Shape;

/// A move, by the direction in which the blank goes: up, left, right or down.
#[derive(Clone, Copy, Debug)]
pub enum Move {
    /// Up.
    U,
    /// To the left.
    L,
    /// To the right.
    R,
    /// Down.
    D,
}

impl PartialEq for Move {
    ghost use Rattle.std.specs.Cmp.{partial_equiv_from_equiv};
    ghost use Rattle.board.specs.Equality.{move_eq, move_eq-laws};

    ghost eq = { move_eq };

    ghost laws = { partial_equiv_from_equiv move_eq-laws };

    fn eq(&self, other: &Self) -> bool
        ensures value { result ≡ move_eq self.now other.now }
        ensures same { IsTrue result ↔ (self.now ≡ other.now) }
    {
        *self as u8 == *other as u8
    }
}

impl Eq for Move {
    ghost use Rattle.board.specs.Equality.{move_eq-laws};

    ghost laws = { move_eq-laws };
}

impl Move {
    /// The four moves, in the order in which they are tried.
    pub const ALL: [Move; 4] = [Move::U, Move::L, Move::R, Move::D];

    /// The move that takes this one back: the opposite direction.
    pub fn undo(self) -> Self
        ensures { result ≡ opposite self }
    {
        match self {
            Move::U => Move::D,
            Move::L => Move::R,
            Move::R => Move::L,
            Move::D => Move::U,
        }
    }

    /// The letter of the move, as a byte of ASCII.
    pub fn letter(self) -> u8
        ensures { result ≡ letter_of self }
    {
        match self {
            Move::U => b'U',
            Move::L => b'L',
            Move::R => b'R',
            Move::D => b'D',
        }
    }

    /// The move with a letter, or None where the byte is no letter of a move.
    pub fn from_letter(letter: u8) -> Option<Move>
        ensures { result ≡ move_of_letter letter }
    {
        match letter {
            b'U' => Some(Move::U),
            b'L' => Some(Move::L),
            b'R' => Some(Move::R),
            b'D' => Some(Move::D),
            _ => None,
        }
    }
}

impl Shape {
    /// The cell next to a cell in a direction, or None at the edge.
    pub fn neighbour(self, cell: usize, direction: Move) -> Option<usize>
        requires { cell < cell_count self }
        ensures towards { (to : ℕ) → (result ≡ Some to) ↔ LiesTowards self direction cell to }
        ensures value { result ≡ neighbour self direction cell }
    {
        next_cell(self, cell, direction)
    }
}

// The cell one row or column further, where there is one.
fn next_cell(shape: Shape, cell: usize, direction: Move) -> Option<usize>
    requires { cell < cell_count shape }
    ensures { result ≡ neighbour shape direction cell }
{
    let rows = shape.rows() as usize;
    let cols = shape.cols() as usize;
    match direction {
        Move::U if cell < cols => None,
        Move::U => Some(cell - cols),
        Move::L if column_of(shape, cell) == 0 => None,
        Move::L => Some(cell - 1),
        Move::R if column_of(shape, cell) + 1 == cols => None,
        Move::R => Some(cell + 1),
        Move::D if row_of(shape, cell) + 1 == rows => None,
        Move::D => Some(cell + cols),
    }
}

// The column of a cell. To divide by a number that the compiler knows is much faster than by one
// that it doesn't.
fn column_of(shape: Shape, cell: usize) -> usize
    ensures { result ≡ cell % shape.cols }
{
    let _ = shape.cells();
    match shape.cols() {
        2 => cell % 2,
        3 => cell % 3,
        4 => cell % 4,
        _ => cell % 5,
    }
}

// The row of a cell.
fn row_of(shape: Shape, cell: usize) -> usize
    ensures { result ≡ cell / shape.cols }
{
    let _ = shape.cells();
    match shape.cols() {
        2 => cell / 2,
        3 => cell / 3,
        4 => cell / 4,
        _ => cell / 5,
    }
}
