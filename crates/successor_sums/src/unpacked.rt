//! A board taken apart, and its successors.

ghost use Rattle.std.specs.Prelude.{ℕ, ◌≡◌, ◌*◌, ◌/◌, ◌%◌, ◌^◌, ◌<◌, ◌≤◌, All, IfSome, option_map};
ghost use Rattle.board.specs.Shapes.{cell_count};
ghost use Rattle.board.specs.Boards.{IsBoard, blank_of};
ghost use Rattle.board.specs.Moves.{successor};
ghost use Rattle.lower_bound.specs.Tables.{parts_of};
ghost use Rattle.successor_sums.specs.Unpacked.{FitsGrid, successors_of, told_of};

use board::{Board, Move, Shape, Weights};
use lower_bound::Bound;
use pattern_index::{cells_of, exchange};
use std::marker::Model;

/// A successor, the board that a move leads to, with what the move costs. Cell and tile have 32
/// bits, so that no byte is unused: unused bytes would be copied one by one.
#[derive(Clone, Copy, Debug)]
pub struct Successor {
    /// Its key.
    pub key: u128,
    /// The cell that the tile leaves, and to which the blank goes.
    pub cell: u32,
    /// The tile that is moved, to where the blank was.
    pub tile: u32,
    /// What the move costs.
    pub cost: u32,
    /// Its sum.
    pub sum: u32,
}

/// A board taken apart: its shape, its key, and the cell of each number. A tile on a cell is a
/// digit of the key.
#[derive(Debug, Drop)]
pub struct UnpackedBoard {
    shape: Shape,
    key: u128,
    cells: [u8; 25],
}

impl Model for UnpackedBoard {
    ghost use Rattle.board.specs.Boards.{BoardModel};

    ghost Value = { BoardModel };

    ghost use Rattle.successor_sums.specs.Unpacked.{unpacked_board, IsUnpacked};

    ghost view = { unpacked_board };

    ghost invariant = { IsUnpacked };
}

impl UnpackedBoard {
    /// A board taken apart.
    pub fn new(board: &Board) -> Self
        ensures { result ≡ board.now }
    {
        UnpackedBoard {
            shape: board.shape(),
            key: board.key(),
            cells: cells_of(board),
        }
    }

    /// The cell of the blank.
    pub fn blank(&self) -> usize
        ensures value { result ≡ blank_of self.now }
        ensures within { result < cell_count self.now.grid }
        ensures board { IsBoard self.now }
    {
        self.cells[0] as usize
    }

    /// Its successors by the four moves, in the order of `Move::ALL`. None where the blank would
    /// leave the board.
    pub fn successors(&self, weights: &Weights, bound: &Bound) -> [Option<Successor>; 4]
        requires rule { weights.now.grid ≡ self.now.grid }
        requires bound { bound.now.split.grid ≡ self.now.grid }
        ensures value { result ≡ successors_of weights.now (parts_of bound.now) self.now }
        ensures fit { All (λ told. IfSome told (FitsGrid self.now.grid)) result }
    {
        [
            self.successor(Move::U, weights, bound),
            self.successor(Move::L, weights, bound),
            self.successor(Move::R, weights, bound),
            self.successor(Move::D, weights, bound),
        ]
    }

    // The successor by a move. Its key is this board's, with the tile's digit moved from one place
    // to another.
    fn successor(&self, direction: Move, weights: &Weights, bound: &Bound) -> Option<Successor>
        requires rule { weights.now.grid ≡ self.now.grid }
        requires bound { bound.now.split.grid ≡ self.now.grid }
        ensures value { result ≡ option_map (told_of (parts_of bound.now) self.now)
            (successor weights.now self.now direction) }
        ensures fit { IfSome result (FitsGrid self.now.grid) }
    {
        let from = self.blank();
        let to = self.shape.neighbour(from, direction)?;
        let last = self.shape.cells() - 1;
        let behind = last - to;
        let tile = digit_of(self.key, behind);
        let mut cells = self.cells;
        exchange(&mut cells, tile);
        Some(Successor {
            key: self.key - digit_at(tile, behind) + digit_at(tile, last - from),
            cell: to as u32,
            tile: tile as u32,
            cost: weights.of(tile),
            sum: bound.sum_at(&cells),
        })
    }
}

// The digit of a key that has this number of digits behind it.
#[tactic(auto, using(search_keys::proofs::ZeroLemmas::long_read))]
fn digit_of(key: u128, behind: usize) -> u8
    requires { behind ≤ 24 }
    ensures { result ≡ key / 32 ^ behind % 32 }
{
    ((key >> (5 * behind as u32)) % 32) as u8
}

// A tile as the digit of a key that has this number of digits behind it.
fn digit_at(tile: u8, behind: usize) -> u128
    requires tile { tile < 32 }
    requires few { behind ≤ 24 }
    ensures { result ≡ tile * 32 ^ behind }
{
    (tile as u128) << (5 * behind as u32)
}
