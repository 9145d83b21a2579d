//! Boards known by their search keys.

ghost use Rattle.std.specs.Prelude.{ℕ, ◌≡◌, ◌+◌, ◌<◌, ◌≤◌, ◌↔◌, Some, IfSome, IsTrue};
ghost use Rattle.std.specs.Prelude.{slice_index, take, length, map};
ghost use Rattle.std.specs.List.{range_with_len};
ghost use Rattle.board.specs.Shapes.{cell_count};
ghost use Rattle.board.specs.Boards.{BoardModel, IsBoard, blank_of, cell_of, goal_of};
ghost use Rattle.board.specs.Neighbours.{neighbour};
ghost use Rattle.board.specs.Moves.{Moves, blank_exchange, successor};
ghost use Rattle.pattern_index.specs.Sparse.{sparse_of};
ghost use Rattle.search_keys.specs.SearchKeys.{search_key, HasSearchKey};

use crate::digits::{
    long_digit, long_exchanged, long_number, long_place, short_digit, short_digits,
    short_exchanged, short_number, short_place, write_long, write_short,
};
use board::{Board, Move, Shape, Weights};
use pattern_index::cells_of;
use std::marker::Model;

// The search key of Korf's goal of 2 by 2, where each number is on the cell of that number.
const SMALLEST_GOAL: u128 = 0x3210;

/// A board as its search key, which has the cell of each number as a digit, the blank's lowest.
#[derive(Clone, Copy, Debug)]
pub struct KeyedBoard {
    shape: Shape,
    key: u128,
}

impl Model for KeyedBoard {
    ghost use Rattle.board.specs.Boards.{BoardModel};

    ghost Value = { BoardModel };

    ghost use Rattle.search_keys.specs.Storage.{board_in, key_storage_of, IsKeyed};
    ghost use Rattle.search_keys.specs.Storage.{storage_of-board_in};

    ghost view = { board_in };

    ghost invariant = { IsKeyed };

    ghost inverse = { key_storage_of };

    ghost inverse_ok = { storage_of-board_in };
}

impl PartialEq for KeyedBoard {
    ghost use Rattle.std.specs.Cmp.{partial_equiv_from_equiv};
    ghost use Rattle.board.specs.Equality.{position_eq, position_eq-laws};

    ghost eq = { position_eq };

    ghost laws = { partial_equiv_from_equiv position_eq-laws };

    /// Whether both are one board.
    fn eq(&self, other: &Self) -> bool
        ensures value { result ≡ position_eq self.now other.now }
        ensures same { IsTrue result ↔ (self.now ≡ other.now) }
    {
        self.shape == other.shape && self.key == other.key
    }
}

impl Eq for KeyedBoard {
    ghost use Rattle.board.specs.Equality.{position_eq-laws};

    ghost laws = { position_eq-laws };
}

impl Default for KeyedBoard {
    /// Korf's goal of 2 by 2, as for `Board`. It fills places of a buffer that hold no board yet.
    fn default() -> Self
        ensures { result ≡ goal_of (record { rows = 2; cols = 2 }) }
    {
        KeyedBoard {
            shape: Shape::new(2, 2).unwrap(),
            key: SMALLEST_GOAL,
        }
    }
}

/// What is known of a board after a move.
#[derive(Clone, Copy, Debug)]
pub struct Slid {
    /// Its search key.
    pub key: u128,
    /// The tile that is moved, to where the blank was.
    pub tile: u8,
}

impl KeyedBoard {
    /// A board by its search key.
    pub fn new(board: &Board) -> Self
        ensures { result ≡ board.now }
    {
        KeyedBoard {
            shape: board.shape(),
            key: search_key_of(board),
        }
    }

    /// The board of this shape with this search key, which is known to be a board's.
    pub fn of_key(shape: Shape, key: u128) -> Self
        requires { (b : BoardModel) × HasSearchKey shape key b }
        ensures { HasSearchKey shape key result }
    {
        KeyedBoard { shape, key }
    }

    /// Its shape.
    pub fn shape(&self) -> Shape
        ensures value { result ≡ self.now.grid }
        ensures board { IsBoard self.now }
    {
        self.shape
    }

    /// Its search key.
    pub fn key(&self) -> u128
        ensures value { result ≡ search_key self.now }
        ensures board { IsBoard self.now }
    {
        self.key
    }

    /// The cell of the blank.
    pub fn blank(&self) -> usize
        ensures value { result ≡ blank_of self.now }
        ensures within { result < cell_count self.now.grid }
        ensures board { IsBoard self.now }
    {
        if is_short(self.shape) {
            return short_digit(self.key as u64, 0) as usize;
        }
        long_digit(self.key, 0) as usize
    }

    /// The cell that a number is on.
    pub fn cell(&self, number: u8) -> usize
        requires { number < cell_count self.now.grid }
        ensures value { result ≡ cell_of self.now number }
        ensures within { result < cell_count self.now.grid }
        ensures board { IsBoard self.now }
    {
        let place = number as usize;
        if is_short(self.shape) {
            return short_digit(self.key as u64, place) as usize;
        }
        long_digit(self.key, place) as usize
    }

    /// The cell of each number, by the number.
    pub fn cells(&self) -> [u8; 25]
        ensures board { IsBoard self.now }
        ensures few { cell_count self.now.grid ≤ 25 }
        ensures cells { (number : ℕ) → number < cell_count self.now.grid
            → slice_index result number ≡ cell_of self.now number }
    {
        let mut cells = [0; 25];
        if is_short(self.shape) {
            write_short(self.key as u64, &mut cells);
            return cells;
        }
        write_long(self.key, &mut cells);
        cells
    }

    /// The cells of numbers that follow one another, as digits of one number: `count` of them from
    /// `first` on, that one's cell as the lowest digit. It is for boards of at most 16 cells.
    pub fn digits(&self, first: usize, count: usize) -> usize
        requires short { cell_count self.now.grid ≤ 16 }
        requires some { 0 < count }
        requires few { count < 16 }
        requires within { first + count ≤ cell_count self.now.grid }
        ensures { result ≡ sparse_of 16 (map (cell_of self.now) (range_with_len first count)) }
    {
        short_digits(self.key as u64, first, count)
    }

    /// The number on a cell, 0 for the blank.
    pub fn number_on(&self, cell: usize) -> u8
        requires { cell < cell_count self.now.grid }
        ensures value { result ≡ slice_index self.now.tiles cell }
        ensures within { result < cell_count self.now.grid }
        ensures cell { cell_of self.now result ≡ cell }
        ensures board { IsBoard self.now }
    {
        if is_short(self.shape) {
            return short_place(self.key as u64, cell as u64);
        }
        long_place(self.key, cell as u128)
    }

    /// The search key of the board after the blank goes to a cell beside it, and the tile that is
    /// moved from there.
    pub fn slide(&self, to: usize) -> Slid
        requires { (m : Move) × (neighbour self.now.grid m (blank_of self.now) ≡ Some to) }
        ensures key { result.key ≡ search_key (blank_exchange self.now to) }
        ensures board { IsBoard (blank_exchange self.now to) }
        ensures tile { result.tile ≡ slice_index self.now.tiles to }
        ensures some { 0 < result.tile }
        ensures low { result.tile < cell_count self.now.grid }
    {
        let blank = self.blank();
        let tile = self.number_on(to);
        let place = tile as usize;
        if is_short(self.shape) {
            let key = short_exchanged(self.key as u64, place, blank as u64, to as u64);
            return Slid {
                key: key as u128,
                tile,
            };
        }
        let key = long_exchanged(self.key, place, blank as u128, to as u128);
        Slid { key, tile }
    }

    /// The board after a move and the weight of the tile moved, or None where the blank would leave
    /// the board: as `Board::step` answers.
    pub fn step(&self, direction: Move, weights: &Weights) -> Option<(KeyedBoard, u32)>
        requires { weights.now.grid ≡ self.now.grid }
        ensures moves { (b : BoardModel) (cost : ℕ) →
            (result ≡ Some (b, cost)) ↔ Moves weights.now self.now direction b cost }
        ensures value { result ≡ successor weights.now self.now direction }
        ensures low { IfSome result (λ moved. 1 ≤ moved.1) }
    {
        let shape = self.shape();
        let to = shape.neighbour(self.blank(), direction)?;
        let slid = self.slide(to);
        let board = KeyedBoard::of_key(shape, slid.key);
        Some((board, weights.of(slid.tile)))
    }

    /// The board itself.
    pub fn board(&self) -> Board
        ensures value { result ≡ self.now }
        ensures board { IsBoard self.now }
    {
        let shape = self.shape();
        let tiles = self.tiles();
        Board::from_tiles(shape, &tiles[..shape.cells()]).unwrap()
    }

    // The numbers on the cells, and zeros behind them.
    fn tiles(&self) -> [u8; 25]
        ensures tiles { take (cell_count self.now.grid) result ≡ self.now.tiles }
        ensures all { length result ≡ 25 }
    {
        let mut tiles = [0; 25];
        let cells = self.cells();
        'numbers: for number in 0..self.shape().cells() {
            tiles[cells[number] as usize] = number as u8;
        }
        tiles
    }
}

// Whether a digit has four bits.
fn is_short(shape: Shape) -> bool
    ensures { IsTrue result ↔ (cell_count shape ≤ 16) }
{
    shape.cells() <= 16
}

// The search key of a board.
fn search_key_of(board: &Board) -> u128
    ensures value { result ≡ search_key board.now }
    ensures board { IsBoard board.now }
{
    let shape = board.shape();
    let cells = cells_of(board);
    let digits = &cells[..shape.cells()];
    if is_short(shape) {
        return short_number(digits) as u128;
    }
    long_number(digits)
}
