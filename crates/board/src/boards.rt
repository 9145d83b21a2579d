//! Boards: the numbers on their cells, their keys, and the moves of the blank.

ghost use Rattle.std.specs.Prelude.{◌≡◌, ◌==◌, ◌<◌, ◌≤◌, ◌↔◌, ◌-◌, ◌*◌, ◌++◌, ℕ, Some};
ghost use Rattle.std.specs.Prelude.{IsTrue, IsOk, IsSome, IsErrOf, OnOk, IfErr, IfOk, IfSome};
ghost use Rattle.std.specs.Prelude.{length, take, replicate, position, slice_get};
ghost use Rattle.board.specs.Shapes.{cell_count};
ghost use Rattle.board.specs.Boards.{BoardModel, IsBoard, blank_of, goal_of};
ghost use Rattle.board.specs.Keys.{key_of, HasKey};
ghost use Rattle.board.specs.Digits.{digits_of};
ghost use Rattle.board.specs.Padding.{IsPadded};
ghost use Rattle.board.specs.Moves.{Moves, successor};
ghost use Rattle.board.specs.Faults.{IsFirstTilesFault};
ghost use Rattle.board.specs.Classes.{inversions};
ghost use Rattle.board.specs.declared.faults.TilesFault.{TilesFault};

use crate::classes::count_inversions;
use crate::costs::{Weights, count_up};
use crate::faults::TilesFault;
use crate::moves::Move;
use crate::shapes::Shape;
use std::marker::Model;

// The tiles of Korf's goal of 2 by 2, with zeros behind them.
const SMALLEST_GOAL: [u8; 25] = [
    0, 1, 2, 3, 0, 0, 0, 0, 0, 0, 0, 0, 0, 0, 0, 0, 0, 0, 0, 0, 0, 0, 0, 0, 0,
];

/// The tiles on the cells of a board, each number once, with 0 for the blank.
#[derive(Clone, Copy, Debug)]
pub struct Board {
    shape: Shape,
    tiles: [u8; 25],
}

impl Model for Board {
    ghost use Rattle.board.specs.Boards.{BoardModel};

    ghost Value = { BoardModel };

    ghost use Rattle.board.specs.Storage.{position_in, storage_of, IsStored};
    ghost use Rattle.board.specs.Storage.{storage_of-position_in};

    ghost view = { position_in };

    ghost invariant = { IsStored };

    ghost inverse = { storage_of };

    ghost inverse_ok = { storage_of-position_in };
}

impl PartialEq for Board {
    ghost use Rattle.std.specs.Cmp.{partial_equiv_from_equiv};
    ghost use Rattle.board.specs.Equality.{position_eq, position_eq-laws};

    ghost eq = { position_eq };

    ghost laws = { partial_equiv_from_equiv position_eq-laws };

    /// Whether readers see one board.
    fn eq(&self, other: &Self) -> bool
        ensures value { result ≡ position_eq self.now other.now }
        ensures same { IsTrue result ↔ (self.now ≡ other.now) }
    {
        self.shape == other.shape && self.tiles == other.tiles
    }
}

impl Eq for Board {
    ghost use Rattle.board.specs.Equality.{position_eq-laws};

    ghost laws = { position_eq-laws };
}

impl Default for Board {
    /// Korf's goal of 2 by 2, a placeholder where no board was put yet.
    fn default() -> Self
        ensures { result ≡ goal_of (record { rows = 2; cols = 2 }) }
    {
        let shape = Shape::new(2, 2).unwrap();
        Board {
            shape,
            tiles: SMALLEST_GOAL,
        }
    }
}

impl Board {
    /// The board with these numbers on its cells, from cell 0 on, or the first fault:
    ///
    /// - E2: their count is not the count of cells.
    /// - E3: the first faulty place has a number that is not below the count of cells.
    /// - E4: the first faulty place has a number that an earlier place has too.
    #[tactic(auto, using(crate::proofs::TileLemmas::no_fault, crate::proofs::TileLemmas::one_fault))]
    pub fn from_tiles(shape: Shape, numbers: &[u8]) -> Result<Self, TilesFault>
        ensures accepted { IsOk result ↔ IsBoard (record { grid = shape; tiles = numbers.now }) }
        ensures value { IfOk result (λ b. b ≡ record { grid = shape; tiles = numbers.now }) }
        ensures fault { (fault : TilesFault) →
            IsErrOf result fault ↔ IsFirstTilesFault shape numbers.now fault }
    {
        if let Err(fault) = check_tiles(shape, numbers) {
            return Err(fault);
        }
        let tiles = fill_up(numbers);
        Ok(Board { shape, tiles })
    }

    /// Korf's goal: the blank in the upper left, and tile t on cell t.
    pub fn goal(shape: Shape) -> Self
        ensures value { result ≡ goal_of shape }
        ensures board { IsBoard result }
    {
        let tiles = count_up(shape.cells());
        Board { shape, tiles }
    }

    /// The board as one number: 5 bits a cell, cell 0 highest. So the keys of boards of one shape
    /// are in the order of their lists of tiles.
    pub fn key(&self) -> u128
        ensures value { result ≡ key_of self.now }
        ensures board { IsBoard self.now }
    {
        let mut key = 0;
        for tile in self.tiles() {
            key = key * 32 + *tile as u128;
        }
        key
    }

    /// The board of this shape with this key, or None where there is none.
    pub fn from_key(shape: Shape, key: u128) -> Option<Self>
        ensures found { IsSome result ↔ ((b : BoardModel) × HasKey shape key b) }
        ensures value { IfSome result (HasKey shape key) }
    {
        let tiles = last_digits(shape.cells(), key);
        let Ok(board) = Board::from_tiles(shape, &tiles[..shape.cells()]) else {
            return None;
        };
        if board.key() == key {
            Some(board)
        } else {
            None
        }
    }

    /// The board of this shape with this key, which is known to be a board's: as `from_key`,
    /// without a test.
    pub fn of_key(shape: Shape, key: u128) -> Self
        requires { (b : BoardModel) × HasKey shape key b }
        ensures { HasKey shape key result }
    {
        let digits = last_digits(shape.cells(), key);
        Board {
            shape,
            tiles: digits,
        }
    }

    /// The numbers on the cells, from cell 0 on.
    pub fn tiles(&self) -> &[u8]
        ensures value { result.now ≡ self.now.tiles }
        ensures board { IsBoard self.now }
    {
        &self.tiles[..self.shape.cells()]
    }

    /// The tile on a cell, 0 for the blank.
    pub fn tile(&self, cell: usize) -> u8
        requires { cell < cell_count self.now.grid }
        ensures value { slice_get self.now.tiles cell ≡ Some result }
        ensures within { result < cell_count self.now.grid }
    {
        self.tiles[cell]
    }

    /// The cell of the blank.
    pub fn blank(&self) -> usize
        ensures value { result ≡ blank_of self.now }
        ensures within { result < cell_count self.now.grid }
        ensures zero { slice_get self.now.tiles result ≡ Some 0 }
    {
        first_zero(&self.tiles).unwrap()
    }

    /// The sides of the board.
    pub fn shape(&self) -> Shape
        ensures value { result ≡ self.now.grid }
        ensures board { IsBoard self.now }
    {
        self.shape
    }

    // The number of pairs of cells where the earlier cell holds the greater number.
    pub(crate) fn inversions(&self) -> usize
        ensures value { result ≡ inversions self.now.tiles }
        ensures high { result ≤ 25 * 25 }
    {
        count_inversions(self.tiles())
    }

    /// The board after a move and the weight of the tile moved, or None where the blank would leave
    /// the board.
    pub fn step(&self, direction: Move, weights: &Weights) -> Option<(Board, u32)>
        requires { weights.now.grid ≡ self.now.grid }
        ensures moves { (b : BoardModel) (cost : ℕ) →
            (result ≡ Some (b, cost)) ↔ Moves weights.now self.now direction b cost }
        ensures value { result ≡ successor weights.now self.now direction }
        ensures board { IfSome result (λ moved. IsBoard moved.0) }
        ensures low { IfSome result (λ moved. 1 ≤ moved.1) }
        ensures high { IfSome result (λ moved. moved.1 ≤ 255) }
    {
        let from = self.blank();
        let to = self.shape.neighbour(from, direction)?;
        let tile = self.tiles[to];
        let mut tiles = self.tiles;
        tiles[from] = tile;
        tiles[to] = 0;
        let board = Board {
            shape: self.shape,
            tiles,
        };
        Some((board, weights.of(tile)))
    }
}

// The first fault of numbers that should be the tiles of a board, if there is one.
fn check_tiles(shape: Shape, numbers: &[u8]) -> Result<(), TilesFault>
    ensures sound { OnOk result (IsBoard (record { grid = shape; tiles = numbers.now })) }
    ensures fault { IfErr result (IsFirstTilesFault shape numbers.now) }
{
    let count = shape.cells();
    if numbers.len() != count {
        return Err(TilesFault::WrongCount);
    }
    let mut seen = [false; 25];
    for (place, number) in numbers.iter().enumerate() {
        let tile = *number as usize;
        if tile >= count {
            return Err(TilesFault::TileOutOfRange(place));
        }
        if seen[tile] {
            return Err(TilesFault::TileRepeated(place));
        }
        seen[tile] = true;
    }
    Ok(())
}

// The numbers with zeros behind them.
fn fill_up(numbers: &[u8]) -> [u8; 25]
    requires { length numbers.now ≤ 25 }
    ensures { result ≡ numbers.now ++ replicate (25 - length numbers.now) 0 }
{
    let mut tiles = [0; 25];
    tiles[..numbers.len()].copy_from_slice(numbers);
    tiles
}

// The last digits of a key to the base 32, as many as there are cells, with zeros behind them.
fn last_digits(cells: usize, key: u128) -> [u8; 25]
    requires { cells ≤ 25 }
    ensures digits { take cells result ≡ digits_of cells key }
    ensures unused { IsPadded 25 cells result }
{
    let mut tiles = [0; 25];
    let mut rest = key;
    for cell in (0..cells).rev() {
        tiles[cell] = (rest % 32) as u8;
        rest /= 32;
    }
    tiles
}

// The first place of a 0.
pub(crate) fn first_zero(numbers: &[u8]) -> Option<usize>
    ensures { result ≡ position (λ number. number == 0) numbers.now }
{
    numbers.iter().position(|number| *number == 0)
}
