//! What tables read of a board: digits of its search key, or the cells of its numbers.

ghost use Rattle.std.specs.Prelude.{◌≡◌, ◌*◌, ◌≤◌, length, sum_by, All, IfSome};
ghost use Rattle.board.specs.Boards.{BoardModel, IsBoard};
ghost use Rattle.pattern_index.specs.Sparse.{slot_in};
ghost use Rattle.pattern_index.specs.Views.{IsView, view_of};
ghost use Rattle.database_build.specs.Tables.{value_in};
ghost use Rattle.lower_bound.specs.Consecutive.{IsConsecutiveMove, IsConsecutiveOn};
ghost use Rattle.lower_bound.specs.Slides.{HasCells, IsMoveOf};

use database_build::{NO_VALUE, Table};
use search_keys::{KeyedBoard, short_exchanged};
use std::marker::Model;

/// A board as the tables of a bound read it: by digits of its search key, or by the cells of its
/// numbers.
#[derive(Debug, Drop)]
pub struct Reading {
    board: KeyedBoard,
    // None where it is read by digits.
    cells: Option<[u8; 25]>,
}

impl Model for Reading {
    ghost use Rattle.std.specs.Prelude.{IfSome};
    ghost use Rattle.board.specs.Boards.{BoardModel};
    ghost use Rattle.lower_bound.specs.Slides.{AreCellsOf};

    ghost Value = { BoardModel };

    ghost view = { λ r. r.board };

    ghost invariant = { λ r. IfSome r.cells (AreCellsOf r.board) };
}

impl Reading {
    // A board that is read by digits.
    pub(crate) fn by_digits(board: &KeyedBoard) -> Self
        ensures { result ≡ board.now }
    {
        Reading {
            board: *board,
            cells: None,
        }
    }

    // A board that is read by the cells of its numbers.
    pub(crate) fn by_cells(board: &KeyedBoard) -> Self
        ensures { result ≡ board.now }
    {
        Reading {
            board: *board,
            cells: Some(board.cells()),
        }
    }

    /// The board.
    pub fn board(&self) -> &KeyedBoard
        ensures value { result.now ≡ self.now }
        ensures board { IsBoard self.now }
    {
        // The last clause needs that this is a board. Each `KeyedBoard` is one, and `shape` says
        // so.
        let _ = self.board.shape();
        &self.board
    }

    // The cells of its numbers, unless it is read by digits.
    pub(crate) fn cells(&self) -> Option<&[u8; 25]>
        ensures { IfSome result (λ cells. HasCells self.now.grid cells.now self.now) }
    {
        // Here too `shape` says that this is a board.
        let _ = self.board.shape();
        self.cells.as_ref()
    }
}

// Adds the values that tables have for a board, each found by a slot of digits of the board's
// search key.
pub(crate) fn sum_by_digits(tables: &[Table], board: &KeyedBoard) -> u32
    requires few { length tables.now ≤ 24 }
    requires read { All (λ table. IsConsecutiveOn table.selection board.now) tables.now }
    ensures value { result
        ≡ sum_by (λ table. value_in table (view_of table.selection.tiles board.now)) tables.now }
    ensures high { result ≤ NO_VALUE * length tables.now }
{
    let mut sum = 0;
    'tables: for table in tables {
        sum += u32::from(value_by_digits(table, board));
    }
    sum
}

// The value that a table has for a board.
fn value_by_digits(table: &Table, board: &KeyedBoard) -> u16
    requires { IsConsecutiveOn table.now.selection board.now }
    ensures { result ≡ value_in table.now (view_of table.now.selection.tiles board.now) }
{
    table.slot_value(slot_by_digits(table, board))
}

// The values that a table has for a board before a move of one of its tiles and after it, each
// found by a slot of digits of the board's search key.
#[inline(always)]
pub(crate) fn values_by_digits(table: &Table, board: &KeyedBoard, tile: u8) -> (u16, u16)
    requires { IsConsecutiveMove table.now.selection tile board.now }
    ensures values { (b' : BoardModel) → IsMoveOf tile board.now b'
        → result ≡ (
          value_in table.now (view_of table.now.selection.tiles board.now),
          value_in table.now (view_of table.now.selection.tiles b'),
        ) }
    ensures high { result.1 ≤ NO_VALUE }
{
    let tiles = table.group().tiles();
    let blank = board.digits(0, 1);
    let cell = board.digits(tile as usize, 1);
    let before = slot_by_digits(table, board);
    let place = tile as usize - tiles[0] as usize + 1;
    let after = short_exchanged(before as u64, place, blank as u64, cell as u64) as usize;
    (table.slot_value(before), table.slot_value(after))
}

// The slot of what a table's group sees of a board: the blank's digit of the board's search key,
// and above it the digits of the group's tiles.
fn slot_by_digits(table: &Table, board: &KeyedBoard) -> usize
    requires { IsConsecutiveOn table.now.selection board.now }
    ensures view { IsView table.now.selection.grid table.now.selection.tiles
        (view_of table.now.selection.tiles board.now) }
    ensures slot { slot_in table.now.selection.grid (view_of table.now.selection.tiles board.now)
        ≡ result }
{
    let tiles = table.group().tiles();
    let blank = board.digits(0, 1);
    board.digits(tiles[0] as usize, tiles.len()) * 16 + blank
}
