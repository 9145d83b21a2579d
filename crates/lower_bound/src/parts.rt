//! The values of the groups of a board, one by one.

ghost use Rattle.std.specs.Prelude.{◌≡◌, ◌*◌, ◌≤◌, length, map, sum, All};
ghost use Rattle.board.specs.Boards.{BoardModel};
ghost use Rattle.lower_bound.specs.Folded.{folded_parts, values_of, value_for, KeepsOtherTiles};

use crate::bound::GREATEST_SUM;
use board::Board;
use database_build::{Folded, NO_VALUE};
use std::marker::Model;

// The most groups that a partition may have.
pub(crate) const MOST_GROUPS: usize = 24;

/// What folded tables say of a board: a value for each of their groups. A move changes one of them
/// at most, that of the group of the tile that it moves.
#[derive(Debug, Drop)]
pub struct Parts {
    count: u8,
    values: [u16; MOST_GROUPS],
}

impl Model for Parts {
    ghost use Rattle.std.specs.Prelude.{ℕ, List, ◌≡◌, ◌≤◌, take, length};
    ghost use Rattle.lower_bound.specs.declared.parts.TheConstants.{MOST_GROUPS};

    ghost Value = { List ℕ };

    ghost view = { λ p. take p.count p.values };

    ghost invariant = { λ p. (p.count ≤ MOST_GROUPS) × (length p.values ≡ MOST_GROUPS) };
}

impl Parts {
    /// The values of a board, one for each of the tables.
    pub fn of(folds: &[Folded], board: &Board) -> Self
        requires few { length folds.now ≤ MOST_GROUPS }
        requires grid { All (λ fold. fold.selection.grid ≡ board.now.grid) folds.now }
        ensures { result ≡ values_of (folded_parts folds.now) board.now }
    {
        let mut values = [0; MOST_GROUPS];
        'tables: for i in 0..folds.len() {
            values[i] = value_for(&folds[i], board);
        }
        Parts {
            count: folds.len() as u8,
            values,
        }
    }

    /// The values of a board, where these are those of the board before a tile moved. Only the
    /// group of that tile is looked up.
    pub fn after(&self, folds: &[Folded], board: &Board, tile: u8) -> Self
        requires grid { All (λ fold. fold.selection.grid ≡ board.now.grid) folds.now }
        requires before { (before : BoardModel) × KeepsOtherTiles before board.now tile
            × (self.now ≡ values_of (folded_parts folds.now) before) }
        ensures { result ≡ values_of (folded_parts folds.now) board.now }
    {
        let count = self.count as usize;
        let mut values = self.values;
        renew(folds, board, tile, &mut values[..count]);
        Parts {
            count: self.count,
            values,
        }
    }

    /// Their sum.
    pub fn sum(&self) -> u32
        ensures value { result ≡ sum self.now }
        ensures high { result ≤ GREATEST_SUM }
    {
        add_up(&self.values[..self.count as usize])
    }
}

// Adds values.
fn add_up(values: &[u16]) -> u32
    requires { length values.now ≤ MOST_GROUPS }
    ensures value { result ≡ sum values.now }
    ensures high { result ≤ NO_VALUE * length values.now }
{
    let mut total = 0;
    'values: for value in values {
        total += u32::from(*value);
    }
    total
}

// Looks up anew the value of the group that has the tile, if one has.
fn renew(folds: &[Folded], board: &Board, tile: u8, values: &mut [u16])
    requires grid { All (λ fold. fold.selection.grid ≡ board.now.grid) folds.now }
    requires before { (before : BoardModel) × KeepsOtherTiles before board.now tile
        × (values.old ≡ map (value_for before) folds.now) }
    ensures { values.new ≡ map (value_for board.now) folds.now }
{
    'tables: for i in 0..folds.len() {
        if folds[i].has_tile(tile) {
            values[i] = value_for(&folds[i], board);
        }
    }
}

// What a folded table says of a board.
fn value_for(fold: &Folded, board: &Board) -> u16
    requires { fold.now.selection.grid ≡ board.now.grid }
    ensures { result ≡ value_for board.now fold.now }
{
    let view = fold.group().view(board);
    fold.value(&view)
}
