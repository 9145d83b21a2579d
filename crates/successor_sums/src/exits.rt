//! The moves by which the blank stays on the board.

ghost use Rattle.std.specs.Prelude.{◌≡◌, ◌<◌};
ghost use Rattle.board.specs.Shapes.{cell_count, column_of, row_of};
ghost use Rattle.board.specs.Neighbours.{neighbour};
ghost use Rattle.successor_sums.specs.ByMoves.{IsBehind, four_by, with_move};
ghost use Rattle.successor_sums.specs.Unpacked.{HasRowAndColumn, but, is_left_out};

use crate::by_moves::ByMoves;
use board::{Move, Shape};

/// Finds the cells to which the blank can go from a cell, except by a move that is left out, if any
/// is. (Exits that are handed back would be copied, right behind the writes of their single bytes.)
#[inline(always)]
pub fn find_exits(shape: Shape, blank: usize, left_out: Option<Move>, exits: &mut ByMoves<usize>)
    requires { blank < cell_count shape }
    ensures { exits.new ≡ four_by (but left_out (λ m. neighbour shape m blank)) }
{
    let from = place_of(shape, blank);
    exits.clear();
    put_exit(exits, &from, left_out, Move::U);
    put_exit(exits, &from, left_out, Move::L);
    put_exit(exits, &from, left_out, Move::R);
    put_exit(exits, &from, left_out, Move::D);
}

// A cell of a board, with its row and its column, which are found once for all four moves.
#[derive(Drop)]
struct Place {
    shape: Shape,
    cell: usize,
    row: usize,
    column: usize,
}

// The place of a cell. To divide by a number that the compiler knows is much faster than by one
// that it doesn't.
#[inline(always)]
fn place_of(shape: Shape, cell: usize) -> Place
    ensures shape { result.shape ≡ shape }
    ensures cell { result.cell ≡ cell }
    ensures row { result.row ≡ row_of shape cell }
    ensures column { result.column ≡ column_of shape cell }
{
    let _ = shape.cells();
    let (row, column) = match shape.cols() {
        2 => (cell / 2, cell % 2),
        3 => (cell / 3, cell % 3),
        4 => (cell / 4, cell % 4),
        _ => (cell / 5, cell % 5),
    };
    Place {
        shape,
        cell,
        row,
        column,
    }
}

// Puts the cell to which a move leads, unless it is left out or leads off the board. Processors
// often mispredict which moves do, so nothing here depends on a prediction.
#[inline(always)]
fn put_exit(exits: &mut ByMoves<usize>, from: &Place, left_out: Option<Move>, direction: Move)
    requires placed { HasRowAndColumn from.now }
    requires behind { IsBehind exits.old direction }
    ensures { exits.new ≡ with_move exits.old direction
        (but left_out (λ m. neighbour from.now.shape m from.now.cell) direction) }
{
    let to = next_cell(from, direction);
    let is_there = to.is_some() & !leaves_out(left_out, direction);
    exits.put_if(direction, to.unwrap_or(0), is_there);
}

// The cell one row or column further, where there is one.
#[inline(always)]
fn next_cell(from: &Place, direction: Move) -> Option<usize>
    requires { HasRowAndColumn from.now }
    ensures { result ≡ neighbour from.now.shape direction from.now.cell }
{
    let rows = from.shape.rows() as usize;
    let cols = from.shape.cols() as usize;
    match direction {
        Move::U if from.row == 0 => None,
        Move::U => Some(from.cell - cols),
        Move::L if from.column == 0 => None,
        Move::L => Some(from.cell - 1),
        Move::R if from.column + 1 == cols => None,
        Move::R => Some(from.cell + 1),
        Move::D if from.row + 1 == rows => None,
        Move::D => Some(from.cell + cols),
    }
}

// Whether a move is the one that is left out.
fn leaves_out(left_out: Option<Move>, direction: Move) -> bool
    ensures { result ≡ is_left_out left_out direction }
{
    let Some(back) = left_out else {
        return false;
    };
    back == direction
}
