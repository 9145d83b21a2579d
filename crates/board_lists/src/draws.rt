//! Boards drawn at random.

ghost use Rattle.std.specs.Prelude.{◌≡◌, ◌≤◌, length, take};
ghost use Rattle.board.specs.Shapes.{cell_count};
ghost use Rattle.board.specs.Boards.{BoardModel, IsBoard};
ghost use Rattle.board.specs.Classes.{SameClass};
ghost use Rattle.board_lists.specs.Classes.{IsOfClass};
ghost use Rattle.board_lists.specs.Classes.{in_other_class};

use board::{Board, same_class};
use rand::seq::SliceRandom;
use rand_xoshiro::Xoshiro256PlusPlus;

/// A board of the goal's class, drawn uniformly.
///
/// All tiles are shuffled. A board of the other class gets two of its tiles exchanged: that is one
/// board of the goal's class for each board of the other.
pub(crate) fn draw_board(generator: &mut Xoshiro256PlusPlus, goal: &Board) -> Board
    ensures { IsOfClass goal.now result }
{
    let board = shuffle_tiles(generator, goal);
    if same_class(&board, goal) {
        return board;
    }
    turn(&board)
}

// A board of the same shape with the tiles in any order.
fn shuffle_tiles(generator: &mut Xoshiro256PlusPlus, goal: &Board) -> Board
    ensures grid { result.grid ≡ goal.now.grid }
    ensures board { IsBoard result }
{
    let shape = goal.shape();
    let cells = shape.cells();
    let mut tiles = tiles_of(goal);
    tiles[..cells].shuffle(generator);
    Board::from_tiles(shape, &tiles[..cells]).unwrap()
}

// The board with two tiles exchanged: it is in the other class.
fn turn(board: &Board) -> Board
    ensures grid { result.grid ≡ board.now.grid }
    ensures board { IsBoard result }
    ensures class { (q : BoardModel) → ¬ SameClass board.now q → SameClass result q }
{
    let shape = board.shape();
    let cells = shape.cells();
    let mut tiles = tiles_of(board);
    exchange(&mut tiles[..cells]);
    Board::from_tiles(shape, &tiles[..cells]).unwrap()
}

// Exchanges the first two tiles, or the next two where the blank is one of these.
fn exchange(tiles: &mut [u8])
    requires { 4 ≤ length tiles.old }
    ensures { tiles.new ≡ in_other_class tiles.old }
{
    if tiles[0] == 0 || tiles[1] == 0 {
        tiles.swap(2, 3);
    } else {
        tiles.swap(0, 1);
    }
}

// The tiles of a board, with zeros behind them.
fn tiles_of(board: &Board) -> [u8; 25]
    ensures { take (cell_count board.now.grid) result ≡ board.now.tiles }
{
    let mut tiles = [0; 25];
    tiles[..board.tiles().len()].copy_from_slice(board.tiles());
    tiles
}
