//! Lists of boards, line by line.

ghost use Rattle.std.specs.Prelude.{◌≡◌, ◌≤◌, ◌<◌, ◌⊎◌, true};
ghost use Rattle.board.specs.Shapes.{ShapeModel, IsShape, cell_count};
ghost use Rattle.byte_streams.specs.Streams.{change};
ghost use Rattle.pattern_index.specs.Ranks.{ways};
ghost use Rattle.board_lists.specs.Classes.{IsOfClass, AreBoardsWith, AreWholeClass};
ghost use Rattle.board_lists.specs.Walks.{IsWalked};
ghost use Rattle.board_lists.specs.Lists.{ListsBoards};
ghost use Rattle.board_lists.specs.Classes.{board_at};

use crate::draws::draw_board;
use crate::lines::put_line;
use crate::walks::walk;
use board::{Board, Shape, same_class};
use byte_streams::{Sink, WriteFailed};
use pattern_index::list_cells;
use rand_core::SeedableRng;
use rand_xoshiro::Xoshiro256PlusPlus;

/// The most cells of a shape whose classes are listed whole: 9, or 181,440 boards.
pub const MOST_CELLS: usize = 9;

/// Writes the lines of `count` boards, drawn uniformly from the goal's class, and flushes the sink.
pub(crate) fn list_drawn<K: Sink>(
    sink: &mut K,
    goal: &Board,
    count: u64,
    seed: u64,
) -> Result<(), WriteFailed>
    ensures lists { ListsBoards (AreBoardsWith (IsOfClass goal.now) count)
        (change K.state sink.old sink.new) result }
    ensures flushed { K.is_flushed sink.new ⊎ ((K.state sink.new).has_failed ≡ true) }
{
    let mut generator = Xoshiro256PlusPlus::seed_from_u64(seed);
    'boards: for place in 0..count {
        let board = draw_board(&mut generator, goal);
        let Ok(()) = put_line(sink, place + 1, &board) else {
            return Err(WriteFailed);
        };
    }
    sink.flush()
}

/// Writes the lines of `count` boards, each reached from the goal by a walk of `moves` moves, and
/// flushes the sink.
pub(crate) fn list_walked<K: Sink>(
    sink: &mut K,
    goal: &Board,
    moves: u64,
    count: u64,
    seed: u64,
) -> Result<(), WriteFailed>
    ensures lists { ListsBoards (AreBoardsWith (IsWalked goal.now moves) count)
        (change K.state sink.old sink.new) result }
    ensures flushed { K.is_flushed sink.new ⊎ ((K.state sink.new).has_failed ≡ true) }
{
    let mut generator = Xoshiro256PlusPlus::seed_from_u64(seed);
    'boards: for place in 0..count {
        let board = walk(&mut generator, goal, moves);
        let Ok(()) = put_line(sink, place + 1, &board) else {
            return Err(WriteFailed);
        };
    }
    sink.flush()
}

/// Writes the lines of all boards of the goal's class, in rising order of key, and flushes the
/// sink.
pub(crate) fn list_class<K: Sink>(sink: &mut K, goal: &Board) -> Result<(), WriteFailed>
    requires { cell_count goal.now.grid ≤ MOST_CELLS }
    ensures lists { ListsBoards (AreWholeClass goal.now)
        (change K.state sink.old sink.new) result }
    ensures flushed { K.is_flushed sink.new ⊎ ((K.state sink.new).has_failed ≡ true) }
{
    let shape = goal.shape();
    let mut count = 0;
    'places: for place in 0..count_orders(shape.cells()) {
        let board = board_at(shape, place);
        if same_class(&board, goal) {
            count += 1;
            let Ok(()) = put_line(sink, count, &board) else {
                return Err(WriteFailed);
            };
        }
    }
    sink.flush()
}

// The board whose tiles have a place in lexicographic order.
fn board_at(shape: Shape, place: usize) -> Board
    requires { place < ways (cell_count shape) (cell_count shape) }
    ensures { result ≡ board_at shape place }
{
    let cells = shape.cells();
    let mut tiles = [0; 25];
    list_cells(cells, place, &mut tiles[..cells]);
    Board::from_tiles(shape, &tiles[..cells]).unwrap()
}

#[tactic(auto, unfolding(pattern_index::specs::Ranks::ways))]
// In how many orders `cells` numbers can be listed.
fn count_orders(cells: usize) -> usize
    requires { cells ≤ MOST_CELLS }
    ensures orders { result ≡ ways cells cells }
    ensures few { result ≤ 362_880 }
{
    match cells {
        0 | 1 => 1,
        2 => 2,
        3 => 6,
        4 => 24,
        5 => 120,
        6 => 720,
        7 => 5_040,
        8 => 40_320,
        _ => 362_880,
    }
}
