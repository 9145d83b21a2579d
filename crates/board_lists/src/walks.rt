//! Walks from a goal.

ghost use Rattle.std.specs.Prelude.{◌≡◌, IsPermutation, true};
ghost use Rattle.board.specs.Boards.{IsBoard};
ghost use Rattle.board.specs.Moves.{all_moves};
ghost use Rattle.board_lists.specs.Walks.{IsWalkedTo};
ghost use Rattle.board_lists.specs.Walks.{leads_on, takes_back};

use board::{Board, Move, Weights};
use rand::seq::SliceRandom;
use rand_xoshiro::Xoshiro256PlusPlus;

/// The board that a walk of `moves` moves from the goal reaches. Each move is drawn among those
/// that don't take back the one before.
pub(crate) fn walk(generator: &mut Xoshiro256PlusPlus, goal: &Board, moves: u64) -> Board
    ensures walked { IsWalkedTo goal.now moves result }
    ensures goal { IsBoard goal.now }
{
    let weights = Weights::unit(goal.shape());
    let mut board = *goal;
    let mut last = None;
    'moves: for _ in 0..moves {
        let direction = draw_move(generator, &board, last);
        board = board.step(direction, &weights).unwrap().0;
        last = Some(direction);
    }
    board
}

// A move that leads on from the board: the first that does of the four moves in any order.
fn draw_move(generator: &mut Xoshiro256PlusPlus, board: &Board, last: Option<Move>) -> Move
    ensures { leads_on board.now last result ≡ true }
{
    let mut order = Move::ALL;
    order.shuffle(generator);
    first_onward(board, last, order)
}

// The first of the moves that leads on from the board. At least one does: a vertical move stays on
// the board and so does a horizontal one, and only one of them takes the last move back.
fn first_onward(board: &Board, last: Option<Move>, order: [Move; 4]) -> Move
    requires { IsPermutation all_moves order }
    ensures { leads_on board.now last result ≡ true }
{
    if is_onward(board, last, order[0]) {
        return order[0];
    }
    if is_onward(board, last, order[1]) {
        return order[1];
    }
    if is_onward(board, last, order[2]) {
        return order[2];
    }
    order[3]
}

// Whether a move leads on from the board.
fn is_onward(board: &Board, last: Option<Move>, direction: Move) -> bool
    ensures value { result ≡ leads_on board.now last direction }
    ensures board { IsBoard board.now }
{
    let way = board.shape().neighbour(board.blank(), direction);
    way.is_some() && !takes_back(last, direction)
}

// Whether a move takes the last one back.
fn takes_back(last: Option<Move>, direction: Move) -> bool
    ensures { result ≡ takes_back last direction }
{
    match last {
        Some(before) => before == direction.undo(),
        None => false,
    }
}
