//! Search keys on long walks, compared with the boards that these lead to.

ghost use Rattle.std.specs.Prelude.{◌≡◌};

use crate::fixtures::shape_of;
use board::{Board, Move, Weights};
use pattern_index::cells_of;
use search_keys::KeyedBoard;
use std::process::Abort;

// Shapes on both sides of the one at which a digit gets a bit more.
const SHAPES: [(u8, u8); 6] = [(2, 2), (2, 5), (3, 3), (4, 4), (4, 5), (5, 5)];

// Whether the cells of two tiles are the digits behind the blank's, where a digit has four bits.
fn are_digits(keyed: &KeyedBoard) -> bool {
    let cells = keyed.shape().cells();
    if cells > 16 || cells < 3 {
        return true;
    }
    keyed.digits(1, 2) == keyed.cell(1) + 16 * keyed.cell(2)
}

// Whether each number of a board is found by its cell, and each cell by its number.
fn are_found(keyed: &KeyedBoard, board: &Board) -> bool
    requires { keyed.now ≡ board.now }
{
    'cells: for (cell, number) in board.tiles().iter().enumerate() {
        if keyed.number_on(cell) != *number || keyed.cell(*number) != cell {
            return false;
        }
    }
    if keyed.cells() != cells_of(board) || !are_digits(keyed) {
        return false;
    }
    *keyed == KeyedBoard::new(board) && keyed.blank() == board.blank() && keyed.board() == *board
}

// The board after a move, where the blank stays on it. The key that was made by the move is the one
// that is made of that board.
fn after(rt: &impl Abort, board: &Board, direction: Move) -> Option<Board> {
    let to = board.shape().neighbour(board.blank(), direction)?;
    let keyed = KeyedBoard::new(board);
    let slid = keyed.slide(to);
    let (next, _) = board.step(direction, &Weights::unit(board.shape()))?;
    assert!(rt; keyed != KeyedBoard::new(&next));
    assert!(rt; slid.tile == next.tile(board.blank()));
    assert!(rt; slid.key == KeyedBoard::new(&next).key());
    Some(next)
}

#[test]
fn keys_on_walks(rt: HostRuntime) {
    for (rows, cols) in SHAPES {
        let mut board = Board::goal(shape_of(&rt, rows, cols));
        let mut state: u64 = 1;
        'steps: for _ in 0..500 {
            state = state
                .wrapping_mul(6_364_136_223_846_793_005)
                .wrapping_add(1_442_695_040_888_963_407);
            let direction = Move::ALL[(state >> 62) as usize];
            if let Some(next) = after(&rt, &board, direction) {
                board = next;
            }
            assert!(rt; are_found(&KeyedBoard::new(&board), &board));
        }
    }
}

#[test]
fn keys_where_no_board_was_put(rt: HostRuntime) {
    assert!(rt; KeyedBoard::default() == KeyedBoard::new(&Board::default()));
    assert!(rt; KeyedBoard::default() != KeyedBoard::new(&Board::goal(shape_of(&rt, 2, 3))));
}
