//! The values of a board's groups, one by one, by folded tables of one tile each.

ghost use Rattle.std.specs.Prelude.{◌≡◌, [], IfSome};
ghost use Rattle.lower_bound.specs.Folded.{values_of};
ghost use Rattle.lower_bound.specs.Tables.{parts_of};

use crate::fixtures::{board_of, shape_of};
use crate::sums::{HARDEST, SINGLES, bound_of};
use board::{Board, Move, Weights};
use lower_bound::laws::moves_move_one_tile;
use lower_bound::{Bound, Parts};
use std::process::Abort;

// The board after a move, and its values, made of those of the board before.
fn moved(
    bound: &Bound,
    before: &Board,
    parts: &Parts,
    direction: Move,
    weights: &Weights,
) -> Option<(Board, Parts)>
    requires weights { weights.now.grid ≡ before.now.grid }
    requires grid { before.now.grid ≡ bound.now.split.grid }
    requires folded { bound.now.lookups ≡ [] }
    requires parts { parts.now ≡ values_of (parts_of bound.now) before.now }
    ensures { IfSome result (λ moved. moved.0.grid ≡ before.now.grid) }
{
    // The contracts of these calls say what holds of each board, and that a move moves one tile.
    let _ = before.shape();
    moves_move_one_tile();
    let (board, _) = before.step(direction, weights)?;
    let tile = before.tile(board.blank());
    Some((board, bound.parts_after(parts, &board, tile)))
}

// Whether the values of a board add up to this sum, and those of the goal to 0. After each move,
// the values have to add up to the sum of the values that are looked up anew.
fn have_sum(bound: &Bound, goal: &Board, start: &Board, weights: &Weights, sum: u32) -> bool
    requires folded { bound.now.lookups ≡ [] }
    requires grid { goal.now.grid ≡ bound.now.split.grid }
    requires start { start.now.grid ≡ goal.now.grid }
    requires weights { weights.now.grid ≡ goal.now.grid }
{
    let parts = bound.parts(start);
    for direction in Move::ALL {
        if let Some((board, after)) = moved(bound, start, &parts, direction, weights) {
            if after.sum() != bound.parts(&board).sum() {
                return false;
            }
            if after.sum() != bound.of(&board) {
                return false;
            }
        }
    }
    parts.sum() == sum && bound.parts(goal).sum() == 0
}

// Whether the hardest board has this sum at these weights, by folded tables.
fn has_sum_of_the_hardest(rt: &(impl Abort + AllocGlobal), weights: &Weights, sum: u32) -> bool {
    let goal = Board::goal(weights.shape());
    let start = board_of(rt, weights.shape(), &HARDEST);
    let bound = bound_of(rt, &goal, weights, &SINGLES);
    let folded = bound.folded(rt.alloc()).expect(rt, "memory");
    have_sum(&folded, &goal, &start, weights, sum)
}

// The distances of the tiles from their cells are 21 at unit cost, and 97 at face cost.
#[test]
fn sums_of_the_hardest_board(rt: HostRuntime) {
    let shape = shape_of(&rt, 3, 3);
    assert!(rt; has_sum_of_the_hardest(&rt, &Weights::unit(shape), 21));
    assert!(rt; has_sum_of_the_hardest(&rt, &Weights::face(shape), 97));
}
