//! Plans followed.

ghost use Rattle.std.specs.Prelude.{◌≡◌, ◌↔◌, ℕ, Ok, Err};
ghost use Rattle.board.specs.Boards.{BoardModel};
ghost use Rattle.board.specs.Plans.{Leads, IsStuckAt};

use crate::boards::Board;
use crate::costs::Weights;
use crate::moves::Move;

/// Follows a plan from a board: the end and the cost, or the place of the first move by which the
/// blank would leave the board, counted from 0.
pub fn follow(start: &Board, plan: &[Move], weights: &Weights) -> Result<(Board, u128), usize>
    requires { weights.now.grid ≡ start.now.grid }
    ensures led { (b : BoardModel) (cost : ℕ) →
        (result ≡ Ok (b, cost)) ↔ Leads weights.now start.now plan.now b cost }
    ensures stuck { (place : ℕ) →
        (result ≡ Err place) ↔ IsStuckAt weights.now start.now plan.now place }
{
    let mut board = *start;
    let mut cost: u128 = 0;
    for (place, direction) in plan.iter().enumerate() {
        let Some(moved) = board.step(*direction, weights) else {
            return Err(place);
        };
        board = moved.0;
        cost += moved.1 as u128;
    }
    Ok((board, cost))
}
