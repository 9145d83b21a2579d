//! Walks over boards, and the pseudo-random numbers of all kernels.

ghost use Rattle.std.specs.Prelude.{◌≡◌, ◌≤◌, ◌*◌};

use board::{Board, Move, Shape, Weights};

/// Where a walk is, how many of its moves stayed on the board, and what these cost.
#[derive(Clone, Copy)]
pub struct Walk {
    pub board: Board,
    pub accepted: u32,
    pub cost: u64,
}

/// The walk of this many moves from the goal of a shape, where moving a tile costs its number. A
/// move that would leave the board is passed over.
pub fn walk_from_goal(shape: Shape, steps: u32) -> Walk
    ensures accepted { result.accepted ≤ steps }
    ensures cost { result.cost ≤ 255 * result.accepted }
{
    let weights = Weights::face(shape);
    let mut walk = Walk {
        board: Board::goal(shape),
        accepted: 0,
        cost: 0,
    };
    let mut state = 1;
    'steps: for _ in 0..steps {
        state = next_state(state);
        if let Some(moved) = walk.board.step(direction_of(state), &weights) {
            walk.board = moved.0;
            walk.accepted += 1;
            walk.cost += moved.1 as u64;
        }
    }
    walk
}

// The move that the two highest bits of a state encode. The lower bits of such states repeat
// sooner.
fn direction_of(state: u64) -> Move {
    match state >> 62 {
        0 => Move::U,
        1 => Move::L,
        2 => Move::R,
        _ => Move::D,
    }
}

/// The next pseudo-random number: the next state of a linear congruential generator modulo 2^64
/// (Knuth's MMIX).
pub fn next_state(state: u64) -> u64 {
    state
        .wrapping_mul(6364136223846793005)
        .wrapping_add(1442695040888963407)
}
