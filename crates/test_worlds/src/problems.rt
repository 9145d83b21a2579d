//! What is asked of workers, how boards are divided among them, and what they answer.

ghost use Rattle.std.specs.Prelude.{◌≡◌, IfSome};

use board::{Board, Shape, Weights};
use lower_bound::Bound;
use outcomes::Cause;
use owners::Spread;
use search_keys::KeyedBoard;

/// A board, the goal, what moves cost, and how many boards may be expanded.
#[derive(Clone, Copy)]
pub struct Problem {
    pub start: Board,
    pub goal: Board,
    pub weights: Weights,
    pub limit: u64,
}

/// A board of 3 by 3 that is as far from Korf's goal as one can be: 31 moves.
pub const FAR_START: [u8; 9] = [8, 0, 6, 5, 4, 7, 2, 3, 1];

/// The groups whose tables guide some of the runs.
pub const FAR_GROUPS: [&[u8]; 2] = [&[1, 2, 3, 4], &[5, 6, 7, 8]];

/// The problem from the board to Korf's goal at unit cost, with at most this many expansions.
pub fn far_problem(limit: u64) -> Option<Problem>
    ensures { IfSome result (λ problem. problem.weights.grid ≡ problem.goal.grid) }
{
    let shape = Shape::new(3, 3).ok()?;
    Some(Problem {
        start: Board::from_tiles(shape, &FAR_START).ok()?,
        goal: Board::goal(shape),
        weights: Weights::unit(shape),
        limit,
    })
}

/// What a worker is lent of its task: a goal, the weights, and the bound that guides the search.
#[derive(Drop)]
pub struct Job {
    pub goal: Board,
    pub weights: Weights,
    pub bound: Bound,
}

/// How boards are divided among workers.
#[derive(Clone, Copy)]
pub enum Division {
    /// By the blank's cell.
    ByBlank,
    /// By the hash of the whole board.
    ByHash,
    /// By the hash of every fourth tile.
    ByTiles,
    /// By whether the blank is in the last row: by no hash modulo the number of workers.
    ByRow,
}

impl Division {
    /// By a hash: the ways that the program offers.
    pub const HASHED: [Division; 3] = [Division::ByBlank, Division::ByHash, Division::ByTiles];

    /// Each way.
    pub const ALL: [Division; 4] = [
        Division::ByBlank,
        Division::ByHash,
        Division::ByTiles,
        Division::ByRow,
    ];

    /// The word for it.
    pub fn word(self) -> &'static str {
        match self {
            Division::ByBlank => "blank",
            Division::ByHash => "hash",
            Division::ByTiles => "tiles",
            Division::ByRow => "row",
        }
    }
}

/// How many workers share a problem, and how.
#[derive(Clone, Copy)]
pub struct Team {
    pub workers: usize,
    pub division: Division,
}

/// What a run answers.
#[derive(Clone, Copy, Debug, PartialEq, Eq)]
pub enum Answer {
    /// A least plan of this cost.
    Plan(u32),
    /// There is no plan.
    NoPlan,
    /// No plan costs less than this, and why no more was found.
    Bound(u32, Cause),
    /// A plan or a bound whose certificate the checker refuses.
    Refused,
    /// A bound without rows, though memory is not its cause.
    NoRows,
    /// Memory was refused before the first step, or for the certificate.
    NoMemory,
    /// The parts of the problem are not of one shape, or the workers are not from 1 to 16.
    Invalid,
}

/// Owners that no hash modulo the number of workers gives. The worker in the middle owns the boards
/// whose blank is in the last row. Worker 0 owns all others.
#[derive(Clone, Copy, Debug)]
pub struct ByRow;

impl Spread for ByRow {
    ghost use Rattle.test_worlds.specs.Rows.{owner_by_row, owner_by_row-lt};

    ghost owner_of = { λ s. owner_by_row };

    ghost owners_are_workers = { λ s. owner_by_row-lt };

    fn owner(&self, board: &Board, workers: usize) -> usize {
        let shape = board.shape();
        let is_above = board.blank() + (shape.cols() as usize) < shape.cells();
        if is_above { 0 } else { workers / 2 }
    }

    fn hash(&self, _board: &KeyedBoard) -> Option<u64> {
        None
    }
}
