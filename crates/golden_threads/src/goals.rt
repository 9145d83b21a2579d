//! Goals that are near.

ghost use Rattle.lower_bound.specs.Tables.{ArePotentials};

use crate::costs::finds_cost;
use board::{Board, Move, Shape, Weights};
use lower_bound::Bound;
use memory::push;
use std::alloc::Global;
use std::io::{self, ErrorKind, Print};
use std::sync::Wait;
use std::thread::Threads;
use test_worlds::{Division, Problem, Team, bound_of};

// The blank is in a corner, on a side, and in the middle.
static STARTS: [[u8; 9]; 3] = [
    [0, 1, 2, 3, 4, 5, 6, 7, 8],
    [1, 0, 2, 3, 4, 5, 6, 7, 8],
    [1, 2, 3, 4, 0, 5, 6, 7, 8],
];

// The most moves that a goal is away.
const FARTHEST: u32 = 3;

// How many workers go there at most.
const MOST_WORKERS: usize = 16;

// How many goals there are, how many runs, and how many of these find the least cost, with rows that
// the checker accepts and without rows.
#[derive(Clone, Copy)]
struct Count {
    goals: u64,
    runs: u64,
    right: u64,
}

/// Prints of how many goals up to three moves away 2 to 16 workers find the cost, by each spread.
pub fn print_counts<R: Threads + Wait + Print + AllocGlobal + Sync>(rt: &R) -> io::Result<()> {
    println!(rt; "# Goals 1 to {FARTHEST} moves away at unit cost, workers 2 to {MOST_WORKERS}")?;
    for tiles in &STARTS {
        print_count(rt, tiles)?;
    }
    Ok(())
}

fn print_count<R: Threads + Wait + Print + AllocGlobal + Sync>(
    rt: &R,
    tiles: &[u8],
) -> io::Result<()> {
    match count_goals(rt, rt.alloc(), tiles) {
        Some(count) => print_found(rt, tiles, count),
        None => Err(ErrorKind::OutOfMemory.into()),
    }
}

fn print_found(rt: &impl Print, tiles: &[u8], count: Count) -> io::Result<()> {
    let Count { goals, runs, right } = count;
    println!(rt; "{tiles:?}: {goals} goals, {right} of {runs} costs are the least")
}

// Counts the goals and the runs, or None where memory was refused.
fn count_goals<R: Threads + Wait + Sync>(rt: &R, alloc: Global, tiles: &[u8]) -> Option<Count> {
    let shape = Shape::new(3, 3).ok()?;
    let start = Board::from_tiles(shape, tiles).ok()?;
    let boards = boards_near(alloc, start)?;
    count_boards(rt, alloc, start, boards.as_slice())
}

// Counts the goals among boards with the fewest moves that lead there, and the runs.
fn count_boards<R: Threads + Wait + Sync>(
    rt: &R,
    alloc: Global,
    start: Board,
    boards: &[(Board, u32)],
) -> Option<Count> {
    let mut count = Count {
        goals: 0,
        runs: 0,
        right: 0,
    };
    for (goal, cost) in boards {
        if *cost != 0 {
            count.goals = count.goals.saturating_add(1);
            count_goal(&mut count, rt, alloc, start, *goal, *cost)?;
        }
    }
    Some(count)
}

// Counts the runs to a goal that is this many moves away.
fn count_goal<R: Threads + Wait + Sync>(
    count: &mut Count,
    rt: &R,
    alloc: Global,
    start: Board,
    goal: Board,
    cost: u32,
) -> Option<()> {
    let problem = Problem {
        start,
        goal,
        weights: Weights::unit(goal.shape()),
        limit: u64::MAX,
    };
    let bound = bound_of(alloc, &problem.goal, &problem.weights, &[])?;
    count_teams(count, rt, alloc, &problem, &bound, cost);
    Some(())
}

// Counts the runs of each team for a problem whose least plan has this cost.
fn count_teams<R: Threads + Wait + Sync>(
    count: &mut Count,
    rt: &R,
    alloc: Global,
    problem: &Problem,
    bound: &Bound,
    cost: u32,
)
    requires { ArePotentials problem.now.weights problem.now.goal bound.now }
{
    for workers in 2..MOST_WORKERS + 1 {
        for division in &Division::HASHED {
            let team = Team {
                workers,
                division: *division,
            };
            count.runs = count.runs.saturating_add(1);
            if finds_cost(rt, alloc, problem, bound, team, cost) {
                count.right = count.right.saturating_add(1);
            }
        }
    }
}

// The boards up to `FARTHEST` moves away, each with the fewest moves that lead there: first the
// start itself, and then round by round those that were not met before. None where memory was
// refused.
fn boards_near(alloc: Global, start: Board) -> Option<Vec<(Board, u32)>> {
    let mut met = Vec::new(alloc);
    push(&mut met, (start, 0)).ok()?;
    for cost in 1..FARTHEST + 1 {
        let round = round_of(alloc, met.as_slice(), cost)?;
        push_new(&mut met, round.as_slice(), cost)?;
    }
    Some(met)
}

// Adds the boards of a round that were not met before.
fn push_new(met: &mut Vec<(Board, u32)>, round: &[Board], cost: u32) -> Option<()> {
    for board in round {
        if !has(met.as_slice(), board) {
            push(met, (*board, cost)).ok()?;
        }
    }
    Some(())
}

// The boards one move away from those that were met in the round before.
fn round_of(alloc: Global, met: &[(Board, u32)], cost: u32) -> Option<Vec<Board>> {
    let mut round = Vec::new(alloc);
    for (board, before) in met {
        if before.saturating_add(1) == cost {
            push_successors(&mut round, board)?;
        }
    }
    Some(round)
}

fn push_successors(round: &mut Vec<Board>, board: &Board) -> Option<()> {
    for direction in Move::ALL {
        if let Some((next, _)) = board.step(direction, &Weights::unit(board.shape())) {
            push(round, next).ok()?;
        }
    }
    Some(())
}

// Whether a board was met.
fn has(met: &[(Board, u32)], board: &Board) -> bool {
    for (known, _) in met {
        if known.key() == board.key() {
            return true;
        }
    }
    false
}
