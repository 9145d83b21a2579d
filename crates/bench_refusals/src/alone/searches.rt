//! Boards that are solved.

ghost use Rattle.std.specs.Prelude.{◌≡◌, [], IfSome};
ghost use Rattle.board.specs.Boards.{goal_of};
ghost use Rattle.batch_runs.specs.Setups.{Guides};
ghost use Rattle.lower_bound.specs.Tables.{ArePotentials};

use super::{Answer, refused_if, whole_if};
use board::{Board, Move, Shape, Weights, follow};
use hda_run::{Free, Job, solve_one};
use lower_bound::Bound;
use memory::copy_of;
use outcomes::{Cause, Outcome, Want, Why};
use owners::ByBlank;
use pattern_index::{Group, Partition};
use std::alloc::Global;
use std::thread::Threads;
use table_sets::build_bound;

/// Makes the call of this name, or answers None where it is none of these.
pub fn call<R: Threads + AllocGlobal + Sync>(rt: &R, name: &str) -> Option<Answer> {
    match name {
        "unit-2x2" => Some(search(rt.alloc(), 2, &[3, 2, 1, 0], false, Some(6))),
        "face-2x2" => Some(search(rt.alloc(), 2, &[3, 2, 1, 0], true, Some(12))),
        "unit-2x3" => Some(search(rt.alloc(), 3, &[2, 3, 5, 0, 1, 4], false, Some(9))),
        "face-2x3" => Some(search(rt.alloc(), 3, &[2, 3, 5, 0, 1, 4], true, Some(22))),
        "with-tables" => Some(search_with_tables(rt)),
        "no-plan" => Some(search(rt.alloc(), 2, &[0, 2, 1, 3], false, None)),
        _ => None,
    }
}

// Solves a board of two rows for Korf's goal, at face cost or else at unit cost. The cost of its
// least plan is known, or None is given for a board of another class.
fn search(alloc: Global, cols: u8, tiles: &[u8], at_face_cost: bool, least: Option<u32>) -> Answer {
    let Ok(shape) = Shape::new(2, cols) else {
        return Answer::Wrong("no shape");
    };
    let Ok(start) = Board::from_tiles(shape, tiles) else {
        return Answer::Wrong("no board");
    };
    let weights = if at_face_cost {
        Weights::face(shape)
    } else {
        Weights::unit(shape)
    };
    let bound = no_tables(alloc, shape);
    solve(alloc, &start, &weights, &bound, least)
}

// Solves a board of 2 by 2 at face cost, with tables that are built before.
fn search_with_tables<R: Threads + AllocGlobal + Sync>(rt: &R) -> Answer {
    let alloc = rt.alloc();
    let shape = Shape::new(2, 2).unwrap();
    let weights = Weights::face(shape);
    let Ok(start) = Board::from_tiles(shape, &[3, 2, 1, 0]) else {
        return Answer::Wrong("no board");
    };
    match bound_of(rt, alloc, &Board::goal(shape), &weights) {
        Some(bound) => solve(alloc, &start, &weights, &bound, Some(12)),
        None => Answer::Refused,
    }
}

/// The bound of no group, whose sums are 0. It takes no memory.
pub fn no_tables(alloc: Global, shape: Shape) -> Bound
    ensures { (result.lookups ≡ []) × (result.folds ≡ []) }
{
    let partition = Partition::new(shape, Vec::new(alloc)).unwrap();
    Bound::new(partition, Vec::new(alloc)).unwrap()
}

/// The tables of the groups 1,2 and 3 of 2 by 2, or None where they find no memory.
pub fn bound_of<R: Threads + Sync>(
    rt: &R,
    alloc: Global,
    goal: &Board,
    weights: &Weights,
) -> Option<Bound>
    requires { weights.now.grid ≡ goal.now.grid }
    ensures { IfSome result (λ bound. Guides goal.now weights.now bound) }
{
    let shape = goal.shape();
    let first = Group::new(shape, &[1, 2]).ok()?;
    let second = Group::new(shape, &[3]).ok()?;
    let groups = copy_of(alloc, &[first, second]).ok()?;
    let partition = Partition::new(shape, groups).ok()?;
    build_bound(rt, alloc, partition, goal, weights).ok()
}

// Solves a board for Korf's goal.
fn solve(
    alloc: Global,
    start: &Board,
    weights: &Weights,
    bound: &Bound,
    least: Option<u32>,
) -> Answer
    requires sides { weights.now.grid ≡ start.now.grid }
    requires tables { ArePotentials weights.now (goal_of start.now.grid) bound.now }
{
    let goal = Board::goal(start.shape());
    let Ok(job) = Job::new(*start, goal, *weights, bound, u64::MAX) else {
        return Answer::Wrong("no job");
    };
    match solve_one(alloc, job, &ByBlank, &Free) {
        Ok(outcome) => judge(&outcome, start, weights, least),
        Err(_) => Answer::Refused,
    }
}

/// Judges an outcome. Where memory was refused it is a bound, which is no higher than the least
/// cost, with no plan or one that costs more than the bound, and with rows or without.
pub fn judge(outcome: &Outcome, start: &Board, weights: &Weights, least: Option<u32>) -> Answer
    requires { weights.now.grid ≡ start.now.grid }
{
    match outcome {
        Outcome::Optimal { cost, plan, .. } => whole_if(
            least == Some(*cost) && leads(start, plan, weights, *cost),
            "no plan of least cost",
        ),
        Outcome::Unsolvable { why } => whole_if(
            least.is_none() && *why == Why::Parity,
            "no plan is said to be",
        ),
        Outcome::Bounded {
            bound,
            best,
            cause,
            ..
        } => {
            let is_bound = *bound <= least.unwrap_or(u32::MAX);
            let is_best = match best {
                Some((cost, plan)) => {
                    least.is_some() && bound < cost && leads(start, plan, weights, *cost)
                }
                None => true,
            };
            refused_if(
                is_bound && is_best && matches!(cause, Cause::Memory(Want::Refused(_))),
                "a wrong bound",
            )
        }
    }
}

// Whether a plan leads from a board to Korf's goal at a cost.
fn leads(start: &Board, plan: &[Move], weights: &Weights, cost: u32) -> bool
    requires { weights.now.grid ≡ start.now.grid }
{
    match follow(start, plan, weights) {
        Ok(end) => end.0 == Board::goal(start.shape()) && end.1 == u128::from(cost),
        Err(_) => false,
    }
}
