//! All boards of small shapes that a plan leads from.

ghost use Rattle.std.specs.Prelude.{◌≡◌};
ghost use Rattle.lower_bound.specs.Tables.{ArePotentials};

use board::{Board, Shape, Weights};
use hda_run::Free;
use lower_bound::Bound;
use std::alloc::Global;
use std::io::{self, ErrorKind, Print};
use std::sync::Wait;
use std::thread::Threads;
use test_support::least_costs;
use test_worlds::{
    Answer, Division, Problem, Team, answer_with_rows, answer_without_rows, bound_of,
};

// How many boards a plan leads from, and of how many of them the least cost is found, with rows that
// the checker accepts and without rows.
#[derive(Clone, Copy)]
struct Count {
    plans: u64,
    right: u64,
}

/// Prints for how many boards of 2 by 2, and of 2 by 3, each number of workers finds the least cost.
pub fn print_counts<R: Threads + Wait + Print + AllocGlobal + Sync>(rt: &R) -> io::Result<()> {
    print_shape(rt, 2, 2)?;
    print_shape(rt, 2, 3)?;
    print_shape(rt, 3, 3)
}

// Prints it of the boards of two rows and `cols` columns.
fn print_shape<R: Threads + Wait + Print + AllocGlobal + Sync>(
    rt: &R,
    cols: u8,
    workers: usize,
) -> io::Result<()> {
    let Ok(shape) = Shape::new(2, cols) else {
        return Err(ErrorKind::InvalidData.into());
    };
    println!(rt; "# All boards of 2 by {cols}, workers {workers}")?;
    for division in &Division::ALL {
        print_team(rt, shape, workers, *division)?;
    }
    rt.println("")
}

// Prints it of a team, at unit cost and at face cost.
fn print_team<R: Threads + Wait + Print + AllocGlobal + Sync>(
    rt: &R,
    shape: Shape,
    workers: usize,
    division: Division,
) -> io::Result<()> {
    let team = Team { workers, division };
    print_count(rt, "unit", Weights::unit(shape), team)?;
    print_count(rt, "face", Weights::face(shape), team)
}

fn print_count<R: Threads + Wait + Print + AllocGlobal + Sync>(
    rt: &R,
    name: &str,
    weights: Weights,
    team: Team,
) -> io::Result<()> {
    let goal = Board::goal(weights.shape());
    match count_boards(rt, rt.alloc(), goal, weights, team) {
        Some(count) => print_found(rt, name, team.division.word(), count),
        None => Err(ErrorKind::OutOfMemory.into()),
    }
}

fn print_found(rt: &impl Print, name: &str, word: &str, count: Count) -> io::Result<()> {
    let Count { plans, right } = count;
    println!(rt; "at {name} cost, by the {word}: {right} of {plans} costs are the least")
}

// Counts the boards, or None where memory was refused.
fn count_boards<R: Threads + Wait + Sync>(
    rt: &R,
    alloc: Global,
    goal: Board,
    weights: Weights,
    team: Team,
) -> Option<Count>
    requires { weights.grid ≡ goal.grid }
{
    let bound = bound_of(alloc, &goal, &weights, &[])?;
    let boards = least_costs(alloc, &goal, &weights).ok()?;
    Some(count_all(rt, alloc, goal, weights, &bound, &boards, team))
}

// Counts these boards, each with its least cost, or None where it has no plan.
fn count_all<R: Threads + Wait + Sync>(
    rt: &R,
    alloc: Global,
    goal: Board,
    weights: Weights,
    bound: &Bound,
    boards: &[(Board, Option<u32>)],
    team: Team,
) -> Count
    requires { ArePotentials weights goal bound.now }
{
    let mut count = Count { plans: 0, right: 0 };
    for (start, least) in boards {
        if let Some(cost) = least {
            let problem = Problem {
                start: *start,
                goal,
                weights,
                limit: u64::MAX,
            };
            count.plans = count.plans.saturating_add(1);
            if finds_cost(rt, alloc, &problem, bound, team, *cost) {
                count.right = count.right.saturating_add(1);
            }
        }
    }
    count
}

/// Whether a team finds this cost of a problem, with rows that the checker accepts and without rows.
pub fn finds_cost<R: Threads + Wait + Sync>(
    rt: &R,
    alloc: Global,
    problem: &Problem,
    bound: &Bound,
    team: Team,
    cost: u32,
) -> bool
    requires { ArePotentials problem.now.weights problem.now.goal bound.now }
{
    let due = Answer::Plan(cost);
    let with_rows = answer_with_rows(rt, alloc, problem, bound, team, &Free);
    let without_rows = answer_without_rows(rt, alloc, problem, bound, team, &Free);
    with_rows == due && without_rows == due
}
