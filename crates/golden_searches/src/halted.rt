//! What a run by one worker answers that is halted, by each cause and after each number of
//! expansions. At first it does not know the goal. After two it knows a plan, and a cheaper one may
//! be left. After three its plan is a least one.
//!
//! No memory is refused for the plan or the rows, so each answer has both. That holds where the run
//! is halted because memory was refused, too: a known plan isn't left out for that.

ghost use Rattle.std.specs.Prelude.{◌≡◌, IfSome};
ghost use Rattle.lower_bound.specs.Tables.{ArePotentials};

use board::{Board, Shape, Weights};
use hda_run::{Job, World, run_steps};
use lower_bound::Bound;
use memory::{OutOfMemory, with_capacity};
use outcomes::{Ending, Outcome, Want};
use owners::ByBlank;
use std::alloc::Global;
use std::io::{self, ErrorKind, Print};
use test_worlds::{Problem, bound_of};
use world_ends::WithoutRows;
use world_model::{HaltCause, Step};

// Two moves from Korf's goal. Of the two boards that it leads to, the one on the way to the goal is
// expanded first.
const START: [u8; 4] = [2, 1, 3, 0];

// So large that memory for 2^27 of them is refused. Only a refused allocation makes an
// `OutOfMemory`.
type TooLarge = [u64; 1 << 18];

// After this many expansions it is known that no plan is cheaper.
const MOST: u64 = 3;

/// Prints what a run answers after each number of expansions, where it is halted by each cause.
pub fn print_halted(rt: &(impl Print + AllocGlobal)) -> io::Result<()> {
    let Err(refused) = with_capacity::<TooLarge>(rt.alloc(), 1 << 27) else {
        return Err(ErrorKind::Other.into());
    };
    println!(rt; "# {START:?} at unit cost, without tables")?;
    for limit in 0..MOST + 1 {
        print_causes(rt, limit, refused)?;
    }
    Ok(())
}

// Prints what it answers after this many expansions.
fn print_causes(
    rt: &(impl Print + AllocGlobal),
    limit: u64,
    refused: OutOfMemory,
) -> io::Result<()> {
    println!(rt; "expansions {limit}")?;
    for cause in [
        HaltCause::Limit,
        HaltCause::Start,
        HaltCause::Memory(Want::Stated),
        HaltCause::Memory(Want::Refused(refused)),
    ] {
        print_halt(rt, limit, cause)?;
    }
    Ok(())
}

// Prints what it answers where it is halted by this cause.
fn print_halt(rt: &(impl Print + AllocGlobal), limit: u64, cause: HaltCause) -> io::Result<()> {
    let Some(problem) = problem_of(limit) else {
        return Err(ErrorKind::InvalidData.into());
    };
    let Some(bound) = bound_of(rt.alloc(), &problem.goal, &problem.weights, &[]) else {
        return Err(ErrorKind::OutOfMemory.into());
    };
    print_answers(rt, &problem, &bound, cause)
}

// The problem from the board to Korf's goal at unit cost, with at most this many expansions.
fn problem_of(limit: u64) -> Option<Problem>
    ensures { IfSome result (λ problem. problem.weights.grid ≡ problem.goal.grid) }
{
    let shape = Shape::new(2, 2).ok()?;
    Some(Problem {
        start: Board::from_tiles(shape, &START).ok()?,
        goal: Board::goal(shape),
        weights: Weights::unit(shape),
        limit,
    })
}

// Prints its answers with rows and without.
fn print_answers(
    rt: &(impl Print + AllocGlobal),
    problem: &Problem,
    bound: &Bound,
    cause: HaltCause,
) -> io::Result<()>
    requires { ArePotentials problem.now.weights problem.now.goal bound.now }
{
    let Some(outcome) = outcome_of(rt.alloc(), problem, bound, cause) else {
        return Err(ErrorKind::OutOfMemory.into());
    };
    let rows = row_count(&outcome);
    let with_rows = outcome.without_rows();
    println!(rt; "rows {rows:?}: {with_rows:?}")?;
    let Some(ending) = ending_of(rt.alloc(), problem, bound, cause) else {
        return Err(ErrorKind::OutOfMemory.into());
    };
    println!(rt; "without rows: {ending:?}")
}

// How many rows an outcome has, if it has any list of them.
fn row_count(outcome: &Outcome) -> Option<usize> {
    match outcome {
        Outcome::Optimal { rows, .. } => Some(rows.len()),
        Outcome::Bounded {
            rows: Some(rows),
            ..
        } => Some(rows.len()),
        _ => None,
    }
}

// What it answers with rows. None where memory was refused for its first world.
fn outcome_of(alloc: Global, problem: &Problem, bound: &Bound, cause: HaltCause) -> Option<Outcome>
    requires { ArePotentials problem.now.weights problem.now.goal bound.now }
{
    let world = world_of(alloc, problem, bound)?;
    Some(run_steps(alloc, world, &steps_to(cause)).finish(alloc))
}

// What it answers without rows.
fn ending_of(alloc: Global, problem: &Problem, bound: &Bound, cause: HaltCause) -> Option<Ending>
    requires { ArePotentials problem.now.weights problem.now.goal bound.now }
{
    let world = world_of(alloc, problem, bound)?;
    Some(run_steps(alloc, world, &steps_to(cause)).read::<WithoutRows>(alloc))
}

// The world of one worker in which it begins.
fn world_of<'a>(alloc: Global, problem: &Problem, bound: &'a Bound) -> Option<World<'a, ByBlank>>
    requires { ArePotentials problem.now.weights problem.now.goal bound.now }
{
    let Problem {
        start,
        goal,
        weights,
        limit,
    } = *problem;
    let job = Job::new(start, goal, weights, bound, limit).ok()?;
    World::new(alloc, job, 1, &ByBlank).ok()
}

// As many expansions as there may be, and then the halt.
fn steps_to(cause: HaltCause) -> [Step; 5] {
    [
        Step::Grant(0),
        Step::Expand(0),
        Step::Expand(0),
        Step::Expand(0),
        Step::Halt(0, cause),
    ]
}
