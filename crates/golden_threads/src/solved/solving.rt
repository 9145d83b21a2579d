//! What one worker answers alone.

ghost use Rattle.std.specs.Prelude.{◌≡◌, IfSome};
ghost use Rattle.lower_bound.specs.Tables.{ArePotentials};

use crate::solved::cases::{Case, Costs};
use board::{Board, Move, Shape, Weights};
use hda_run::{Free, Job, read_one, solve_one};
use lower_bound::Bound;
use outcomes::{Ending, Outcome};
use owners::{Abstract, ByBlank, Spread, Zobrist};
use std::alloc::Global;
use std::io::{self, ErrorKind, Print};
use test_worlds::{ByRow, Division, Problem, Shown, bound_of};
use world_ends::WithoutRows;

// What `solve_one` answers, with the bounds that it shows, and what `read_one` answers.
#[derive(Drop)]
struct Answers {
    outcome: Outcome,
    ending: Ending,
    shown: Shown,
}

/// Prints what one worker answers: with rows by `solve_one`, and without by `read_one`.
pub fn print_answers(rt: &(impl Print + AllocGlobal), case: &Case) -> io::Result<()> {
    let start = case.start;
    println!(rt; "# {}", case.title)?;
    println!(rt; "{start:?} at {} cost", case.costs.word())?;
    print_both(rt, case, &answers_to(rt.alloc(), case))
}

fn print_both(rt: &impl Print, case: &Case, answers: &Option<Answers>) -> io::Result<()> {
    let Some(answers) = answers else {
        return Err(ErrorKind::OutOfMemory.into());
    };
    print_outcome(rt, case, &answers.outcome)?;
    print_shown(rt, &answers.shown)?;
    print_ending(rt, case, &answers.ending)?;
    rt.println("")
}

fn print_shown(rt: &impl Print, shown: &Shown) -> io::Result<()> {
    let times = shown.times();
    if times == 0 {
        return Ok(());
    }
    match shown.last() {
        0 => println!(rt; "expansions: {times}, no bound shown"),
        last => println!(rt; "expansions: {times}, the last bound shown is {last}"),
    }
}

// What both answer, or None where the case has no job, or memory was refused.
fn answers_to(alloc: Global, case: &Case) -> Option<Answers> {
    let problem = problem_of(case)?;
    let bound = bound_of(alloc, &problem.goal, &problem.weights, case.groups)?;
    answers_with(alloc, &problem, &bound, case.division)
}

// What both answer with these tables.
fn answers_with(
    alloc: Global,
    problem: &Problem,
    bound: &Bound,
    division: Division,
) -> Option<Answers>
    requires { ArePotentials problem.now.weights problem.now.goal bound.now }
{
    let shown = Shown::new();
    let outcome = solved(alloc, problem, bound, division, &shown)?;
    let ending = ended(alloc, problem, bound, division)?;
    Some(Answers {
        outcome,
        ending,
        shown,
    })
}

// The job of a case without its tables, or None where the case has no board.
fn problem_of(case: &Case) -> Option<Problem>
    ensures { IfSome result (λ problem. problem.weights.grid ≡ problem.goal.grid) }
{
    let shape = Shape::new(case.side, case.side).ok()?;
    let start = Board::from_tiles(shape, case.start).ok()?;
    Some(Problem {
        start,
        goal: Board::goal(shape),
        weights: weights_of(case.costs, shape),
        limit: case.limit,
    })
}

// What the moves of boards of this shape cost.
fn weights_of(costs: Costs, shape: Shape) -> Weights
    ensures { result.grid ≡ shape }
{
    match costs {
        Costs::Unit => Weights::unit(shape),
        Costs::Face => Weights::face(shape),
    }
}

// What `solve_one` answers.
fn solved(
    alloc: Global,
    problem: &Problem,
    bound: &Bound,
    division: Division,
    shown: &Shown,
) -> Option<Outcome>
    requires { ArePotentials problem.now.weights problem.now.goal bound.now }
{
    let job = job_of(problem, bound)?;
    match division {
        Division::ByBlank => solved_by(alloc, job, &ByBlank, shown),
        Division::ByHash => solved_by(alloc, job, &Zobrist::new(problem.goal.shape()), shown),
        Division::ByTiles => solved_by(alloc, job, &Abstract::new(problem.goal.shape()), shown),
        Division::ByRow => solved_by(alloc, job, &ByRow, shown),
    }
}

fn solved_by<'a, S: Spread>(
    alloc: Global,
    job: Job<'a>,
    spread: &'a S,
    shown: &Shown,
) -> Option<Outcome> {
    solve_one(alloc, job, spread, shown).ok()
}

// What `read_one` answers without rows.
fn ended(alloc: Global, problem: &Problem, bound: &Bound, division: Division) -> Option<Ending>
    requires { ArePotentials problem.now.weights problem.now.goal bound.now }
{
    let job = job_of(problem, bound)?;
    match division {
        Division::ByBlank => ended_by(alloc, job, &ByBlank),
        Division::ByHash => ended_by(alloc, job, &Zobrist::new(problem.goal.shape())),
        Division::ByTiles => ended_by(alloc, job, &Abstract::new(problem.goal.shape())),
        Division::ByRow => ended_by(alloc, job, &ByRow),
    }
}

fn ended_by<'a, S: Spread>(alloc: Global, job: Job<'a>, spread: &'a S) -> Option<Ending> {
    read_one::<WithoutRows, S, Free>(alloc, job, spread, &Free).ok()
}

// The job with these tables, or None where its parts are not of one shape.
fn job_of<'a>(problem: &Problem, bound: &'a Bound) -> Option<Job<'a>>
    requires { ArePotentials problem.now.weights problem.now.goal bound.now }
{
    Job::new(
        problem.start,
        problem.goal,
        problem.weights,
        bound,
        problem.limit,
    )
    .ok()
}

fn print_outcome(rt: &impl Print, case: &Case, outcome: &Outcome) -> io::Result<()> {
    match outcome {
        Outcome::Optimal { cost, plan, rows } => {
            print!(rt; "solve_one: cost {cost}, plan ")?;
            print_plan(rt, case, plan)?;
            println!(rt; ", {} rows", rows.len())
        }
        Outcome::Unsolvable { why } => println!(rt; "solve_one: unsolvable, {why:?}"),
        Outcome::Bounded {
            bound,
            best,
            cause,
            rows,
        } => {
            print!(rt; "solve_one: bound {bound}, best {best:?}, cause {cause:?}")?;
            print_row_count(rt, rows)
        }
    }
}

// Prints how many rows prove a bound, or that there are none because memory was refused.
fn print_row_count(rt: &impl Print, rows: &Option<Vec<(Board, u32)>>) -> io::Result<()> {
    match rows {
        Some(rows) => println!(rt; ", {} rows", rows.len()),
        None => rt.println(", without rows"),
    }
}

fn print_ending(rt: &impl Print, case: &Case, ending: &Ending) -> io::Result<()> {
    match ending {
        Ending::Optimal { cost, plan } => {
            print!(rt; "read_one: cost {cost}, plan ")?;
            print_plan(rt, case, plan)?;
            rt.println("")
        }
        Ending::Unsolvable { why } => println!(rt; "read_one: unsolvable, {why:?}"),
        Ending::Bounded { bound, best, cause } => {
            println!(rt; "read_one: bound {bound}, best {best:?}, cause {cause:?}")
        }
    }
}

// Prints the moves of a plan, or how many there are.
fn print_plan(rt: &impl Print, case: &Case, plan: &[Move]) -> io::Result<()> {
    if case.shows_moves {
        return print!(rt; "{plan:?}");
    }
    print!(rt; "of {} moves", plan.len())
}
