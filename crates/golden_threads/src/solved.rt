//! Prints what is answered where one worker solves a job alone, with rows that prove the cost or
//! the bound and without, and where two workers take a list of steps.

ghost use Rattle.std.specs.Prelude.{◌≡◌, []};

mod cases;
mod solving;

use crate::no_tables;
use board::{Board, Shape, Weights};
use cases::{CASES, RUN_START, RUNS, Run};
use hda_run::{Job, WorldFault, run_and_finish};
use lower_bound::Bound;
use outcomes::Outcome;
use owners::{Abstract, ByBlank, Spread, Zobrist};
use std::alloc::Global;
use std::io::{self, ErrorKind, Print};
use test_worlds::{ByRow, Division};

/// Prints what is answered to each job and to each list of steps.
pub fn print_solved(rt: &(impl Print + AllocGlobal)) -> io::Result<()> {
    for case in &CASES {
        solving::print_answers(rt, case)?;
    }
    for run in &RUNS {
        print_answer(rt, run)?;
    }
    Ok(())
}

// Prints what `run_and_finish` answers, with the rows.
fn print_answer(rt: &(impl Print + AllocGlobal), run: &Run) -> io::Result<()> {
    let workers = run.workers;
    println!(rt; "# {}", run.title)?;
    println!(rt; "{RUN_START:?}, workers {workers}")?;
    print_result(rt, &answer(rt.alloc(), run))
}

fn print_result(rt: &impl Print, answer: &Option<Result<Outcome, WorldFault>>) -> io::Result<()> {
    match answer {
        Some(Ok(outcome)) => print_outcome(rt, outcome)?,
        Some(Err(fault)) => println!(rt; "run_and_finish: {}", fault.code())?,
        None => return Err(ErrorKind::InvalidData.into()),
    }
    rt.println("")
}

// What `run_and_finish` answers, or None where there is no job.
fn answer(alloc: Global, run: &Run) -> Option<Result<Outcome, WorldFault>> {
    let shape = Shape::new(2, 2).ok()?;
    let bound = no_tables(alloc, shape);
    let job = job_of(&bound)?;
    Some(match run.division {
        Division::ByBlank => answer_by(alloc, job, run, &ByBlank),
        Division::ByHash => answer_by(alloc, job, run, &Zobrist::new(shape)),
        Division::ByTiles => answer_by(alloc, job, run, &Abstract::new(shape)),
        Division::ByRow => answer_by(alloc, job, run, &ByRow),
    })
}

// What `run_and_finish` answers where boards are divided so.
fn answer_by<'a, S: Spread>(
    alloc: Global,
    job: Job<'a>,
    run: &Run,
    spread: &'a S,
) -> Result<Outcome, WorldFault> {
    run_and_finish(alloc, job, run.workers, spread, run.steps)
}

// The job at unit cost, without a limit.
fn job_of<'a>(bound: &'a Bound) -> Option<Job<'a>>
    requires { (bound.now.lookups ≡ []) × (bound.now.folds ≡ []) }
{
    let shape = Shape::new(2, 2).ok()?;
    let start = Board::from_tiles(shape, &RUN_START).ok()?;
    Job::new(
        start,
        Board::goal(shape),
        Weights::unit(shape),
        bound,
        u64::MAX,
    )
    .ok()
}

fn print_outcome(rt: &impl Print, outcome: &Outcome) -> io::Result<()> {
    match outcome {
        Outcome::Optimal { cost, plan, rows } => {
            println!(rt; "run_and_finish: cost {cost}, plan {plan:?}")?;
            print_rows(rt, rows)
        }
        Outcome::Unsolvable { why } => println!(rt; "run_and_finish: unsolvable, {why:?}"),
        Outcome::Bounded {
            bound,
            best,
            cause,
            rows,
        } => {
            println!(rt; "run_and_finish: bound {bound}, best {best:?}, cause {cause:?}")?;
            print_bound_rows(rt, rows)
        }
    }
}

// Prints the rows of a bound, or that there are none because memory was refused.
fn print_bound_rows(rt: &impl Print, rows: &Option<Vec<(Board, u32)>>) -> io::Result<()> {
    match rows {
        Some(rows) => print_rows(rt, rows),
        None => rt.println("without rows"),
    }
}

// Prints each row, a board and its cost.
fn print_rows(rt: &impl Print, rows: &[(Board, u32)]) -> io::Result<()> {
    for row in rows {
        let (board, cost) = *row;
        println!(rt; "row {:?} at {cost}", board.tiles())?;
    }
    Ok(())
}
