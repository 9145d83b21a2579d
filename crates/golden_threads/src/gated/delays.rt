//! Runs in which one worker is slower than the others.

ghost use Rattle.lower_bound.specs.Tables.{ArePotentials};

use lower_bound::Bound;
use std::alloc::Global;
use std::io::{self, ErrorKind, Print};
use std::sync::Wait;
use std::thread::Threads;
use test_worlds::{
    Answer, Delay, Division, FAR_GROUPS, FAR_START, Problem, Team, answer_with_rows, bound_of,
    far_problem,
};

// How many turns the slow worker spins after each step: more than a step takes.
const TURNS: u32 = 1000;

static WORKERS: [usize; 4] = [2, 3, 4, 16];

/// Prints what is answered where the first worker is slow, and where the last is, by each spread.
pub fn print_runs<R: Threads + Wait + Print + AllocGlobal + Sync>(rt: &R) -> io::Result<()> {
    println!(rt; "# {FAR_START:?} at unit cost, with tables for {FAR_GROUPS:?}")?;
    for workers in &WORKERS {
        for division in &Division::HASHED {
            print_run(rt, *workers, *division)?;
        }
    }
    Ok(())
}

fn print_run<R: Threads + Wait + Print + AllocGlobal + Sync>(
    rt: &R,
    workers: usize,
    division: Division,
) -> io::Result<()> {
    print!(rt; "workers {workers}, by the {}: ", division.word())?;
    match run(rt, rt.alloc(), Team { workers, division }) {
        Some((first, last)) => print_found(rt, first, last),
        None => Err(ErrorKind::OutOfMemory.into()),
    }
}

fn print_found(rt: &impl Print, first: Answer, last: Answer) -> io::Result<()> {
    println!(rt; "{first:?} where the first is slow, {last:?} where the last is")
}

// What is answered where the first worker is slow, and where the last is; or None where memory was
// refused.
fn run<R: Threads + Wait + Sync>(rt: &R, alloc: Global, team: Team) -> Option<(Answer, Answer)> {
    let problem = far_problem(u64::MAX)?;
    let bound = bound_of(alloc, &problem.goal, &problem.weights, &FAR_GROUPS)?;
    let first = run_delayed(rt, alloc, &problem, &bound, team, 0);
    let last = run_delayed(
        rt,
        alloc,
        &problem,
        &bound,
        team,
        team.workers.saturating_sub(1),
    );
    Some((first, last))
}

// What is answered where this worker is slow.
fn run_delayed<R: Threads + Wait + Sync>(
    rt: &R,
    alloc: Global,
    problem: &Problem,
    bound: &Bound,
    team: Team,
    worker: usize,
) -> Answer
    requires { ArePotentials problem.now.weights problem.now.goal bound.now }
{
    let delay = Delay {
        worker,
        turns: TURNS,
    };
    answer_with_rows(rt, alloc, problem, bound, team, &delay)
}
