//! Runs of the far board while a gate counts the boards that are expanded, up to a limit, or slows
//! a worker down. The board is as far from the goal as one of 3 by 3 can be.

mod delays;

use outcomes::Cause;
use std::alloc::Global;
use std::io::{self, ErrorKind, Print};
use std::sync::Wait;
use std::thread::Threads;
use test_worlds::{
    Answer, Counter, Division, FAR_START, Team, answer_with_rows, bound_of, far_problem,
};

const LIMIT: u64 = 4000;

// So large that sixteen workers can't leave all of it.
const LARGE_LIMIT: u64 = 20_000;

// One grant may use it up. No contract says that a board is expanded under such a limit.
const SMALL_LIMIT: u64 = 200;

// The most expansions that are granted to a worker and that it may leave.
const LEFT_BY_EACH: u64 = 256;

/// Prints the runs that a limit stops, and those in which a worker is slow.
pub fn print_runs<R: Threads + Wait + Print + AllocGlobal + Sync>(rt: &R) -> io::Result<()> {
    print_large(rt)?;
    print_larger(rt)?;
    print_small(rt)?;
    delays::print_runs(rt)
}

// Prints whether a limit bounds the runs of one worker, of four and of sixteen, by each spread.
// Where the workers' answer is dropped and one of them searches anew, more boards are expanded than
// the limit.
fn print_large<R: Threads + Wait + Print + AllocGlobal + Sync>(rt: &R) -> io::Result<()> {
    println!(rt; "# {FAR_START:?} at unit cost, limit {LIMIT}")?;
    for division in &Division::HASHED {
        print_run(rt, 1, *division, LIMIT, LIMIT)?;
        print_run(rt, 4, *division, LIMIT, LIMIT - 4 * LEFT_BY_EACH)?;
        print_run(rt, 16, *division, LIMIT, 1)?;
    }
    rt.println("")
}

// Prints whether two, three and sixteen workers leave no more of a limit than they may.
fn print_larger<R: Threads + Wait + Print + AllocGlobal + Sync>(rt: &R) -> io::Result<()> {
    println!(rt; "# The same board, limit {LARGE_LIMIT}")?;
    for division in &Division::HASHED {
        print_run(
            rt,
            2,
            *division,
            LARGE_LIMIT,
            LARGE_LIMIT - 2 * LEFT_BY_EACH,
        )?;
        print_run(
            rt,
            3,
            *division,
            LARGE_LIMIT,
            LARGE_LIMIT - 3 * LEFT_BY_EACH,
        )?;
        print_run(
            rt,
            16,
            *division,
            LARGE_LIMIT,
            LARGE_LIMIT - 16 * LEFT_BY_EACH,
        )?;
    }
    rt.println("")
}

// Prints whether two workers expand a board under a limit that one grant uses up.
fn print_small<R: Threads + Wait + Print + AllocGlobal + Sync>(rt: &R) -> io::Result<()> {
    println!(rt; "# The same board, limit {SMALL_LIMIT}")?;
    for division in &Division::HASHED {
        print_run(rt, 2, *division, SMALL_LIMIT, 1)?;
    }
    rt.println("")
}

// Prints whether a run is bounded by a limit, and expands no fewer boards than it has to.
fn print_run<R: Threads + Wait + Print + AllocGlobal + Sync>(
    rt: &R,
    workers: usize,
    division: Division,
    limit: u64,
    fewest: u64,
) -> io::Result<()> {
    print!(rt; "workers {workers}, by the {}: ", division.word())?;
    match run(rt, rt.alloc(), Team { workers, division }, limit) {
        Some((answer, expanded)) => print_found(rt, answer, expanded, limit, fewest),
        None => Err(ErrorKind::OutOfMemory.into()),
    }
}

fn print_found(
    rt: &impl Print,
    answer: Answer,
    expanded: u64,
    limit: u64,
    fewest: u64,
) -> io::Result<()> {
    if is_bound(answer) && fewest <= expanded && expanded <= limit {
        return println!(rt; "a bound of 1 at least, {fewest} to {limit} boards expanded");
    }
    println!(rt; "{answer:?}, {expanded} boards expanded")
}

// Whether it is a bound that says something, for the limit.
fn is_bound(answer: Answer) -> bool {
    match answer {
        Answer::Bound(bound, cause) => 1 <= bound && cause == Cause::Limit,
        _ => false,
    }
}

// What is answered without tables, and how many boards were expanded for it; or None where memory
// was refused.
fn run<R: Threads + Wait + Sync>(
    rt: &R,
    alloc: Global,
    team: Team,
    limit: u64,
) -> Option<(Answer, u64)> {
    let problem = far_problem(limit)?;
    let bound = bound_of(alloc, &problem.goal, &problem.weights, &[])?;
    let counter = Counter::new();
    let answer = answer_with_rows(rt, alloc, &problem, &bound, team, &counter);
    Some((answer, counter.expanded()))
}
