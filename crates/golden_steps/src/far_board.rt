//! What workers in threads answer of a board that is as far from the goal as one of 3 by 3 can be.
//! Counts the runs by one worker and by more that find its cost, and the runs by threads alone that
//! find it in a world that is kept.

ghost use Rattle.lower_bound.specs.Tables.{ArePotentials};

use hda_run::Free;
use lower_bound::Bound;
use std::alloc::Global;
use std::io::{self, ErrorKind, Print};
use std::sync::Wait;
use std::thread::Threads;
use test_worlds::{
    Answer, Division, FAR_GROUPS, FAR_START, Problem, Team, answer_of_threads, answer_with_rows,
    answer_without_rows, bound_of, far_problem,
};

const COST: u32 = 31;

// How many workers solve it without tables.
const WORKERS: [usize; 4] = [1, 2, 3, 16];

// How often each count of workers solves it by each spread with these tables.
const RUNS: u64 = 5;

// How many runs found the cost: with rows that the checker accepts, and without rows.
#[derive(Clone, Copy)]
struct Count {
    proved: u64,
    found: u64,
}

// How many runs by threads were made, and how many of them ended in a world that is kept, and found
// the cost.
#[derive(Clone, Copy)]
struct Kept {
    kept: u64,
    runs: u64,
}

/// Prints how many runs of each count of workers find the cost, by each spread.
pub fn print_counts<R: Threads + Wait + Print + AllocGlobal + Sync>(rt: &R) -> io::Result<()> {
    println!(rt; "# {FAR_START:?} at unit cost, without tables")?;
    for workers in WORKERS {
        print_each(rt, workers, &[], 1)?;
    }
    println!(rt; "# The same with tables, {RUNS} runs each")?;
    for workers in 1..17 {
        print_each(rt, workers, &FAR_GROUPS, RUNS)?;
    }
    print_kept(rt)
}

fn print_kept<R: Threads + Wait + Print + AllocGlobal + Sync>(rt: &R) -> io::Result<()> {
    println!(rt; "# By 2 to 16 threads alone, with tables, {RUNS} runs each")?;
    match count_kept(rt, rt.alloc()) {
        Some(count) => print_kept_count(rt, count),
        None => Err(ErrorKind::OutOfMemory.into()),
    }
}

fn print_kept_count(rt: &impl Print, count: Kept) -> io::Result<()> {
    let Kept { kept, runs } = count;
    println!(rt; "kept, and of cost {COST} with a certificate: {kept} of {runs}")
}

// The same of these workers, whom tables of these groups guide, in this many runs.
fn print_each<R: Threads + Wait + Print + AllocGlobal + Sync>(
    rt: &R,
    workers: usize,
    groups: &[&[u8]],
    runs: u64,
) -> io::Result<()> {
    for division in Division::HASHED {
        let team = Team { workers, division };
        match count_runs(rt, rt.alloc(), team, groups, runs) {
            Some(count) => print_count(rt, team, count)?,
            None => return Err(ErrorKind::OutOfMemory.into()),
        }
    }
    Ok(())
}

fn print_count(rt: &impl Print, team: Team, count: Count) -> io::Result<()> {
    let (workers, word) = (team.workers, team.division.word());
    let Count { proved, found } = count;
    println!(rt;
        "workers {workers}, by the {word}: cost {COST} with a certificate {proved}, without rows {found}"
    )
}

// Counts the runs that find the cost, or None where memory was refused for the board's bound.
fn count_runs<R: Threads + Wait + Sync>(
    rt: &R,
    alloc: Global,
    team: Team,
    groups: &[&[u8]],
    runs: u64,
) -> Option<Count> {
    let problem = far_problem(u64::MAX)?;
    let bound = bound_of(alloc, &problem.goal, &problem.weights, groups)?;
    Some(count_guided(rt, alloc, &problem, &bound, team, runs))
}

// Counts them where this bound guides the search.
fn count_guided<R: Threads + Wait + Sync>(
    rt: &R,
    alloc: Global,
    problem: &Problem,
    bound: &Bound,
    team: Team,
    runs: u64,
) -> Count
    requires { ArePotentials problem.now.weights problem.now.goal bound.now }
{
    let mut count = Count {
        proved: 0,
        found: 0,
    };
    for _ in 0..runs {
        if answer_with_rows(rt, alloc, problem, bound, team, &Free) == Answer::Plan(COST) {
            count.proved = count.proved.saturating_add(1);
        }
        if answer_without_rows(rt, alloc, problem, bound, team, &Free) == Answer::Plan(COST) {
            count.found = count.found.saturating_add(1);
        }
    }
    count
}

// Counts the runs of 2 to 16 workers, whom tables guide, that end in a world that is kept, and find
// the cost; or None where memory was refused for the board's bound.
fn count_kept<R: Threads + Wait + Sync>(rt: &R, alloc: Global) -> Option<Kept> {
    let problem = far_problem(u64::MAX)?;
    let bound = bound_of(alloc, &problem.goal, &problem.weights, &FAR_GROUPS)?;
    Some(count_kept_by(rt, alloc, &problem, &bound))
}

// Counts them where this bound guides the search.
fn count_kept_by<R: Threads + Wait + Sync>(
    rt: &R,
    alloc: Global,
    problem: &Problem,
    bound: &Bound,
) -> Kept
    requires { ArePotentials problem.now.weights problem.now.goal bound.now }
{
    let mut count = Kept { kept: 0, runs: 0 };
    for workers in 2..17 {
        for division in Division::HASHED {
            let team = Team { workers, division };
            for _ in 0..RUNS {
                let answer = answer_of_threads(rt, alloc, problem, bound, team, &Free);
                if answer == Some(Answer::Plan(COST)) {
                    count.kept = count.kept.saturating_add(1);
                }
                count.runs = count.runs.saturating_add(1);
            }
        }
    }
    count
}
