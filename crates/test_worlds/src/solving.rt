//! What a team of workers answers.

ghost use Rattle.lower_bound.specs.Tables.{ArePotentials};
ghost use Rattle.hda_run.specs.Worlds.{IsWorkerCount};

use crate::problems::{Answer, ByRow, Division, Problem, Team};
use board::Board;
use certificate::{Certificate, Claim, Parts, Version};
use certificate_check::check;
use hda_run::{Gate, Job, WorldFault, is_worker_count};
use lower_bound::Bound;
use outcomes::{Cause, Ending, Outcome};
use owners::{Abstract, ByBlank, Spread, Zobrist};
use std::alloc::Global;
use std::sync::Wait;
use std::thread::Threads;
use thread_parts::Search;
use thread_runs::{run_by_threads, search_by_workers, solve};
use world_ends::{WithRows, WithoutRows};

/// What `solve` answers. The checker looks at the rows of a plan, and at those of a bound.
pub fn answer_with_rows<R: Threads + Wait + Sync, G: Gate + Sync>(
    rt: &R,
    alloc: Global,
    problem: &Problem,
    bound: &Bound,
    team: Team,
    gate: &G,
) -> Answer
    requires { ArePotentials problem.now.weights problem.now.goal bound.now }
{
    match team.division {
        Division::ByBlank => solve_by(rt, alloc, problem, bound, team.workers, &ByBlank, gate),
        Division::ByHash => {
            let spread = Zobrist::new(problem.goal.shape());
            solve_by(rt, alloc, problem, bound, team.workers, &spread, gate)
        }
        Division::ByTiles => {
            let spread = Abstract::new(problem.goal.shape());
            solve_by(rt, alloc, problem, bound, team.workers, &spread, gate)
        }
        Division::ByRow => solve_by(rt, alloc, problem, bound, team.workers, &ByRow, gate),
    }
}

/// What `search_by_workers` answers without rows.
pub fn answer_without_rows<R: Threads + Wait + Sync, G: Gate + Sync>(
    rt: &R,
    alloc: Global,
    problem: &Problem,
    bound: &Bound,
    team: Team,
    gate: &G,
) -> Answer
    requires { ArePotentials problem.now.weights problem.now.goal bound.now }
{
    if !is_worker_count(team.workers) {
        return Answer::Invalid;
    }
    match team.division {
        Division::ByBlank => end_by(rt, alloc, problem, bound, team.workers, &ByBlank, gate),
        Division::ByHash => {
            let spread = Zobrist::new(problem.goal.shape());
            end_by(rt, alloc, problem, bound, team.workers, &spread, gate)
        }
        Division::ByTiles => {
            let spread = Abstract::new(problem.goal.shape());
            end_by(rt, alloc, problem, bound, team.workers, &spread, gate)
        }
        Division::ByRow => end_by(rt, alloc, problem, bound, team.workers, &ByRow, gate),
    }
}

/// What the team's threads answer, one for each worker. The checker looks at the rows. None where
/// the world of the joined workers is not kept.
pub fn answer_of_threads<R: Threads + Wait + Sync, G: Gate + Sync>(
    rt: &R,
    alloc: Global,
    problem: &Problem,
    bound: &Bound,
    team: Team,
    gate: &G,
) -> Option<Answer>
    requires { ArePotentials problem.now.weights problem.now.goal bound.now }
{
    if !is_worker_count(team.workers) {
        return Some(Answer::Invalid);
    }
    match team.division {
        Division::ByBlank => find_by(rt, alloc, problem, bound, team.workers, &ByBlank, gate),
        Division::ByHash => {
            let spread = Zobrist::new(problem.goal.shape());
            find_by(rt, alloc, problem, bound, team.workers, &spread, gate)
        }
        Division::ByTiles => {
            let spread = Abstract::new(problem.goal.shape());
            find_by(rt, alloc, problem, bound, team.workers, &spread, gate)
        }
        Division::ByRow => find_by(rt, alloc, problem, bound, team.workers, &ByRow, gate),
    }
}

fn solve_by<R: Threads + Wait + Sync, S: Spread + Sync, G: Gate + Sync>(
    rt: &R,
    alloc: Global,
    problem: &Problem,
    bound: &Bound,
    workers: usize,
    spread: &S,
    gate: &G,
) -> Answer
    requires { ArePotentials problem.now.weights problem.now.goal bound.now }
{
    let Some(job) = job_of(problem, bound) else {
        return Answer::Invalid;
    };
    match solve(rt, alloc, job, workers, spread, gate) {
        Ok(outcome) => answer_of_outcome(alloc, problem, bound, outcome),
        Err(fault) => answer_of_fault(fault),
    }
}

fn end_by<R: Threads + Wait + Sync, S: Spread + Sync, G: Gate + Sync>(
    rt: &R,
    alloc: Global,
    problem: &Problem,
    bound: &Bound,
    workers: usize,
    spread: &S,
    gate: &G,
) -> Answer
    requires tables { ArePotentials problem.now.weights problem.now.goal bound.now }
    requires count { IsWorkerCount workers }
{
    let Some(job) = job_of(problem, bound) else {
        return Answer::Invalid;
    };
    let search = Search {
        job,
        owners: spread,
        workers,
    };
    match search_by_workers::<WithoutRows, R, S, G>(rt, alloc, search, gate) {
        Ok(ending) => answer_of_ending(ending),
        Err(_refused) => Answer::NoMemory,
    }
}

fn find_by<R: Threads + Wait + Sync, S: Spread + Sync, G: Gate + Sync>(
    rt: &R,
    alloc: Global,
    problem: &Problem,
    bound: &Bound,
    workers: usize,
    spread: &S,
    gate: &G,
) -> Option<Answer>
    requires tables { ArePotentials problem.now.weights problem.now.goal bound.now }
    requires count { IsWorkerCount workers }
{
    let Some(job) = job_of(problem, bound) else {
        return Some(Answer::Invalid);
    };
    let search = Search {
        job,
        owners: spread,
        workers,
    };
    match run_by_threads::<WithRows, R, S, G>(rt, alloc, &search, gate) {
        Ok(Some(outcome)) => Some(answer_of_outcome(alloc, problem, bound, outcome)),
        Ok(None) => None,
        Err(_refused) => Some(Answer::NoMemory),
    }
}

// The job, or None where its parts are not of one shape.
fn job_of<'a>(problem: &Problem, bound: &'a Bound) -> Option<Job<'a>>
    requires { ArePotentials problem.now.weights problem.now.goal bound.now }
{
    Job::new(
        problem.start,
        problem.goal,
        problem.weights,
        bound,
        problem.limit,
    )
    .ok()
}

fn answer_of_outcome(alloc: Global, problem: &Problem, bound: &Bound, outcome: Outcome) -> Answer {
    match outcome {
        Outcome::Optimal { cost, plan, rows } => {
            let claim = Claim::Least { cost, plan };
            judge(alloc, problem, bound, claim, rows, Answer::Plan(cost))
        }
        Outcome::Unsolvable { .. } => Answer::NoPlan,
        Outcome::Bounded {
            bound: least,
            cause,
            rows,
            ..
        } => judge_bound(alloc, problem, bound, least, cause, rows),
    }
}

fn answer_of_ending(ending: Ending) -> Answer {
    match ending {
        Ending::Optimal { cost, .. } => Answer::Plan(cost),
        Ending::Unsolvable { .. } => Answer::NoPlan,
        Ending::Bounded { bound, cause, .. } => Answer::Bound(bound, cause),
    }
}

fn answer_of_fault(fault: WorldFault) -> Answer {
    match fault {
        WorldFault::WorkerCount => Answer::Invalid,
        WorldFault::Memory(_) => Answer::NoMemory,
    }
}

// A bound, where the checker accepts its certificate with these rows. A bound without rows counts
// only where memory is its cause.
fn judge_bound(
    alloc: Global,
    problem: &Problem,
    bound: &Bound,
    least: u32,
    cause: Cause,
    rows: Option<Vec<(Board, u32)>>,
) -> Answer {
    let answer = Answer::Bound(least, cause);
    match rows {
        Some(rows) => {
            let claim = Claim::Bound { bound: least };
            judge(alloc, problem, bound, claim, rows, answer)
        }
        None if matches!(cause, Cause::Memory(_)) => answer,
        None => Answer::NoRows,
    }
}

// An answer, where the checker accepts the certificate of its claim.
fn judge(
    alloc: Global,
    problem: &Problem,
    bound: &Bound,
    claim: Claim,
    rows: Vec<(Board, u32)>,
    answer: Answer,
) -> Answer {
    let Ok(groups) = bound.partition().copy(alloc) else {
        return Answer::NoMemory;
    };
    let parts = Parts {
        version: Version::Two,
        shape: problem.goal.shape(),
        costs: problem.weights,
        groups,
        start: problem.start,
        goal: problem.goal,
        claim,
        rows,
    };
    match Certificate::new(parts) {
        Some(certificate) if check(&certificate, bound).is_ok() => answer,
        _ => Answer::Refused,
    }
}
