//! Calls by which workers in threads solve small boards.

ghost use Rattle.std.specs.Prelude.{◌≡◌, IfSome};
ghost use Rattle.lower_bound.specs.Tables.{ArePotentials};

use crate::alone::Answer as PairAnswer;
use crate::pairs;
use board::{Board, Shape, Weights};
use checked_runs::{CheckedFault, solve_checked};
use hda_run::{Free, Job};
use lower_bound::Bound;
use outcomes::{Cause, Outcome, Want};
use owners::Zobrist;
use std::alloc::Global;
use std::io::{Eprint, Print};
use std::sync::Wait;
use std::thread::Threads;
use test_worlds::{
    Answer, Division, Problem, Team, answer_with_rows, answer_without_rows, bound_of,
};

// By which function a board is solved.
#[derive(Clone, Copy)]
enum Solver {
    Solve,
    SolveChecked,
    End,
}

// A board of two rows that workers solve at face cost, and its least cost.
#[derive(Clone, Copy)]
struct Call {
    name: &'static str,
    cols: u8,
    tiles: &'static [u8],
    least: u32,
    groups: &'static [&'static [u8]],
    team: Team,
    solver: Solver,
}

// A board whose blank goes round once.
const SQUARE: Call = Call {
    name: "two-by-blank",
    cols: 2,
    tiles: &[3, 2, 1, 0],
    least: 12,
    groups: &[],
    team: Team {
        workers: 2,
        division: Division::ByBlank,
    },
    solver: Solver::Solve,
};

// A board nine moves from the goal.
const OBLONG: Call = Call {
    name: "three-by-hash",
    cols: 3,
    tiles: &[2, 3, 5, 0, 1, 4],
    least: 22,
    groups: &[],
    team: Team {
        workers: 3,
        division: Division::ByHash,
    },
    solver: Solver::Solve,
};

// The calls, by `solve`, by `end` and by `solve_checked`.
static CALLS: [Call; 7] = [
    SQUARE,
    Call {
        name: "two-end",
        solver: Solver::End,
        ..SQUARE
    },
    OBLONG,
    Call {
        name: "three-end",
        solver: Solver::End,
        ..OBLONG
    },
    Call {
        name: "sixteen",
        team: Team {
            workers: 16,
            division: Division::ByHash,
        },
        ..OBLONG
    },
    Call {
        name: "one-checked",
        groups: &[&[1], &[2, 3]],
        team: Team {
            workers: 1,
            division: Division::ByHash,
        },
        solver: Solver::SolveChecked,
        ..SQUARE
    },
    Call {
        name: "two-checked",
        groups: &[&[1, 2], &[3, 4, 5]],
        team: Team {
            workers: 2,
            division: Division::ByHash,
        },
        solver: Solver::SolveChecked,
        ..OBLONG
    },
];

// What came of a call.
#[derive(Clone, Copy)]
enum Verdict {
    // The plan of least cost.
    Whole,
    // Its cost as a bound, without the plan: of a plan that is to be checked, where memory was
    // refused for its groups.
    Cost,
    // No more than may be answered where memory is refused.
    Refused,
    // What may never be answered.
    Wrong(Answer),
}

// Makes a call, and answers what came of it.
fn verdict_on<R: Threads + Wait + Sync>(rt: &R, alloc: Global, call: &Call) -> Verdict {
    let answer = answer_to(rt, alloc, call);
    match answer {
        Answer::Plan(cost) if cost == call.least => Verdict::Whole,
        Answer::Bound(bound, Cause::Memory(Want::Refused(_))) if bound <= call.least => {
            verdict_on_bound(call, bound)
        }
        Answer::NoMemory => Verdict::Refused,
        _ => Verdict::Wrong(answer),
    }
}

// What came of a call that answers a bound, where memory was refused.
fn verdict_on_bound(call: &Call, bound: u32) -> Verdict {
    match call.solver {
        Solver::SolveChecked if bound == call.least => Verdict::Cost,
        _ => Verdict::Refused,
    }
}

// What is answered. The bound of no groups takes no memory.
fn answer_to<R: Threads + Wait + Sync>(rt: &R, alloc: Global, call: &Call) -> Answer {
    let Some(problem) = problem_of(call) else {
        return Answer::Invalid;
    };
    let Some(bound) = bound_of(alloc, &problem.goal, &problem.weights, call.groups) else {
        return Answer::NoMemory;
    };
    match call.solver {
        Solver::Solve => answer_with_rows(rt, alloc, &problem, &bound, call.team, &Free),
        Solver::SolveChecked => checked_answer(rt, alloc, &problem, &bound, call.team.workers),
        Solver::End => answer_without_rows(rt, alloc, &problem, &bound, call.team, &Free),
    }
}

// What a call asks of workers, or None where there is no such board.
fn problem_of(call: &Call) -> Option<Problem>
    ensures sides { IfSome result (λ p. p.weights.grid ≡ p.goal.grid) }
{
    let shape = Shape::new(2, call.cols).ok()?;
    let start = Board::from_tiles(shape, call.tiles).ok()?;
    Some(Problem {
        start,
        goal: Board::goal(shape),
        weights: Weights::face(shape),
        limit: u64::MAX,
    })
}

// What `solve_checked` answers, where the checker has the tables that guide the search.
fn checked_answer<R: Threads + Wait + Sync>(
    rt: &R,
    alloc: Global,
    problem: &Problem,
    bound: &Bound,
    workers: usize,
) -> Answer
    requires potentials { ArePotentials problem.now.weights problem.now.goal bound.now }
{
    let spread = Zobrist::new(problem.goal.shape());
    let Ok(job) = Job::new(
        problem.start,
        problem.goal,
        problem.weights,
        bound,
        problem.limit,
    ) else {
        return Answer::Invalid;
    };
    match solve_checked(rt, alloc, job, workers, &spread, &Free, bound) {
        Ok(Outcome::Optimal { cost, .. }) => Answer::Plan(cost),
        Ok(Outcome::Unsolvable { .. }) => Answer::NoPlan,
        Ok(Outcome::Bounded { bound, cause, .. }) => Answer::Bound(bound, cause),
        Err(CheckedFault::Memory(_)) => Answer::NoMemory,
        Err(CheckedFault::Refused(_)) => Answer::Refused,
        Err(CheckedFault::WorkerCount) => Answer::Invalid,
    }
}

/// Makes each call, and answers the exit status.
pub fn make_all<R: Print + Eprint + AllocGlobal + Threads + Wait + Sync>(rt: &R) -> u8 {
    let mut status = 0;
    for call in &CALLS {
        status = status.max(print_verdict(rt, call));
    }
    status.max(print_pair(rt))
}

/// Makes the call of this name, prints what came of it, and answers the exit status; or None where
/// there is no such call.
pub fn make<R: Print + Eprint + AllocGlobal + Threads + Wait + Sync>(
    rt: &R,
    name: &str,
) -> Option<u8> {
    for call in &CALLS {
        if call.name == name {
            return Some(print_verdict(rt, call));
        }
    }
    if name == pairs::SHARED.name {
        return Some(print_pair(rt));
    }
    None
}

// Makes a call, prints what came of it, and answers whether that is lawful as the exit status.
fn print_verdict<R: Print + Eprint + AllocGlobal + Threads + Wait + Sync>(
    rt: &R,
    call: &Call,
) -> u8 {
    match verdict_on(rt, rt.alloc(), call) {
        Verdict::Whole => print_lawful(rt, call.name, "whole"),
        Verdict::Cost => print_lawful(rt, call.name, "bounded by its cost"),
        Verdict::Refused => print_lawful(rt, call.name, "refused"),
        Verdict::Wrong(answer) => print_wrong(rt, call.name, answer),
    }
}

// Reports the pair of lines, prints what came of it, and answers the exit status.
fn print_pair<R: Print + Eprint + AllocGlobal + Threads + Wait + Sync>(rt: &R) -> u8 {
    let name = pairs::SHARED.name;
    match pairs::call(rt, &pairs::SHARED) {
        PairAnswer::Whole => print_lawful(rt, name, "whole"),
        PairAnswer::Refused => print_lawful(rt, name, "refused"),
        PairAnswer::Lacks(what) => print_lawful(rt, name, what),
        PairAnswer::Wrong(why) => {
            let _ = eprintln!(rt; "bench_refusals: {name}: {why}");
            1
        }
    }
}

fn print_lawful(rt: &impl Print, name: &str, text: &str) -> u8 {
    let _ = println!(rt; "{name} {text}");
    0
}

fn print_wrong(rt: &impl Eprint, name: &str, answer: Answer) -> u8 {
    let _ = eprintln!(rt; "bench_refusals: {name}: {answer:?}");
    1
}
