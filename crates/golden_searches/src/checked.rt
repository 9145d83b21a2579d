//! Prints what is answered of a board where the checker has to accept the plan. The checker's tables
//! are those of the search built anew, these folded, and those of other problems. The board is as far
//! from the goal as one of 3 by 3 can be.

ghost use Rattle.std.specs.Prelude.{◌≡◌, IfSome};
ghost use Rattle.lower_bound.specs.Tables.{ArePotentials};

use crate::problems::{Costs, Problem, certificate_of, job_of, problem_at};
use board::{Board, Shape, Weights};
use certificate_check::{Refusal, check};
use checked_runs::{CheckedFault, solve_checked};
use hda_run::{Gate, Kind};
use lower_bound::Bound;
use outcomes::Outcome;
use owners::Zobrist;
use std::alloc::Global;
use std::io::{self, ErrorKind, Print};
use std::sync::Wait;
use std::sync::atomic::{AtomicBool, Ordering};
use std::thread::Threads;
use test_worlds::{Counter, bound_of};

// Another goal of the same class.
const OTHER_GOAL: [u8; 9] = [1, 2, 0, 3, 4, 5, 6, 7, 8];

// The groups whose tables guide the search.
const GROUPS: [&[u8]; 2] = [&[1, 2, 3, 4], &[5, 6, 7, 8]];

// Other groups, as the second is smaller.
const OTHER_GROUPS: [&[u8]; 2] = [&[1, 2, 3, 4], &[5, 6, 7]];

// How many workers are asked for; 17 are too many.
const WORKERS: [usize; 4] = [1, 2, 16, 17];

// Whose tables the checker has.
#[derive(Clone, Copy)]
enum Judge {
    Own,
    OwnFolded,
    OfOtherGroups,
    OfNoGroups,
    OfAnotherGoal,
    OfFaceCosts,
}

impl Judge {
    const ALL: [Judge; 6] = [
        Judge::Own,
        Judge::OwnFolded,
        Judge::OfOtherGroups,
        Judge::OfNoGroups,
        Judge::OfAnotherGoal,
        Judge::OfFaceCosts,
    ];

    // The words for them.
    fn words(self) -> &'static str {
        match self {
            Judge::Own => "tables of the same groups, built anew",
            Judge::OwnFolded => "tables of the same groups, folded",
            Judge::OfOtherGroups => "tables of other groups",
            Judge::OfNoGroups => "no tables",
            Judge::OfAnotherGoal => "tables for another goal",
            Judge::OfFaceCosts => "tables for face costs",
        }
    }
}

/// Prints for each judge what 1, 2, 16 and 17 workers answer, and what the checker says of a plan that
/// was found without it: where whole tables guide the search, and where the same guide it, folded.
pub fn print_checked<R: Threads + Wait + Print + AllocGlobal + Sync>(rt: &R) -> io::Result<()> {
    let Some(problem) = problem_at(Costs::Unit) else {
        return Err(ErrorKind::InvalidData.into());
    };
    print_guided(rt, &problem, false, &Judge::ALL)?;
    print_guided(rt, &problem, true, &[Judge::Own, Judge::OwnFolded])
}

// Prints it for these judges where tables guide the search, which may be folded.
fn print_guided<R: Threads + Wait + Print + AllocGlobal + Sync>(
    rt: &R,
    problem: &Problem,
    fold: bool,
    judges: &[Judge],
) -> io::Result<()>
    requires { problem.now.weights.grid ≡ problem.now.goal.grid }
{
    match guide_of(rt.alloc(), problem, fold) {
        Some(bound) if fold => print_judges(rt, problem, &bound, "folded", judges),
        Some(bound) => print_judges(rt, problem, &bound, "whole", judges),
        None => Err(ErrorKind::OutOfMemory.into()),
    }
}

// The tables that guide the search, or None where memory was refused.
fn guide_of(alloc: Global, problem: &Problem, fold: bool) -> Option<Bound>
    requires { problem.now.weights.grid ≡ problem.now.goal.grid }
    ensures { IfSome result (ArePotentials problem.now.weights problem.now.goal) }
{
    let whole = bound_of(alloc, &problem.goal, &problem.weights, &GROUPS)?;
    if fold {
        return whole.folded(alloc).ok();
    }
    Some(whole)
}

fn print_judges<R: Threads + Wait + Print + AllocGlobal + Sync>(
    rt: &R,
    problem: &Problem,
    bound: &Bound,
    kind: &str,
    judges: &[Judge],
) -> io::Result<()>
    requires potentials { ArePotentials problem.now.weights problem.now.goal bound.now }
{
    println!(rt; "## Guided by {kind} tables\n")?;
    for judge in judges {
        print_judge(rt, problem, bound, *judge)?;
    }
    Ok(())
}

fn print_judge<R: Threads + Wait + Print + AllocGlobal + Sync>(
    rt: &R,
    problem: &Problem,
    bound: &Bound,
    judge: Judge,
) -> io::Result<()>
    requires potentials { ArePotentials problem.now.weights problem.now.goal bound.now }
{
    match tables_of(rt.alloc(), judge) {
        Some(tables) => print_answers(rt, problem, bound, judge, &tables),
        None => Err(ErrorKind::OutOfMemory.into()),
    }
}

// Prints the verdict on the plan, and what workers answer, where the checker has these tables.
fn print_answers<R: Threads + Wait + Print + AllocGlobal + Sync>(
    rt: &R,
    problem: &Problem,
    bound: &Bound,
    judge: Judge,
    tables: &Bound,
) -> io::Result<()>
    requires potentials { ArePotentials problem.now.weights problem.now.goal bound.now }
{
    let verdict = verdict_on_plan(rt.alloc(), problem, bound, tables);
    println!(rt; "# {}: {verdict:?}", judge.words())?;
    for workers in WORKERS {
        let steps = Steps::new();
        let answer = checked_answer(rt, rt.alloc(), problem, bound, workers, tables, &steps);
        print_answer(rt, workers, answer, &steps)?;
    }
    rt.println("")
}

// Prints what is answered. One worker makes as many expansions each time. Of several, one other
// than the first has to take a step.
fn print_answer(rt: &impl Print, workers: usize, answer: Answer, steps: &Steps) -> io::Result<()> {
    if let Answer::Fault(fault) = answer {
        return println!(rt; "workers {workers}: {} {fault}", fault.code());
    }
    let expanded = steps.expanded.expanded();
    if workers == 1 {
        return println!(rt; "workers 1: {answer:?}, {expanded} expansions");
    }
    if steps.others.load(Ordering::SeqCst) {
        return println!(rt; "workers {workers}: {answer:?}");
    }
    println!(rt; "workers {workers}: {answer:?}, by the first worker alone")
}

// Counts the boards that are expanded, and notes whether another worker than the first takes a step.
#[derive(Drop)]
struct Steps {
    expanded: Counter,
    others: AtomicBool,
}

impl Steps {
    // A gate that no step has passed.
    fn new() -> Self {
        Steps {
            expanded: Counter::new(),
            others: AtomicBool::new(false),
        }
    }
}

impl Gate for Steps {
    fn pass(&self, worker: usize, kind: Kind) {
        self.expanded.pass(worker, kind);
        if worker > 0 {
            self.others.store(true, Ordering::SeqCst);
        }
    }
}

// The tables of a judge, or None where memory was refused.
fn tables_of(alloc: Global, judge: Judge) -> Option<Bound> {
    let unit = problem_at(Costs::Unit)?;
    match judge {
        Judge::Own => bound_of(alloc, &unit.goal, &unit.weights, &GROUPS),
        Judge::OwnFolded => {
            let whole = bound_of(alloc, &unit.goal, &unit.weights, &GROUPS)?;
            whole.folded(alloc).ok()
        }
        Judge::OfOtherGroups => bound_of(alloc, &unit.goal, &unit.weights, &OTHER_GROUPS),
        Judge::OfNoGroups => bound_of(alloc, &unit.goal, &unit.weights, &[]),
        Judge::OfAnotherGoal => tables_for_another_goal(alloc),
        Judge::OfFaceCosts => {
            let face = problem_at(Costs::Face)?;
            bound_of(alloc, &face.goal, &face.weights, &GROUPS)
        }
    }
}

// The tables of the same groups for another goal.
fn tables_for_another_goal(alloc: Global) -> Option<Bound> {
    let shape = Shape::new(3, 3).ok()?;
    let goal = Board::from_tiles(shape, &OTHER_GOAL).ok()?;
    bound_of(alloc, &goal, &Weights::unit(shape), &GROUPS)
}

// What a run answers.
#[derive(Clone, Copy, Debug)]
enum Answer {
    // A least plan of this cost.
    Cost(u32),
    // There is no plan.
    NoPlan,
    // No plan costs less than this.
    Bound(u32),
    // This fault.
    Fault(CheckedFault),
    // The parts of the problem are not of one shape.
    Invalid,
}

// What the checker says of a plan.
#[derive(Clone, Copy, Debug)]
enum Verdict {
    // The plan is accepted.
    Accepted,
    // It is refused, for this.
    Refused(Refusal),
    // There is no plan to look at.
    NoPlan,
}

// What `workers` workers answer of the problem, guided by tables, where the checker has tables of
// its own.
fn checked_answer<R: Threads + Wait + Sync>(
    rt: &R,
    alloc: Global,
    problem: &Problem,
    bound: &Bound,
    workers: usize,
    tables: &Bound,
    steps: &Steps,
) -> Answer
    requires potentials { ArePotentials problem.now.weights problem.now.goal bound.now }
{
    let spread = Zobrist::new(problem.goal.shape());
    let Some(job) = job_of(problem, bound) else {
        return Answer::Invalid;
    };
    match solve_checked(rt, alloc, job, workers, &spread, steps, tables) {
        Ok(Outcome::Optimal { cost, .. }) => Answer::Cost(cost),
        Ok(Outcome::Unsolvable { .. }) => Answer::NoPlan,
        Ok(Outcome::Bounded { bound, .. }) => Answer::Bound(bound),
        Err(fault) => Answer::Fault(fault),
    }
}

// What the checker says with these tables of the plan that one worker finds without it.
fn verdict_on_plan(alloc: Global, problem: &Problem, bound: &Bound, tables: &Bound) -> Verdict
    requires { ArePotentials problem.now.weights problem.now.goal bound.now }
{
    let Some(certificate) = certificate_of(alloc, problem, bound) else {
        return Verdict::NoPlan;
    };
    match check(&certificate, tables) {
        Ok(()) => Verdict::Accepted,
        Err(refusal) => Verdict::Refused(refusal),
    }
}
