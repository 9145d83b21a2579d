//! The end of a run: a world of one worker, which searches until no board is left to be expanded,
//! and the outcome that it gives. `bench/finish` times that outcome.
//!
//! It prints a line when the world has searched, and another when it has given its outcome.

ghost use Rattle.lower_bound.specs.Tables.{ArePotentials};

use board::{Board, Shape, Weights};
use hda_run::{Job, World};
use lower_bound::Bound;
use outcomes::Outcome;
use owners::ByBlank;
use std::alloc::Global;
use std::io::{self, Print};
use test_worlds::bound_of;
use world_model::{Refusal, Step};

// A start, the count of its rows and columns, and the groups of the tables.
struct Setup {
    side: u8,
    start: &'static [u8],
    groups: &'static [&'static [u8]],
}

static SMALL: Setup = Setup {
    side: 3,
    start: &[8, 0, 6, 5, 4, 7, 2, 3, 1],
    groups: &[&[1, 2, 3, 4], &[5, 6, 7, 8]],
};

// Nineteen moves away, and so more than 900,000 rows.
static PLAIN: Setup = Setup {
    side: 4,
    start: &[1, 5, 7, 2, 4, 3, 10, 11, 8, 6, 15, 14, 12, 9, 0, 13],
    groups: &[],
};

// Forty-six moves away, and about a million known boards.
static GUIDED: Setup = Setup {
    side: 4,
    start: &[5, 14, 2, 1, 3, 10, 13, 11, 9, 4, 7, 8, 12, 0, 6, 15],
    groups: &[
        &[1, 2, 3],
        &[4, 5, 6],
        &[7, 8, 9],
        &[10, 11, 12],
        &[13, 14, 15],
    ],
};

// More boards than are expanded from any of the starts.
const MANY: u64 = 1 << 30;

// The setup that the arguments name, or None where they name none.
fn read_words(words: &[String]) -> Option<&'static Setup> {
    let Some(word) = words.first() else {
        return Some(&SMALL);
    };
    match word.as_str() {
        "plain" => Some(&PLAIN),
        "guided" => Some(&GUIDED),
        _ => None,
    }
}

// Expands by the one worker until no board is left to be expanded. Answers whether there was
// memory for it.
fn expand_boards(alloc: Global, world: &mut World<'_, ByBlank>) -> bool {
    'boards: for _ in 0..MANY {
        match world.step(alloc, Step::Expand(0)) {
            Ok(()) => {}
            Err(Refusal::NoAllowance) => {
                if !refill(alloc, world) {
                    break;
                }
            }
            Err(Refusal::NothingBelowLimit) => break,
            Err(_) => return false,
        }
    }
    true
}

// Announces the goal if it is known, and grants more. Answers whether there is something left to
// do.
fn refill(alloc: Global, world: &mut World<'_, ByBlank>) -> bool {
    let _ = world.step(alloc, Step::Announce(0));
    world.step(alloc, Step::Grant(0)).is_ok()
}

fn print_outcome(rt: &impl Print, outcome: &Outcome) -> io::Result<()> {
    match outcome {
        Outcome::Optimal { cost, plan, rows } => {
            let moves = plan.len();
            let count = rows.len();
            println!(rt; "optimal {cost} moves {moves} rows {count}")
        }
        Outcome::Unsolvable { .. } => println!(rt; "unsolvable"),
        Outcome::Bounded { bound, .. } => println!(rt; "bounded {bound}"),
    }
}

// Prints how many boards the one worker has expanded, and how many it knows.
fn print_figures(rt: &impl Print, world: &World<'_, ByBlank>) -> io::Result<()> {
    if world.workers() == 0 {
        return Ok(());
    }
    let worker = world.worker(0);
    let known = worker.lists().len();
    let expanded = worker.expansions();
    println!(rt; "expanded {expanded} known {known}")
}

// Searches, and prints; None where there is no memory, or nothing can be printed.
fn run_world(rt: &(impl Print + AllocGlobal), setup: &Setup) -> Option<()> {
    let shape = Shape::new(setup.side, setup.side).ok()?;
    let goal = Board::goal(shape);
    let weights = Weights::unit(shape);
    let bound = bound_of(rt.alloc(), &goal, &weights, setup.groups)?;
    run_guided(rt, setup.start, goal, weights, &bound)
}

// Searches from these tiles by these tables, and prints.
fn run_guided(
    rt: &(impl Print + AllocGlobal),
    tiles: &[u8],
    goal: Board,
    weights: Weights,
    bound: &Bound,
) -> Option<()>
    requires { ArePotentials weights goal bound.now }
{
    let start = Board::from_tiles(goal.shape(), tiles).ok()?;
    let job = Job::new(start, goal, weights, bound, u64::MAX).ok()?;
    run_job(rt, job)
}

// Searches in a world of one worker for a job, and prints the figures and the outcome.
fn run_job(rt: &(impl Print + AllocGlobal), job: Job<'_>) -> Option<()> {
    let mut world = World::new(rt.alloc(), job, 1, &ByBlank).ok()?;
    search(rt, &mut world)?;
    let outcome = world.finish(rt.alloc());
    print_outcome(rt, &outcome).ok()
}

// Searches, and prints the figures.
fn search(rt: &(impl Print + AllocGlobal), world: &mut World<'_, ByBlank>) -> Option<()> {
    if !expand_boards(rt.alloc(), world) {
        return None;
    }
    print_figures(rt, world).ok()
}

/// Runs the world that the arguments after the part's name ask for, and prints its outcome. Returns
/// the exit status.
pub fn run(rt: &(impl Print + AllocGlobal), words: &[String]) -> u8 {
    let Some(setup) = read_words(words) else {
        return 2;
    };
    match run_world(rt, setup) {
        Some(()) => 0,
        None => 1,
    }
}
