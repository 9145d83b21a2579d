//! Finishes worlds of three workers after each beginning of a list of random steps, and prints for
//! each board what they answer: how many bounds and how many plans, and the greatest bound.
//!
//! An answer is wrong that is a bound above the least cost, a bound without rows, a plan at another
//! cost, a bound or a plan whose certificate is refused, or that there is no plan.

ghost use Rattle.std.specs.Prelude.{◌≡◌, []};

use crate::no_tables;
use board::{Board, Shape, Weights};
use certificate::{Certificate, Claim, Parts, Version};
use certificate_check::check;
use hda_run::{Job, World, run_steps};
use lower_bound::Bound;
use memory::OutOfMemory;
use outcomes::Outcome;
use owners::ByBlank;
use pattern_index::Partition;
use rand_core::SeedableRng;
use rand_core::utils::NextWord;
use rand_xoshiro::SplitMix64;
use std::alloc::Global;
use std::io::{self, ErrorKind, Print};
use std::ops::Range;
use world_model::{HaltCause, Step};

// None of these beginnings meets a plan.
const SHORT: Range<usize> = 0..401;

// Of these some meet a plan of each board.
const LONG: Range<usize> = 401..2401;

// The boards of 2 by 2 that the worlds are of, and their least costs.
static BOARDS: [([u8; 4], u32); 2] = [([3, 2, 1, 0], 6), ([1, 0, 2, 3], 1)];

/// Prints what the beginnings answer of two boards.
pub fn print_drawn(rt: &(impl Print + AllocGlobal)) -> io::Result<()> {
    let Ok(steps) = draw_steps(rt.alloc(), LONG.end - 1) else {
        return Err(ErrorKind::OutOfMemory.into());
    };
    print_boards(rt, steps.as_slice())
}

// Prints what the beginnings of these steps answer of two boards.
fn print_boards(rt: &(impl Print + AllocGlobal), steps: &[Step]) -> io::Result<()> {
    for (tiles, least) in &BOARDS {
        print_board(rt, steps, tiles, *least)?;
    }
    Ok(())
}

// Prints what the beginnings answer of a board with this least cost.
fn print_board(
    rt: &(impl Print + AllocGlobal),
    steps: &[Step],
    tiles: &[u8],
    least: u32,
) -> io::Result<()> {
    let shape = Shape::new(2, 2).unwrap();
    let Ok(start) = Board::from_tiles(shape, tiles) else {
        return Err(ErrorKind::InvalidData.into());
    };
    println!(rt; "{tiles:?}, of least cost {least}")?;
    print_tally(rt, steps, SHORT, start, least)?;
    print_tally(rt, steps, LONG, start, least)
}

// Prints what the beginnings of these lengths answer.
fn print_tally(
    rt: &(impl Print + AllocGlobal),
    steps: &[Step],
    lengths: Range<usize>,
    start: Board,
    least: u32,
) -> io::Result<()> {
    let (first, end) = (lengths.start, lengths.end);
    match tally_beginnings(rt.alloc(), steps, lengths, start, least) {
        Some(tally) => println!(rt; "after {first}..{end} steps: {tally:?}"),
        None => Err(ErrorKind::OutOfMemory.into()),
    }
}

// `count` steps of three workers, one for each word of `SplitMix64` from eight zero bytes on.
fn draw_steps(alloc: Global, count: usize) -> Result<Vec<Step>, OutOfMemory> {
    let mut generator = SplitMix64::from_seed([0; 8]);
    let mut steps = Vec::new(alloc);
    for _ in 0..count {
        memory::push(&mut steps, step_of(generator.next_word()))?;
    }
    Ok(steps)
}

// The step that a word says: its kind, and one or two workers.
fn step_of(word: u64) -> Step {
    let first = (word / 16 % 3) as usize;
    let second = (word / 256 % 3) as usize;
    match word % 9 {
        0 => Step::Expand(first),
        1 => Step::Settle(first),
        2 => Step::Send(first, second),
        3 => Step::Deliver(first, second),
        4 => Step::Draw(first),
        5 => Step::Announce(first),
        6 => Step::Grant(first),
        7 => Step::Rest(first),
        _ => Step::Halt(first, HaltCause::Limit),
    }
}

// How many bounds, the greatest of them, how many plans, and how many answers that are wrong.
#[derive(Clone, Copy, Debug)]
struct Tally {
    bounds: u64,
    greatest: u32,
    plans: u64,
    wrong: u64,
}

// What worlds of a board answer after each beginning of these lengths; or None where memory was
// refused, or there is no such beginning.
fn tally_beginnings(
    alloc: Global,
    steps: &[Step],
    lengths: Range<usize>,
    start: Board,
    least: u32,
) -> Option<Tally> {
    let bound = no_tables(alloc, start.shape());
    tally_with(alloc, &bound, steps, lengths, start, least)
}

fn tally_with(
    alloc: Global,
    bound: &Bound,
    steps: &[Step],
    lengths: Range<usize>,
    start: Board,
    least: u32,
) -> Option<Tally>
    requires { (bound.now.lookups ≡ []) × (bound.now.folds ≡ []) }
{
    let mut tally = Tally {
        bounds: 0,
        greatest: 0,
        plans: 0,
        wrong: 0,
    };
    for length in lengths {
        count_after(&mut tally, alloc, bound, steps.get(..length)?, start, least)?;
    }
    Some(tally)
}

// Counts what a world of three workers answers after these steps.
fn count_after(
    tally: &mut Tally,
    alloc: Global,
    bound: &Bound,
    steps: &[Step],
    start: Board,
    least: u32,
) -> Option<()>
    requires { (bound.now.lookups ≡ []) × (bound.now.folds ≡ []) }
{
    let goal = Board::goal(start.shape());
    let weights = Weights::unit(start.shape());
    let job = Job::new(start, goal, weights, bound, u64::MAX).ok()?;
    let outcome = outcome_after(alloc, job, steps)?;
    tally.count(alloc, bound, start, least, outcome);
    Some(())
}

// What a world of three workers answers after these steps.
fn outcome_after(alloc: Global, job: Job<'_>, steps: &[Step]) -> Option<Outcome> {
    let world = World::new(alloc, job, 3, &ByBlank).ok()?;
    Some(run_steps(alloc, world, steps).finish(alloc))
}

impl Tally {
    // Counts an outcome.
    fn count(&mut self, alloc: Global, tables: &Bound, start: Board, least: u32, outcome: Outcome) {
        match outcome {
            Outcome::Optimal { cost, plan, rows } => {
                let claim = Claim::Least { cost, plan };
                let is_accepted = is_accepted(alloc, tables, start, claim, rows);
                self.note_plan(is_accepted && cost == least);
            }
            Outcome::Bounded { bound, rows, .. } => {
                let is_proved = is_proved(alloc, tables, start, bound, rows);
                self.note_bound(bound, is_proved && bound <= least);
            }
            Outcome::Unsolvable { .. } => self.note_wrong(),
        }
    }

    // One more plan, right or wrong.
    fn note_plan(&mut self, is_right: bool) {
        self.plans = self.plans.saturating_add(1);
        if !is_right {
            self.note_wrong();
        }
    }

    // One more bound, right or wrong.
    fn note_bound(&mut self, bound: u32, is_right: bool) {
        self.bounds = self.bounds.saturating_add(1);
        self.greatest = self.greatest.max(bound);
        if !is_right {
            self.note_wrong();
        }
    }

    // One more answer that is wrong.
    fn note_wrong(&mut self) {
        self.wrong = self.wrong.saturating_add(1);
    }
}

// Whether there are rows of a bound, and the checker accepts its certificate with them.
fn is_proved(
    alloc: Global,
    tables: &Bound,
    start: Board,
    bound: u32,
    rows: Option<Vec<(Board, u32)>>,
) -> bool {
    match rows {
        Some(rows) => is_accepted(alloc, tables, start, Claim::Bound { bound }, rows),
        None => false,
    }
}

// Whether the checker accepts the certificate of a claim on plans to Korf's goal with these rows.
fn is_accepted(
    alloc: Global,
    tables: &Bound,
    start: Board,
    claim: Claim,
    rows: Vec<(Board, u32)>,
) -> bool {
    let shape = start.shape();
    let parts = Parts {
        version: Version::Two,
        shape,
        costs: Weights::unit(shape),
        groups: no_groups(alloc, shape),
        start,
        goal: Board::goal(shape),
        claim,
        rows,
    };
    match Certificate::new(parts) {
        Some(certificate) => check(&certificate, tables).is_ok(),
        None => false,
    }
}

// The partition of no group.
fn no_groups(alloc: Global, shape: Shape) -> Partition {
    Partition::new(shape, Vec::new(alloc)).unwrap()
}
