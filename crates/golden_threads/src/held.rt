//! Two workers solve a board, and one of them is held, after its first packet, until the other has
//! settled an item. So this part fails where one thread does all the work, and where a worker that
//! is held keeps the other from its steps; `checks/gate-test` shows both.

ghost use Rattle.lower_bound.specs.Tables.{ArePotentials};

use board::{Board, Shape, Weights};
use hda_run::{Gate, Job, Kind};
use lower_bound::Bound;
use outcomes::Outcome;
use owners::ByBlank;
use std::alloc::Global;
use std::hint::spin_loop;
use std::io::{self, Print};
use std::sync::Wait;
use std::sync::atomic::{AtomicBool, Ordering};
use std::thread::Threads;
use test_worlds::bound_of;
use thread_runs::solve;

// The first move of its plan, the only one, leads from a board of worker 1 to one of worker 0.
const START: [u8; 4] = [1, 0, 2, 3];

const WORKERS: usize = 2;

// The worker that is held, once it has sent its first packet.
const HELD: usize = 1;

// The worker that lets it go by a settled item.
const OTHER: usize = 0;

// How often the held worker looks at most.
const MOST_TURNS: u32 = 50_000_000;

// Holds worker 1 after its first packet until worker 0 has settled an item. Where that doesn't
// come, worker 1 goes on after `MOST_TURNS` turns, and this is noted.
#[derive(Drop)]
struct Hold {
    sent: AtomicBool,
    settled: AtomicBool,
    gave_up: AtomicBool,
}

impl Hold {
    // Of a run in which nothing was sent.
    fn new() -> Self {
        Hold {
            sent: AtomicBool::new(false),
            settled: AtomicBool::new(false),
            gave_up: AtomicBool::new(false),
        }
    }

    // Why a run shows no two threads that work side by side, or None where it shows them.
    fn fault(&self) -> Option<&'static str> {
        if !self.sent.load(Ordering::SeqCst) {
            return Some("worker 1 sent nothing");
        }
        if self.gave_up.load(Ordering::SeqCst) {
            return Some("worker 0 settled nothing while worker 1 was held");
        }
        None
    }

    // Returns when worker 0 has settled an item, or no turn is left.
    fn hold(&self) {
        for _ in 0..MOST_TURNS {
            if self.settled.load(Ordering::SeqCst) {
                return;
            }
            spin_loop();
        }
        self.gave_up.store(true, Ordering::SeqCst);
    }
}

impl Gate for Hold {
    fn pass(&self, worker: usize, kind: Kind) {
        if worker == OTHER && kind == Kind::Settle {
            self.settled.store(true, Ordering::SeqCst);
        }
        if worker == HELD && kind == Kind::Send && !self.sent.swap(true, Ordering::SeqCst) {
            self.hold();
        }
    }
}

/// Prints the cost that was found while a worker was held.
pub fn print_cost<R: Threads + Wait + Print + AllocGlobal + Sync>(rt: &R) -> io::Result<()> {
    let hold = Hold::new();
    let cost = cost_of(rt, rt.alloc(), &hold);
    match hold.fault() {
        Some(fault) => Err(io::Error::other(fault)),
        None => print_found(rt, cost),
    }
}

fn print_found(rt: &impl Print, cost: Option<u32>) -> io::Result<()> {
    let Some(cost) = cost else {
        return Err(io::Error::other("no plan was found"));
    };
    println!(rt; "{START:?}, worker 1 held until worker 0 had settled: cost {cost}")
}

// The cost of a least plan to Korf's goal at unit cost, or None where none is answered.
fn cost_of<R: Threads + Wait + Sync>(rt: &R, alloc: Global, hold: &Hold) -> Option<u32> {
    let shape = Shape::new(2, 2).ok()?;
    let goal = Board::goal(shape);
    let weights = Weights::unit(shape);
    let start = Board::from_tiles(shape, &START).ok()?;
    let bound = bound_of(alloc, &goal, &weights, &[])?;
    cost_with(rt, alloc, start, goal, weights, &bound, hold)
}

// The same with these tables.
fn cost_with<R: Threads + Wait + Sync>(
    rt: &R,
    alloc: Global,
    start: Board,
    goal: Board,
    weights: Weights,
    bound: &Bound,
    hold: &Hold,
) -> Option<u32>
    requires { ArePotentials weights goal bound.now }
{
    let job = Job::new(start, goal, weights, bound, u64::MAX).ok()?;
    cost_in(&outcome_of(rt, alloc, job, hold)?)
}

// What the workers answer, or None where memory was refused.
fn outcome_of<R: Threads + Wait + Sync>(
    rt: &R,
    alloc: Global,
    job: Job<'_>,
    hold: &Hold,
) -> Option<Outcome> {
    solve(rt, alloc, job, WORKERS, &ByBlank, hold).ok()
}

// The cost of the plan in an outcome, or None where there is none.
fn cost_in(outcome: &Outcome) -> Option<u32> {
    match outcome {
        Outcome::Optimal { cost, .. } => Some(*cost),
        _ => None,
    }
}
