//! Worlds of several workers, opened and finished.

ghost use Rattle.std.specs.Prelude.{◌≡◌, [], IfSome};

use super::searches::{judge, no_tables};
use super::{Answer, refused_if, whole_if};
use board::{Board, Shape, Weights};
use hda_run::{Job, World, WorldFault};
use lower_bound::Bound;
use owners::ByBlank;
use std::alloc::Global;
use world_model::{Step, Stop};

const WORKERS: usize = 3;

// More turns of all workers than they take.
const TURNS: u32 = 60;

// More items than one packet has here.
const ITEMS: u32 = 4;

// A board of 2 by 2 whose least plans have six moves, and worker 0 owns it.
fn start() -> Option<Board> {
    Board::from_tiles(Shape::new(2, 2).unwrap(), &[3, 2, 1, 0]).ok()
}

// The job to solve it for Korf's goal at unit cost.
fn job_of<'a>(start: Board, bound: &'a Bound) -> Option<Job<'a>>
    requires { (bound.now.lookups ≡ []) × (bound.now.folds ≡ []) }
{
    let shape = start.shape();
    Job::new(
        start,
        Board::goal(shape),
        Weights::unit(shape),
        bound,
        u64::MAX,
    )
    .ok()
}

/// Makes the call of this name, or answers None where it is none of these.
pub fn call(alloc: Global, name: &str) -> Option<Answer> {
    match name {
        "world" => Some(make(alloc, false)),
        "finish" => Some(make(alloc, true)),
        _ => None,
    }
}

// Opens a world, or finishes it too.
fn make(alloc: Global, is_finished: bool) -> Answer {
    let Some(start) = start() else {
        return Answer::Wrong("no board");
    };
    make_by(alloc, start, &no_tables(alloc, start.shape()), is_finished)
}

// Opens a world, or finishes it too, with the bound of no group.
fn make_by(alloc: Global, start: Board, bound: &Bound, is_finished: bool) -> Answer
    requires { (bound.now.lookups ≡ []) × (bound.now.folds ≡ []) }
{
    match job_of(start, bound) {
        Some(job) if is_finished => finish_world(alloc, &start, job),
        Some(job) => open_world(alloc, job),
        None => Answer::Wrong("no job"),
    }
}

// Opens a world.
fn open_world(alloc: Global, job: Job<'_>) -> Answer {
    match World::new(alloc, job, WORKERS, &ByBlank) {
        Ok(world) => whole_if(is_opening(&world), "another world"),
        Err(fault) => refused_if(matches!(fault, WorldFault::Memory(_)), "another fault"),
    }
}

// Whether worker 0 knows one board, and the others know none.
fn is_opening(world: &World<'_, ByBlank>) -> bool {
    for number in 0..world.workers() {
        let known = world.worker(number).lists().len();
        if known != (number == 0) as usize {
            return false;
        }
    }
    world.workers() == WORKERS && world.book().stop().is_none()
}

// Finishes a world whose workers have ended. A step for which memory is refused is taken in a later
// turn.
fn finish_world(alloc: Global, start: &Board, job: Job<'_>) -> Answer {
    match World::new(alloc, job, WORKERS, &ByBlank) {
        Ok(world) => finish(alloc, start, world),
        Err(_) => Answer::Refused,
    }
}

// Finishes this world, where its workers come to an end.
fn finish(alloc: Global, start: &Board, mut world: World<'_, ByBlank>) -> Answer {
    if !is_ended(alloc, &mut world) {
        return Answer::Wrong("no end");
    }
    let outcome = world.finish(alloc);
    judge(&outcome, start, &Weights::unit(start.shape()), Some(6))
}

// Lets the workers of a world take turns, and answers whether they have ended.
fn is_ended(alloc: Global, world: &mut World<'_, ByBlank>) -> bool {
    for _ in 0..TURNS {
        for me in 0..WORKERS {
            take_turn(alloc, world, me);
        }
    }
    matches!(world.book().stop(), Some(Stop::Quiet))
}

// A worker takes each of its steps that is lawful now.
fn take_turn(alloc: Global, world: &mut World<'_, ByBlank>, me: usize) {
    for other in 0..WORKERS {
        take(alloc, world, Step::Deliver(me, other));
        for _ in 0..ITEMS {
            take(alloc, world, Step::Settle(me));
        }
    }
    take(alloc, world, Step::Grant(me));
    take(alloc, world, Step::Expand(me));
    take(alloc, world, Step::Announce(me));
    take(alloc, world, Step::Draw(me));
    for other in 0..WORKERS {
        take(alloc, world, Step::Send(me, other));
    }
    take(alloc, world, Step::Rest(me));
}

// A world takes a step, where it is lawful now and finds memory.
fn take(alloc: Global, world: &mut World<'_, ByBlank>, step: Step) {
    let _ = world.step(alloc, step);
}
