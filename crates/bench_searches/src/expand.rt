//! A whole search (hash-distributed A*, Kishimoto, Fukunaga, Botea 2013) by one worker on 4 by 4,
//! with nobody to send packets to. `bench/expand` times it beside the same search in plain Rust.
//!
//! It prints a line when the tables are built, and another when it has stopped. It stops after the
//! count of expansions that it was given, or where the goal is known and no open board can lead to
//! it at a lower cost.

ghost use Rattle.std.specs.Prelude.{◌≡◌, IfSome};
ghost use Rattle.lower_bound.specs.Tables.{ArePotentials};
ghost use Rattle.worker_core.specs.Serving.{Serves};

use board::{Board, Move, Shape, Weights};
use lower_bound::Bound;
use message_ledger::{Allowance, Credit, Grants, Plain, Purse};
use owners::ByBlank;
use quiescence::Book;
use search_keys::KeyedBoard;
use std::alloc::Global;
use std::io::{self, Print};
use test_worlds::bound_of;
use worker_core::laws::tasks_have_guides;
use worker_core::{Ahead, Context, Goal, Successors, Worker};
use world_model::{Item, Refusal};

// A board whose plans cost at least 57 (Korf 1985, the first of his hundred).
static START: [u8; 16] = [14, 13, 15, 7, 11, 12, 9, 5, 6, 0, 2, 1, 4, 8, 10, 3];

// Groups whose tables have some 43,000 values each.
const SMALL_GROUPS: [&[u8]; 5] = [
    &[1, 2, 3],
    &[4, 5, 6],
    &[7, 8, 9],
    &[10, 11, 12],
    &[13, 14, 15],
];

// Groups whose tables have some 5.8 million values each.
const LARGE_GROUPS: [&[u8]; 3] = [&[1, 2, 3, 4, 5], &[6, 7, 8, 9, 10], &[11, 12, 13, 14, 15]];

// Where a search has stopped: after how many expansions, at how many known boards, and the cost
// of the best plan, where one is known.
#[derive(Clone, Copy)]
struct Stop {
    expanded: u64,
    known: usize,
    cost: Option<u32>,
}

// Expands `count` boards, or as many as lead to the goal; None where there is no memory for it.
fn search(alloc: Global, context: &Context<'_, ByBlank>, start: Board, count: u64) -> Option<Stop>
    requires one { context.now.workers ≡ 1 }
    requires start { start.grid ≡ context.now.goal.grid }
{
    let (credit, purse) = Credit::plain();
    let mut worker = begin(alloc, context, start, purse)?;
    let mut book = Book::new(credit, Grants::plain(), count, 1);
    expand_boards(alloc, context, &mut worker, &mut book, count)
}

// Expands `count` boards, or as many as lead to the goal; None where there is no memory for it.
fn expand_boards(
    alloc: Global,
    context: &Context<'_, ByBlank>,
    worker: &mut Worker<Plain>,
    book: &mut Book<Plain>,
    count: u64,
) -> Option<Stop>
    requires one { context.now.workers ≡ 1 }
    requires serves { Serves context.now worker.old }
    requires counted { worker.old.allowance.granted ≡ book.old.granted }
{
    let mut ahead = Ahead::new::<ByBlank>(alloc);
    'boards: for _ in 0..count {
        if !refill(context, worker, book) {
            break;
        }
        match worker.expand(alloc, context, &mut ahead, Successors::All) {
            Ok(()) => {}
            Err(Refusal::NothingBelowLimit) => break,
            Err(_) => return None,
        }
    }
    Some(Stop {
        expanded: worker.expansions(),
        known: worker.lists().len(),
        cost: worker.best().cost(),
    })
}

// A worker that has met the start.
fn begin(
    alloc: Global,
    context: &Context<'_, ByBlank>,
    start: Board,
    purse: Purse<Plain>,
) -> Option<Worker<Plain>>
    requires one { context.now.workers ≡ 1 }
    requires start { start.grid ≡ context.now.goal.grid }
    ensures serves { IfSome result (λ worker. Serves context.now worker) }
    ensures counted { IfSome result (λ worker. worker.allowance.granted ≡ 0) }
{
    tasks_have_guides();
    let _ = context.goal.shape();
    let _ = start.shape();
    let Ok(mut worker) = Worker::new(alloc, 1, purse, Allowance::plain()) else {
        return None;
    };
    let item = Item {
        board: KeyedBoard::new(&start),
        cost: 0,
        via: Move::U,
    };
    let Ok(()) = worker.meet(alloc, context, &item) else {
        return None;
    };
    Some(worker)
}

// Where no allowance is left, announces the goal if it is known, and is granted more. Answers
// whether there is something left to do.
fn refill(
    context: &Context<'_, ByBlank>,
    worker: &mut Worker<Plain>,
    book: &mut Book<Plain>,
) -> bool
    requires one { context.now.workers ≡ 1 }
    requires serves { Serves context.now worker.old }
    requires counted { worker.old.allowance.granted ≡ book.old.granted }
    ensures counted { worker.new.allowance.granted ≡ book.new.granted }
    ensures serves { Serves context.now worker.new }
{
    if worker.allowance() > 0 {
        return true;
    }
    let _ = worker.announce(0, context.goal, &ByBlank, book);
    worker.grant(book).is_ok()
}

// The count of expansions that the arguments name, and the groups for it; or None where they name
// none.
fn read_words(words: &[String]) -> Option<(u64, &'static [&'static [u8]])> {
    let Some(word) = words.first() else {
        return Some((1000, &SMALL_GROUPS));
    };
    let count = word.parse().ok()?;
    Some((count, &LARGE_GROUPS))
}

fn print_stop(rt: &impl Print, stop: Stop) -> io::Result<()> {
    let expanded = stop.expanded;
    let known = stop.known;
    match stop.cost {
        Some(cost) => println!(rt; "expanded {expanded} known {known} cost {cost}"),
        None => println!(rt; "expanded {expanded} known {known}"),
    }
}

// Searches, and prints; None where there is no memory, or nothing can be printed.
fn run_search(rt: &(impl Print + AllocGlobal), count: u64, groups: &[&[u8]]) -> Option<()> {
    let shape = Shape::new(4, 4).ok()?;
    let goal = Board::goal(shape);
    let weights = Weights::unit(shape);
    let bound = bound_of(rt.alloc(), &goal, &weights, groups)?;
    run_guided(rt, &goal, &weights, &bound, count)
}

// Searches by these tables, and prints.
fn run_guided(
    rt: &(impl Print + AllocGlobal),
    goal: &Board,
    weights: &Weights,
    bound: &Bound,
    count: u64,
) -> Option<()>
    requires weights { weights.now.grid ≡ goal.now.grid }
    requires sides { bound.now.split.grid ≡ goal.now.grid }
    requires potentials { ArePotentials weights.now goal.now bound.now }
{
    let start = Board::from_tiles(goal.shape(), &START).ok()?;
    let sum = bound.of(&start);
    println!(rt; "sum {sum}").ok()?;
    let context = Context {
        me: 0,
        workers: 1,
        goal: &Goal::new(goal),
        weights,
        bound,
        owners: &ByBlank,
    };
    let stop = search(rt.alloc(), &context, start, count)?;
    print_stop(rt, stop).ok()
}

/// Makes the search that the arguments after the part's name ask for, and prints where it stopped.
/// Answers the exit status.
pub fn run(rt: &(impl Print + AllocGlobal), words: &[String]) -> u8 {
    let Some((count, groups)) = read_words(words) else {
        return 2;
    };
    match run_search(rt, count, groups) {
        Some(()) => 0,
        None => 1,
    }
}
