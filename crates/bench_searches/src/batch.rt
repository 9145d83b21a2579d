//! A batch with tables: the lines on standard input are answered on standard output, by the groups
//! that are the default for their shape. `bench/batch` times it.
//!
//! Standard error has a line when the tables are built, and one at the end: how many lines are
//! optimal, unsolvable, bounded and refused, and how many boards were expanded for them. To count
//! these takes time, so `uncounted` leaves it out, and 0 is printed.

use batch_lines::default_groups;
use batch_runs::{Setup, SpreadKind, Summary};
use board::{Board, Shape, Weights};
use byte_streams::{BufferedSource, ByteSink, Sink, Source};
use hda_run::{Free, Gate, Kind};
use memory::OutOfMemory;
use setup_runs::run_batch;
use std::alloc::Global;
use std::array;
use std::io::{self, BufWriter, Eprint, Read, Write};
use std::sync::Wait;
use std::sync::atomic::{AtomicU64, Ordering};
use std::thread::Threads;
use table_sets::{build_bound, build_folded_bound};
use world_model::WORKER_LIMIT;

// How many counts there are from one worker's on to the next one's: as many as a cache line and the
// one that is fetched beside it have, so that workers don't wait for one another's.
const STRIDE: usize = 16;

// A gate that counts the boards that each worker expands.
#[derive(Drop)]
struct Counter {
    expanded: [AtomicU64; STRIDE * WORKER_LIMIT],
}

impl Gate for Counter {
    fn pass(&self, worker: usize, kind: Kind) {
        if kind != Kind::Expand || worker >= WORKER_LIMIT {
            return;
        }
        // Nobody else writes the count of this worker, so no lock of the bus is needed.
        let count = &self.expanded[worker * STRIDE];
        count.store(
            count.load(Ordering::Relaxed).wrapping_add(1),
            Ordering::Relaxed,
        );
    }
}

impl Counter {
    fn new() -> Self {
        Counter {
            expanded: array::from_fn(|_| AtomicU64::new(0)),
        }
    }

    // How many boards were expanded by all.
    fn total(&self) -> u64 {
        let mut total = 0u64;
        for count in &self.expanded {
            total = total.saturating_add(count.load(Ordering::Relaxed));
        }
        total
    }
}

// What the arguments ask for.
#[derive(Clone, Copy)]
struct Asked {
    shape: Shape,
    workers: usize,
    spread: SpreadKind,
    fold: bool,
    counted: bool,
}

// What the arguments ask for, or None where they are none of a batch.
fn read_words(words: &[String]) -> Option<Asked> {
    let mut words = words.iter();
    let Some(rows) = words.next() else {
        return by_one(3, 3);
    };
    let rows = rows.parse().ok()?;
    let cols = words.next()?.parse().ok()?;
    let by_one = by_one(rows, cols)?;
    let Some(workers) = words.next() else {
        return Some(by_one);
    };
    let workers = workers.parse().ok()?;
    let spread = match words.next() {
        Some(word) => read_spread(word)?,
        None => SpreadKind::Zobrist,
    };
    let fold = match words.next() {
        Some(word) => word.as_str() == "fold",
        None => false,
    };
    let counted = words.next().is_none();
    Some(Asked {
        workers,
        spread,
        fold,
        counted,
        ..by_one
    })
}

// Boards of this shape by one worker.
fn by_one(rows: u8, cols: u8) -> Option<Asked> {
    Some(Asked {
        shape: Shape::new(rows, cols).ok()?,
        workers: 1,
        spread: SpreadKind::Zobrist,
        fold: false,
        counted: true,
    })
}

fn read_spread(word: &str) -> Option<SpreadKind> {
    match word {
        "zobrist" => Some(SpreadKind::Zobrist),
        "blank" => Some(SpreadKind::Blank),
        "abstract" => Some(SpreadKind::Abstract),
        _ => None,
    }
}

// The setup that is asked for, or the exit status where there is none.
fn setup_of(rt: &(impl Threads + AllocGlobal + Sync), asked: &Asked) -> Result<Setup, u8> {
    let Ok(setup) = guided_setup(rt, rt.alloc(), asked.shape, asked.fold) else {
        return Err(4);
    };
    match setup.spread(asked.spread).workers(asked.workers) {
        Ok(setup) => Ok(setup),
        Err(_) => Err(2),
    }
}

// The setup for boards of a shape: Korf's goal, unit costs, and tables for the default groups,
// whole or folded.
fn guided_setup(
    rt: &(impl Threads + Sync),
    alloc: Global,
    shape: Shape,
    fold: bool,
) -> Result<Setup, OutOfMemory> {
    let goal = Board::goal(shape);
    let weights = Weights::unit(shape);
    let groups = default_groups(alloc, shape)?;
    if fold {
        let bound = build_folded_bound(rt, alloc, groups, &goal, &weights)?;
        return Ok(Setup::new(alloc, goal, weights).bound(bound));
    }
    let bound = build_bound(rt, alloc, groups, &goal, &weights)?;
    Ok(Setup::new(alloc, goal, weights).bound(bound))
}

// Answers the lines of the source, and prints the counts.
fn run_lines<R: Threads + Wait + Eprint + AllocGlobal + Sync, S: Source, K: Sink>(
    rt: &R,
    source: &mut S,
    sink: &mut K,
    setup: &Setup,
    counted: bool,
) -> Option<()> {
    let _ = eprintln!(rt; "tables are built");
    let (counts, expanded) = if counted {
        run_counted(rt, source, sink, setup)?
    } else {
        run_uncounted(rt, source, sink, setup)?
    };
    print_counts(rt, counts, expanded).ok()
}

// Answers the lines of the source, and how many boards were expanded for them.
fn run_counted<R: Threads + Wait + AllocGlobal + Sync, S: Source, K: Sink>(
    rt: &R,
    source: &mut S,
    sink: &mut K,
    setup: &Setup,
) -> Option<(Summary, u64)> {
    let counter = Counter::new();
    let counts = run_batch(rt, rt.alloc(), source, sink, setup, &counter).ok()?;
    Some((counts, counter.total()))
}

// Answers the lines of the source, and 0 in place of how many boards were expanded.
fn run_uncounted<R: Threads + Wait + AllocGlobal + Sync, S: Source, K: Sink>(
    rt: &R,
    source: &mut S,
    sink: &mut K,
    setup: &Setup,
) -> Option<(Summary, u64)> {
    let counts = run_batch(rt, rt.alloc(), source, sink, setup, &Free).ok()?;
    Some((counts, 0))
}

fn print_counts(
    rt: &(impl Eprint + AllocGlobal),
    counts: Summary,
    expanded: u64,
) -> io::Result<()> {
    let Summary {
        optimal,
        unsolvable,
        bounded,
        refused,
    } = counts;
    eprintln!(rt;
        "optimal {optimal} unsolvable {unsolvable} bounded {bounded} refused {refused} expanded {expanded}"
    )
}

// Answers the lines of the input by a setup. Answers the exit status.
fn run_input<R, I, O>(rt: &R, setup: &Setup, counted: bool, input: I, output: O) -> u8
where
    R: Threads + Wait + Eprint + AllocGlobal + Sync,
    I: Read + Drop,
    O: Write + Drop,
{
    match BufferedSource::new(rt.alloc(), input) {
        Ok(source) => {
            let mut source = source;
            run_source(rt, setup, counted, &mut source, output)
        }
        Err(_) => 4,
    }
}

// Answers the lines of the source on an output. Answers the exit status.
fn run_source<R, S, O>(rt: &R, setup: &Setup, counted: bool, source: &mut S, output: O) -> u8
where
    R: Threads + Wait + Eprint + AllocGlobal + Sync,
    S: Source,
    O: Write + Drop,
{
    let Ok(writer) = BufWriter::new(rt.alloc(), output) else {
        return 4;
    };
    let mut sink = ByteSink::new(writer);
    match run_lines(rt, source, &mut sink, setup, counted) {
        Some(()) => 0,
        None => 3,
    }
}

/// Answers the lines of the input as the arguments after the part's name ask for. Returns the exit
/// status.
pub fn run<R, I, O>(rt: &R, words: &[String], input: I, output: O) -> u8
where
    R: Threads + Wait + Eprint + AllocGlobal + Sync,
    I: Read + Drop,
    O: Write + Drop,
{
    let Some(asked) = read_words(words) else {
        return 2;
    };
    match setup_of(rt, &asked) {
        Ok(setup) => run_input(rt, &setup, asked.counted, input, output),
        Err(status) => status,
    }
}
