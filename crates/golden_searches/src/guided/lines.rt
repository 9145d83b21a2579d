//! Lines whose reports are known.

use crate::guided::tables::bound_of;
use crate::problems::{Costs, weights_of};
use batch_runs::{Setup, SpreadKind};
use board::{Board, Shape};
use byte_streams::{ByteSink, ByteSource};
use hda_run::{Gate, Kind, World};
use owners::Spread;
use setup_runs::run_batch;
use std::alloc::Global;
use std::io::{self, ErrorKind, Print};
use std::sync::Wait;
use std::sync::atomic::{AtomicU64, Ordering};
use std::thread::Threads;
use test_worlds::{Counter, Shown};

/// A line, and what its batch has in common.
#[derive(Clone, Copy)]
pub struct Asked {
    /// How many rows and columns the board has.
    side: u8,
    costs: Costs,
    groups: &'static [&'static [u8]],
    fold: bool,
    limit: u64,
    workers: usize,
    spread: SpreadKind,
    pub line: &'static str,
}

// The goal itself.
const SOLVED: Asked = Asked {
    side: 3,
    costs: Costs::Unit,
    groups: &[],
    fold: false,
    limit: 0,
    workers: 1,
    spread: SpreadKind::Zobrist,
    line: "g 0 1 2 3 4 5 6 7 8",
};

// A board of 5 by 5 that has one plan of five moves.
const LARGE: Asked = Asked {
    side: 5,
    costs: Costs::Unit,
    groups: &[
        &[1],
        &[2],
        &[3],
        &[4],
        &[5],
        &[6],
        &[7],
        &[8],
        &[9],
        &[10],
        &[11],
        &[12],
        &[13],
        &[14],
        &[15],
        &[16],
        &[17],
        &[18],
        &[19],
        &[20],
        &[21],
        &[22],
        &[23],
        &[24],
    ],
    fold: false,
    limit: u64::MAX,
    workers: 1,
    spread: SpreadKind::Zobrist,
    line: "b 1 2 3 4 9 5 6 7 8 0 10 11 12 13 14 15 16 17 18 19 20 21 22 23 24",
};

// As far from the goal as a board of 3 by 3 can be, and nothing may be expanded. The tiles 1 to 8
// are 3, 4, 2, 0, 2, 4, 2 and 4 cells away from their own.
const FAR: Asked = Asked {
    side: 3,
    costs: Costs::Unit,
    groups: &[&[1], &[2], &[3], &[4], &[5], &[6], &[7], &[8]],
    fold: false,
    limit: 0,
    workers: 1,
    spread: SpreadKind::Zobrist,
    line: "h 8 0 6 5 4 7 2 3 1",
};

// The same board, with tables and without a limit.
const PROVED: Asked = Asked {
    groups: &[&[1, 2, 3, 4], &[5, 6, 7, 8]],
    limit: u64::MAX,
    ..FAR
};

// A board that has one plan of 21 moves. Without tables one worker has to expand some 50,000 boards,
// so several share them.
const SHARED: Asked = Asked {
    side: 3,
    costs: Costs::Unit,
    groups: &[],
    fold: false,
    limit: u64::MAX,
    workers: 2,
    spread: SpreadKind::Zobrist,
    line: "s 3 0 4 2 7 1 5 6 8",
};

/// The lines. Those of several workers have one report, whatever their threads do.
pub static LINES: [Asked; 15] = [
    SOLVED,
    LARGE,
    Asked {
        costs: Costs::Face,
        ..LARGE
    },
    FAR,
    Asked {
        costs: Costs::Face,
        ..FAR
    },
    // Only the board itself may be expanded.
    Asked {
        groups: &[],
        limit: 1,
        ..FAR
    },
    Asked {
        workers: 2,
        spread: SpreadKind::Blank,
        ..LARGE
    },
    Asked {
        costs: Costs::Face,
        workers: 4,
        ..LARGE
    },
    Asked { workers: 16, ..FAR },
    // With one tile in a group, and a least value over the blank's places, the sums are the same.
    Asked { fold: true, ..FAR },
    Asked {
        costs: Costs::Face,
        fold: true,
        ..FAR
    },
    Asked {
        costs: Costs::Face,
        fold: true,
        workers: 3,
        ..LARGE
    },
    SHARED,
    Asked {
        spread: SpreadKind::Blank,
        ..SHARED
    },
    Asked {
        workers: 3,
        spread: SpreadKind::Abstract,
        ..SHARED
    },
];

/// The lines whose certificates are written.
pub static CERTIFIED: [Asked; 6] = [
    // The sums leave the start alone to be proved by a row.
    Asked {
        side: 2,
        groups: &[&[1], &[3]],
        line: "x 1 3 0 2",
        ..LARGE
    },
    PROVED,
    Asked {
        workers: 2,
        ..PROVED
    },
    Asked {
        workers: 3,
        spread: SpreadKind::Blank,
        ..PROVED
    },
    // The checker builds whole tables for these too.
    Asked {
        fold: true,
        ..PROVED
    },
    Asked {
        fold: true,
        workers: 2,
        ..PROVED
    },
];

impl Asked {
    /// Prints the line, and what its batch has.
    pub fn print(&self, rt: &impl Print) -> io::Result<()> {
        let Asked {
            costs,
            groups,
            fold,
            limit,
            workers,
            spread,
            line,
            ..
        } = self;
        let kind = if *fold { "folded" } else { "whole" };
        println!(rt;
            "# {line}\n# at {costs:?} cost, {} groups, {kind}, limit {limit}, workers {workers}, by {spread:?}",
            groups.len()
        )
    }
}

/// Prints a line, and the report that a batch makes of it.
pub fn print_report<R: Print + AllocGlobal + Threads + Wait + Sync>(
    rt: &R,
    asked: &Asked,
) -> io::Result<()> {
    asked.print(rt)?;
    match report_of(rt, asked) {
        Some((report, seen)) => print_made(rt, asked, report.as_slice(), &seen),
        None => Err(ErrorKind::InvalidData.into()),
    }
}

// Prints a report, and before it what the gate saw, where one worker does the same each time. Of
// several, it is whether others than the first one took steps.
fn print_made(rt: &impl Print, asked: &Asked, report: &[u8], seen: &Seen) -> io::Result<()> {
    if asked.workers == 1 {
        println!(rt;
            "# {} expansions in {} steps; {} boards met; {} bounds shown, the last {}",
            seen.expanded.expanded(),
            seen.steps.load(Ordering::SeqCst),
            seen.shown.met(),
            seen.shown.times(),
            seen.shown.last()
        )?;
    } else if seen.others.load(Ordering::SeqCst) > 0 {
        rt.println("# shared by all workers")?;
    } else {
        rt.println("# solved by one worker alone")?;
    }
    print_text(rt, report)
}

// What a gate saw: expansions, steps of any kind, those of other workers than the first one, and what
// it was shown.
#[derive(Drop)]
struct Seen {
    expanded: Counter,
    steps: AtomicU64,
    others: AtomicU64,
    shown: Shown,
}

impl Seen {
    // A gate that no step has passed.
    fn new() -> Self {
        Seen {
            expanded: Counter::new(),
            steps: AtomicU64::new(0),
            others: AtomicU64::new(0),
            shown: Shown::new(),
        }
    }
}

impl Gate for Seen {
    fn pass(&self, worker: usize, kind: Kind) {
        self.expanded.pass(worker, kind);
        let _ = self.steps.fetch_add(1, Ordering::SeqCst);
        if worker > 0 {
            let _ = self.others.fetch_add(1, Ordering::SeqCst);
        }
    }

    fn meet(&self, boards: usize) {
        self.shown.meet(boards);
    }

    fn wants_bound(&self) -> bool {
        true
    }

    fn show_bound<S: Spread>(&self, world: &World<'_, S>, bound: Option<u32>) {
        self.shown.show_bound(world, bound);
    }
}

// The report of a line, and what the gate saw; or None where memory was refused.
fn report_of<R: AllocGlobal + Threads + Wait + Sync>(
    rt: &R,
    asked: &Asked,
) -> Option<(Vec<u8>, Seen)> {
    let setup = setup_of(rt, rt.alloc(), asked)?;
    report_by(rt, &setup, asked.line)
}

fn report_by<R: AllocGlobal + Threads + Wait + Sync>(
    rt: &R,
    setup: &Setup,
    line: &str,
) -> Option<(Vec<u8>, Seen)> {
    let mut source = ByteSource::new(line.as_bytes());
    let mut sink = ByteSink::new(Vec::new(rt.alloc()));
    let seen = Seen::new();
    run_batch(rt, rt.alloc(), &mut source, &mut sink, setup, &seen).ok()?;
    Some((sink.into_inner(), seen))
}

/// Prints bytes that are UTF-8.
pub fn print_text(rt: &impl Print, bytes: &[u8]) -> io::Result<()> {
    match str::from_utf8(bytes) {
        Ok(text) => rt.println(text),
        Err(_) => Err(ErrorKind::InvalidData.into()),
    }
}

/// The setup of a line's batch, or None where memory was refused.
pub fn setup_of<R: Threads + Sync>(rt: &R, alloc: Global, asked: &Asked) -> Option<Setup> {
    let shape = Shape::new(asked.side, asked.side).ok()?;
    let goal = Board::goal(shape);
    let weights = weights_of(asked.costs, shape);
    let bound = bound_of(rt, alloc, &goal, &weights, asked.groups)?;
    let setup = Setup::new(alloc, goal, weights)
        .bound(bound)
        .limit(asked.limit)
        .spread(asked.spread);
    let setup = setup.workers(asked.workers).ok()?;
    if asked.fold {
        return setup.folded(alloc).ok();
    }
    Some(setup)
}
