//! Pairs of lines in one batch. The second line is solved over the memory that the first one left.

use crate::alone::{Answer, End, page, report};
use batch_runs::Setup;
use board::{Board, Shape, Weights};
use std::alloc::Global;
use std::sync::Wait;
use std::thread::Threads;

/// Two lines with boards of 2 by 2, which are solved for Korf's goal at unit cost.
#[derive(Clone, Copy)]
pub struct Pair {
    pub name: &'static str,
    workers: usize,
    lines: &'static str,
    // The reports that are due, and the cost of the first board.
    first: &'static str,
    second: &'static str,
    cost: u8,
}

// The reports of a board one move from the goal.
const EASY_FIRST: &str = "{\"cost\":1,\"id\":\"r\",\"plan\":\"L\",\"status\":\"optimal\"}\n";

const EASY_SECOND: &str = "{\"cost\":1,\"id\":\"s\",\"plan\":\"L\",\"status\":\"optimal\"}\n";

// The reports of a board five moves from the goal.
const HARD_FIRST: &str = "{\"cost\":5,\"id\":\"r\",\"plan\":\"URDLU\",\"status\":\"optimal\"}\n";

const HARD_SECOND: &str = "{\"cost\":5,\"id\":\"s\",\"plan\":\"URDLU\",\"status\":\"optimal\"}\n";

// The second board needs what the first one needed.
const ALIKE: Pair = Pair {
    name: "lines-alike",
    workers: 1,
    lines: "r 1 0 2 3\ns 1 0 2 3\n",
    first: EASY_FIRST,
    second: EASY_SECOND,
    cost: 1,
};

// The second board needs more.
const HARDER: Pair = Pair {
    name: "lines-harder",
    lines: "r 1 0 2 3\ns 3 2 0 1\n",
    second: HARD_SECOND,
    ..ALIKE
};

// The second board needs less.
const EASIER: Pair = Pair {
    name: "lines-easier",
    lines: "r 3 2 0 1\ns 1 0 2 3\n",
    first: HARD_FIRST,
    cost: 5,
    ..ALIKE
};

/// The pairs that one worker solves, which starts no threads.
pub static ALONE: [Pair; 3] = [ALIKE, HARDER, EASIER];

/// The pair that several workers solve. They share a board for which one of them lacks memory.
pub const SHARED: Pair = Pair {
    name: "lines-shared",
    workers: 2,
    ..HARDER
};

/// Reports a pair, and judges the reports.
pub fn call<R: Threads + Wait + AllocGlobal + Sync>(rt: &R, pair: &Pair) -> Answer {
    let Some(setup) = setup_for(rt.alloc(), pair.workers) else {
        return Answer::Wrong("no setup");
    };
    let Ok(mut page) = page(rt.alloc()) else {
        return Answer::Refused;
    };
    let end = report(rt, &setup, pair.lines, &mut page);
    judge(end, &page.into_inner(), pair)
}

// Korf's goal of 2 by 2 at unit cost, for this many workers. It takes no memory.
fn setup_for(alloc: Global, workers: usize) -> Option<Setup> {
    let shape = Shape::new(2, 2).unwrap();
    let setup = Setup::new(alloc, Board::goal(shape), Weights::unit(shape));
    setup.workers(workers).ok()
}

// Judges the reports, where one allocation was refused at most. The first line may lack its answer.
// The second one may lack no more than its report: where a search is refused memory over lists that
// served before, it begins anew.
fn judge(end: End, written: &[u8], pair: &Pair) -> Answer {
    let (first, second) = cut(written);
    let is_first_due = first == pair.first.as_bytes();
    match end {
        End::Fault => Answer::Wrong("another fault"),
        End::NoMemory if written.is_empty() => Answer::Lacks("first unreported"),
        End::NoMemory if is_first_due && second.is_empty() => Answer::Lacks("second unreported"),
        End::NoMemory => Answer::Wrong("both lines lack memory"),
        End::Status(_) if second != pair.second.as_bytes() => Answer::Wrong(
            "another second report",
        ),
        End::Status(_) if is_first_due => Answer::Whole,
        End::Status(_) => judge_first(first, pair.cost),
    }
}

// Cuts reports in two behind the first line feed.
fn cut(written: &[u8]) -> (&[u8], &[u8]) {
    'bytes: for place in 0..written.len() {
        if written[place] == b'\n' {
            return (&written[..=place], &written[place + 1..]);
        }
    }
    (written, &[])
}

// Judges the first report, where it isn't the one that is due.
fn judge_first(report: &[u8], cost: u8) -> Answer {
    let refused = b"{\"fault\":\"V3\",\"line\":1,\"status\":\"refused\"}\n";
    if report == refused.as_slice() {
        return Answer::Lacks("first refused");
    }
    for bound in 0..=cost {
        if is_bound(report, bound) {
            return Answer::Lacks("first bounded");
        }
    }
    Answer::Wrong("another first report")
}

// Whether a report gives this bound without a plan, for memory.
fn is_bound(report: &[u8], bound: u8) -> bool {
    let mut due =
        *b"{\"best\":null,\"bound\":0,\"cause\":\"memory\",\"id\":\"r\",\"status\":\"bounded\"}\n";
    due[21] = b'0'.wrapping_add(bound);
    report == due.as_slice()
}
