//! The jobs, and the lists of steps.

use test_worlds::Division;
use world_model::Step;

/// What moves cost.
#[derive(Clone, Copy)]
pub enum Costs {
    /// Every move costs 1.
    Unit,
    /// To move tile t costs t.
    Face,
}

impl Costs {
    /// The word for it.
    pub fn word(self) -> &'static str {
        match self {
            Costs::Unit => "unit",
            Costs::Face => "face",
        }
    }
}

/// A job that one worker solves alone: to lead a board to Korf's goal.
#[derive(Clone, Copy)]
pub struct Case {
    pub title: &'static str,
    /// How many rows and columns the board has.
    pub side: u8,
    pub start: &'static [u8],
    pub costs: Costs,
    /// The groups of tiles by whose tables the search is led.
    pub groups: &'static [&'static [u8]],
    /// The limit on expansions.
    pub limit: u64,
    pub division: Division,
    /// Whether plans are printed move by move: where only one has the least cost.
    pub shows_moves: bool,
}

// A group for each tile: a board's sum is its Manhattan distance, each slide at its cost.
const EACH_TILE: &[&[u8]] = &[&[1], &[2], &[3], &[4], &[5], &[6], &[7], &[8]];

// Two moves from the goal.
const NEAR: Case = Case {
    title: "Two moves away",
    side: 3,
    start: &[1, 2, 0, 3, 4, 5, 6, 7, 8],
    costs: Costs::Unit,
    groups: &[],
    limit: u64::MAX,
    division: Division::ByBlank,
    shows_moves: true,
};

// As far from the goal as a board of 3 by 3 can be.
const FAR: Case = Case {
    title: "Thirty-one moves away",
    start: &[8, 0, 6, 5, 4, 7, 2, 3, 1],
    shows_moves: false,
    ..NEAR
};

// As far as a board of 2 by 2 can be: half of the ring that all boards of a class make.
const HALF_RING: Case = Case {
    title: "Both ways round the ring of 2 by 2 are least",
    side: 2,
    start: &[3, 2, 1, 0],
    shows_moves: false,
    ..NEAR
};

/// The jobs.
pub static CASES: [Case; 13] = [
    NEAR,
    Case {
        title: "Two moves away, at face cost",
        costs: Costs::Face,
        division: Division::ByHash,
        ..NEAR
    },
    Case {
        title: "The goal needs no expansion",
        start: &[0, 1, 2, 3, 4, 5, 6, 7, 8],
        limit: 0,
        ..NEAR
    },
    HALF_RING,
    Case {
        title: "Both ways are least at face cost too",
        costs: Costs::Face,
        division: Division::ByHash,
        ..HALF_RING
    },
    Case {
        title: "The other class",
        start: &[0, 2, 1, 3],
        ..HALF_RING
    },
    Case {
        title: "One move away",
        start: &[2, 1, 0, 3],
        shows_moves: true,
        ..HALF_RING
    },
    Case {
        title: "One move away, at face cost",
        start: &[2, 1, 0, 3],
        costs: Costs::Face,
        shows_moves: true,
        ..HALF_RING
    },
    FAR,
    Case {
        title: "Thirty-one moves away, with a table for each tile",
        groups: EACH_TILE,
        division: Division::ByHash,
        ..FAR
    },
    Case {
        title: "Nothing may be expanded, so the bound is the start's sum",
        groups: EACH_TILE,
        limit: 0,
        ..FAR
    },
    Case {
        title: "Nothing may be expanded, at face cost",
        costs: Costs::Face,
        groups: EACH_TILE,
        limit: 0,
        ..FAR
    },
    Case {
        title: "Only the start may be expanded",
        limit: 1,
        ..FAR
    },
];

/// A list of steps that workers take for the board of 2 by 2 with its blank one move from home.
#[derive(Clone, Copy)]
pub struct Run {
    pub title: &'static str,
    pub workers: usize,
    pub division: Division,
    pub steps: &'static [Step],
}

/// The board.
pub const RUN_START: [u8; 4] = [1, 0, 2, 3];

// Worker 1 owns the start, worker 0 the goal.
const SENT: &[Step] = &[
    Step::Grant(1),
    Step::Expand(1),
    Step::Send(1, 0),
    Step::Draw(1),
    Step::Send(1, 0),
];

const SOLVED: &[Step] = &[
    Step::Grant(1),
    Step::Expand(1),
    Step::Send(1, 0),
    Step::Draw(1),
    Step::Send(1, 0),
    Step::Deliver(0, 1),
    Step::Settle(0),
    Step::Announce(0),
    Step::Rest(0),
    Step::Rest(1),
];

// Worker 0 owns the start and the goal, worker 1 the boards whose blank is in the last row.
const SOLVED_BY_ROW: &[Step] = &[
    Step::Grant(0),
    Step::Expand(0),
    Step::Announce(0),
    Step::Send(0, 1),
    Step::Draw(0),
    Step::Send(0, 1),
    Step::Deliver(1, 0),
    Step::Settle(1),
    Step::Rest(1),
    Step::Rest(2),
    Step::Rest(0),
];

/// The lists.
pub static RUNS: [Run; 5] = [
    Run {
        title: "Two workers find a plan, and rest",
        workers: 2,
        division: Division::ByBlank,
        steps: SOLVED,
    },
    Run {
        title: "The goal is still in a lane",
        workers: 2,
        division: Division::ByBlank,
        steps: SENT,
    },
    Run {
        title: "Three workers, of whom one owns no board",
        workers: 3,
        division: Division::ByRow,
        steps: SOLVED_BY_ROW,
    },
    Run {
        title: "No worker",
        workers: 0,
        division: Division::ByBlank,
        steps: SOLVED,
    },
    Run {
        title: "More workers than there may be",
        workers: 17,
        division: Division::ByBlank,
        steps: SOLVED,
    },
];
