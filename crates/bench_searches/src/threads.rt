//! Solves boards at the end of drawn walks by workers in threads, and prints for each what they
//! answer, where one worker answers the same. `checks/stress` makes many such runs.

ghost use Rattle.std.specs.Prelude.{◌<◌, ◌≡◌, IfSome};
ghost use Rattle.lower_bound.specs.Tables.{ArePotentials};

use board::{Board, Move, Shape, Weights};
use hda_run::Free;
use rand_core::SeedableRng;
use rand_core::utils::NextWord;
use rand_xoshiro::SplitMix64;
use std::alloc::Global;
use std::io::{self, Print};
use std::sync::Wait;
use std::thread::Threads;
use test_worlds::{
    Answer, Division, Problem, Team, answer_with_rows, answer_without_rows, bound_of,
};

// A group for each tile.
static GROUPS: [&[u8]; 15] = [
    &[1],
    &[2],
    &[3],
    &[4],
    &[5],
    &[6],
    &[7],
    &[8],
    &[9],
    &[10],
    &[11],
    &[12],
    &[13],
    &[14],
    &[15],
];

// Draws by the words of `SplitMix64` from a seed on.
#[derive(Drop)]
struct Drawing {
    generator: SplitMix64,
}

impl Drawing {
    // What this seed draws.
    fn new(seed: u64) -> Self {
        Drawing {
            generator: SplitMix64::from_seed(seed.to_le_bytes()),
        }
    }

    // A number below a count.
    fn number(&mut self, count: u64) -> u64
        requires { 0 < count }
        ensures { result < count }
    {
        self.generator.next_word() % count
    }

    // The board to which this many drawn moves lead from Korf's goal. A move that would leave the
    // board is left out.
    fn board(&mut self, shape: Shape, moves: u32) -> Board {
        let mut board = Board::goal(shape);
        for _ in 0..moves {
            let place = self.number(4) as usize;
            board = moved(board, Move::ALL[place]);
        }
        board
    }
}

// The board after a move, or itself where there is no such move.
fn moved(board: Board, direction: Move) -> Board {
    match board.step(direction, &Weights::unit(board.shape())) {
        Some((next, _)) => next,
        None => board,
    }
}

// What moves cost.
#[derive(Clone, Copy)]
enum Costs {
    Unit,
    Face,
}

impl Costs {
    // The word for it.
    fn word(self) -> &'static str {
        match self {
            Costs::Unit => "unit",
            Costs::Face => "face",
        }
    }

    // What the moves of boards of this shape cost.
    fn weights(self, shape: Shape) -> Weights
        ensures { result.grid ≡ shape }
    {
        match self {
            Costs::Unit => Weights::unit(shape),
            Costs::Face => Weights::face(shape),
        }
    }
}

// The board at the end of a walk, and who solves it.
#[derive(Clone, Copy)]
struct Walk {
    start: Board,
    costs: Costs,
    team: Team,
}

// The next walk that is drawn: on 3 by 3, long enough to lead anywhere, or on 4 by 4, so short that
// its board is solved within a second; for two to sixteen workers.
fn walk_of(drawing: &mut Drawing) -> Option<Walk> {
    let (side, moves) = match drawing.number(2) {
        0 => (3, 250),
        _ => (4, 90),
    };
    let costs = match drawing.number(2) {
        0 => Costs::Unit,
        _ => Costs::Face,
    };
    let division = match drawing.number(3) {
        0 => Division::ByBlank,
        1 => Division::ByHash,
        _ => Division::ByTiles,
    };
    let workers = drawing.number(15) as usize + 2;
    let shape = Shape::new(side, side).ok()?;
    Some(Walk {
        start: drawing.board(shape, moves),
        costs,
        team: Team { workers, division },
    })
}

// What one worker answers of the board, and what its team does, whose plan the checker has to
// accept. None where memory was refused.
fn answers_to<R: Threads + Wait + Sync>(
    rt: &R,
    alloc: Global,
    walk: &Walk,
) -> Option<(Answer, Answer)> {
    let shape = walk.start.shape();
    let problem = Problem {
        start: walk.start,
        goal: Board::goal(shape),
        weights: walk.costs.weights(shape),
        limit: u64::MAX,
    };
    let tiles = shape.cells() - 1;
    let bound = bound_of(alloc, &problem.goal, &problem.weights, GROUPS.get(..tiles)?)?;
    let alone = Team {
        workers: 1,
        division: Division::ByBlank,
    };
    let one = answer_without_rows(rt, alloc, &problem, &bound, alone, &Free);
    let many = answer_with_rows(rt, alloc, &problem, &bound, walk.team, &Free);
    Some((one, many))
}

// The seed and the count that the arguments name, or None where they name none.
fn read_words(words: &[String]) -> Option<(u64, u64)> {
    let mut words = words.iter();
    let Some(seed) = words.next() else {
        return Some((1, 6));
    };
    let seed = seed.parse().ok()?;
    let count = words.next()?.parse().ok()?;
    Some((seed, count))
}

// Solves a board that is drawn, and prints the answer. Answers whether one worker answers the same.
fn solve_next<R: Threads + Wait + Print + AllocGlobal + Sync>(
    rt: &R,
    drawing: &mut Drawing,
) -> bool {
    let Some(walk) = walk_of(drawing) else {
        return false;
    };
    let Some((one, many)) = answers_to(rt, rt.alloc(), &walk) else {
        return false;
    };
    let _ = print_walk(rt, &walk);
    let _ = println!(rt; "{many:?}");
    if one != many {
        let _ = println!(rt; "one worker: {one:?}");
    }
    one == many
}

// Prints what was solved, and by whom.
fn print_walk(rt: &impl Print, walk: &Walk) -> io::Result<()> {
    let shape = walk.start.shape();
    let (rows, cols) = (shape.rows(), shape.cols());
    let (workers, word) = (walk.team.workers, walk.team.division.word());
    print!(rt;
        "{rows} by {cols}, {} cost, {workers} workers by the {word}: ",
        walk.costs.word()
    )
}

/// Solves the boards that the arguments after the part's name ask for, and prints the answers.
/// Returns the exit status: 1 where an answer differs from that of one worker, or memory was refused.
pub fn run<R: Threads + Wait + Print + AllocGlobal + Sync>(rt: &R, words: &[String]) -> u8 {
    let Some((seed, count)) = read_words(words) else {
        return 2;
    };
    let mut drawing = Drawing::new(seed);
    for _ in 0..count {
        if !solve_next(rt, &mut drawing) {
            return 1;
        }
    }
    0
}
