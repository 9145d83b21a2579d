//! Boards of several lines, which are solved side by side before their lines are taken.

ghost use Rattle.std.specs.Prelude.{◌≡◌, ◌<◌, ◌≤◌, All, IfSome, IfNone, IfOk, OnErr, IsErrOf, IsTrue};
ghost use Rattle.std.specs.Prelude.{◌⊎◌, IsFalse, Some, None};
ghost use Rattle.batch_runs.specs.Batches.{AreAllowed};
ghost use Rattle.batch_runs.specs.Setups.{SetupModel};
ghost use Rattle.setup_runs.specs.Ahead.{HasSides, LacksMemory, IsEndedAlone, IsTooHard};
ghost use Rattle.setup_runs.specs.Ahead.{IsTried, AreTried};
ghost use Rattle.hda_run.specs.WholeRuns.{EndsWholeRun};
ghost use Rattle.setup_runs.specs.Solving.{MayAnswer, IsNoBound, HasStats, rules_of};
ghost use Rattle.setup_runs.specs.declared.ahead.Left.TheVariants.{TooHard};

use crate::solving::{ENOUGH_EXPANDED, Question, TellsBounds, read_over, solved_since};
use crate::watching::Watch;
use batch_lines::{LineKind, LineReader, read_entry};
use batch_runs::{Setup, Solved};
use board::{Board, Shape};
use byte_streams::ByteSource;
use memory::{OutOfMemory, push};
use outcomes::{Cause, Ending, Want};
use owners::{ByBlank, Spread};
use search_lists::SearchLists;
use std::alloc::Global;
use std::sync::{Mutex, Wait};
use std::thread::{Threads, for_each_mut};
use world_ends::{EndingWithFigures, WithFigures};

// The most cells of a small board. One worker ends such a board sooner than several could begin it.
const SMALL_CELLS: usize = 9;

// The fewest small boards that are worth threads of their own, and the fewest others.
const FEWEST_SMALL: usize = 16;

const FEWEST_BOARDS: usize = 2;

// The most lines that are looked at ahead.
const MOST_LINES: u32 = 4096;

/// A board that one worker tried, its place among those that are solved with it, and its ending
/// with figures. A board without an ending is left to all workers.
#[derive(Drop)]
pub(crate) struct Tried {
    pub(crate) place: usize,
    pub(crate) board: Board,
    pub(crate) solved: Option<Solved>,
}

// Why a board is left to all workers. `NoMemory` carries the refusal as evidence.
#[derive(Clone, Copy)]
enum Left {
    TooHard,
    NoMemory(OutOfMemory),
}

/// A board and those that the first whole lines among these bytes name, where they are worth
/// solving side by side: where there are several workers and several boards. More boards are needed
/// if they are small, since each takes less time than a thread.
pub(crate) fn boards_ahead(
    alloc: Global,
    question: &Question<'_>,
    held: &[u8],
) -> Option<Vec<Board>>
    ensures sides { IfSome result
        (λ boards. All (HasSides question.now.setup.now.goal.grid) boards.items) }
    ensures several { IfSome result (λ boards. 2 ≤ question.now.setup.now.workers) }
{
    if question.setup.worker_count() == 1 {
        return None;
    }
    let fewest = if question.setup.shape().cells() <= SMALL_CELLS {
        FEWEST_SMALL
    } else {
        FEWEST_BOARDS
    };
    let boards = boards_among(alloc, question.start, whole_lines(held));
    if boards.len() < fewest {
        return None;
    }
    Some(boards)
}

/// The first of these boards with their endings, the first one last. Each is tried by one worker;
/// as many are under way at once as the setup has workers. A board that is left to all workers has
/// no ending.
pub(crate) fn end_ahead<R: Threads + Wait + Sync, W: Watch + Sync>(
    rt: &R,
    alloc: Global,
    setup: &Setup,
    boards: &[Board],
    watch: &W,
) -> Vec<(Board, Option<Solved>)>
    requires sides { All (HasSides setup.now.goal.grid) boards.now }
    requires several { 2 ≤ setup.now.workers }
    ensures allowed { AreAllowed (rules_of setup.now) result.items }
    ensures stats { All (λ it. IfSome it.1 (HasStats setup.now it.0)) result.items }
    ensures alone { All (λ it. IfSome it.1 IsEndedAlone) result.items }
{
    let threads = setup.worker_count();
    let Ok(made) = new_lanes(alloc, threads) else {
        return Vec::new(alloc);
    };
    let mut made = made;
    let lanes = made.as_mut_slice();
    let shared = Shared {
        rt,
        alloc,
        setup,
        boards,
        watch,
        next: Mutex::new(0),
    };
    try_boards(rt, &shared, threads, lanes);
    take_endings(alloc, setup, boards, lanes)
}

// What threads share that solve boards side by side: the boards, and the place of the first that
// none has taken.
#[derive(Drop)]
struct Shared<'a, R, W> {
    rt: &'a R,
    alloc: Global,
    setup: &'a Setup,
    boards: &'a [Board],
    watch: &'a W,
    next: Mutex<usize>,
    ghost sides: { All (HasSides setup.now.goal.grid) boards.now },
    ghost several: { 2 ≤ setup.now.workers },
}

// The bytes up to the last line feed.
fn whole_lines(held: &[u8]) -> &[u8] {
    let mut end = held.len();
    'bytes: while 0 < end {
        if held[end - 1] == b'\n' {
            return &held[..end];
        }
        end -= 1;
    }
    &[]
}

// A board and those of its shape that the first lines name, in their order; not all of them where
// memory is refused.
fn boards_among(alloc: Global, start: &Board, lines: &[u8]) -> Vec<Board>
    ensures { All (HasSides start.now.grid) result.items }
{
    let mut boards = Vec::new(alloc);
    if let Ok(()) = push(&mut boards, *start) {
        add_boards(&mut boards, start.shape(), lines);
    }
    boards
}

// Adds the boards of a shape that the first lines name, in their order; not all of them where memory
// is refused.
fn add_boards(boards: &mut Vec<Board>, shape: Shape, lines: &[u8])
    requires { All (HasSides shape) boards.old.items }
    ensures { All (HasSides shape) boards.new.items }
{
    let mut reader = LineReader::new();
    let mut source = ByteSource::new(lines);
    'lines: for _ in 0..MOST_LINES {
        let Ok(Some(line)) = reader.next_line(&mut source) else {
            return;
        };
        let Some(board) = board_in(shape, line.kind, reader.bytes()) else {
            continue;
        };
        if push(boards, board).is_err() {
            return;
        }
    }
}

// The board that a line names, if it names one.
fn board_in(shape: Shape, kind: LineKind, bytes: &[u8]) -> Option<Board>
    ensures { IfSome result (HasSides shape) }
{
    if kind != LineKind::Within {
        return None;
    }
    let Ok(entry) = read_entry(shape, bytes) else {
        return None;
    };
    Some(entry.board)
}

// For each thread a list of what it tries, empty yet.
fn new_lanes(alloc: Global, threads: usize) -> Result<Vec<Vec<Tried>>, OutOfMemory>
    ensures { (setup : SetupModel) → IfOk result (λ lanes. All (AreTried setup) lanes.items) }
{
    let mut lanes = Vec::new(alloc);
    'threads: for _ in 0..threads {
        push(&mut lanes, Vec::new(alloc))?;
    }
    Ok(lanes)
}

// Tries boards, in a thread for each lane.
fn try_boards<R: Threads + Wait + Sync, W: Watch + Sync>(
    rt: &R,
    shared: &Shared<'_, R, W>,
    threads: usize,
    lanes: &mut [Vec<Tried>],
)
    requires threads { 0 < threads }
    requires lanes { All (AreTried shared.now.setup.now) lanes.old }
    ensures { All (AreTried shared.now.setup.now) lanes.new }
{
    for_each_mut(
        rt,
        lanes,
        threads,
        &|_: usize, lane: &mut Vec<Tried>|
            requires { AreTried shared.now.setup.now lane.old }
            ensures { AreTried shared.entry.now.setup.now lane.new }
        { try_in_turn(shared, lane) },
    );
}

// Tries one board after the other, and adds it to a lane, until enough boards were expanded. The
// memory of the thread's lists is kept from one board to the next.
fn try_in_turn<R: Wait, W: Watch>(shared: &Shared<'_, R, W>, lane: &mut Vec<Tried>)
    requires { AreTried shared.now.setup.now lane.old }
    ensures { AreTried shared.now.setup.now lane.new }
{
    let mut lists = SearchLists::new(shared.alloc);
    let mut expanded = 0u64;
    'boards: for _ in 0..shared.boards.len() {
        if expanded >= ENOUGH_EXPANDED {
            return;
        }
        let Some(tried) = try_next(shared, &mut lists) else {
            return;
        };
        expanded = expanded.saturating_add(expansions_of(&tried));
        if push(lane, tried).is_err() {
            return;
        }
    }
}

// Tries the first board that no thread has taken, if there is one. Where memory is refused no
// thread takes another one.
fn try_next<R: Wait, W: Watch>(shared: &Shared<'_, R, W>, lists: &mut SearchLists) -> Option<Tried>
    ensures { IfSome result (IsTried shared.now.setup.now) }
{
    let place = take_next(shared.rt, &shared.next);
    if place >= shared.boards.len() {
        return None;
    }
    let board = shared.boards[place];
    let question = Question {
        setup: shared.setup,
        start: &board,
    };
    match end_alone(shared.alloc, &question, &ByBlank, shared.watch, lists) {
        Ok(solved) => Some(Tried {
            place,
            board,
            solved: Some(solved),
        }),
        Err(Left::TooHard) => Some(Tried {
            place,
            board,
            solved: None,
        }),
        Err(Left::NoMemory(_)) => {
            *shared.next.lock(shared.rt) = shared.boards.len();
            None
        }
    }
}

// How many boards were expanded for one that was tried.
fn expansions_of(tried: &Tried) -> u64 {
    match &tried.solved {
        Some(solved) => solved.stats.expanded,
        None => ENOUGH_EXPANDED,
    }
}

// The place of the first board that no thread has taken, which is taken now.
fn take_next<R: Wait>(rt: &R, next: &Mutex<usize>) -> usize {
    let mut turn = next.lock(rt);
    let place = *turn;
    *turn = place.saturating_add(1);
    place
}

// The ending of a board by one worker. The worker owns all boards, whatever they are spread by. The
// error says why the board is left to all workers, which is never so outside the goal's class.
fn end_alone<S: Spread, W: Watch>(
    alloc: Global,
    question: &Question<'_>,
    spread: &S,
    watch: &W,
    lists: &mut SearchLists,
) -> Result<Solved, Left>
    requires { 2 ≤ question.now.setup.now.workers }
    ensures ok { IfOk result (λ solved.
        MayAnswer question.now.setup.now question.now.start.now (Some solved.ending)) }
    ensures whole { IfOk result (λ solved. ¬ LacksMemory solved.ending) }
    ensures left { OnErr result (MayAnswer question.now.setup.now question.now.start.now None) }
    ensures hard { IsErrOf result TooHard
        → IsTooHard question.now.setup.now question.now.start.now }
    ensures stats { IfOk result (HasStats question.now.setup.now question.now.start.now) }
    ensures few { IfOk result (λ solved. solved.stats.expanded ≤ ENOUGH_EXPANDED) }
{
    let begun = watch.microseconds();
    let limit = question.setup.expansion_limit().min(ENOUGH_EXPANDED);
    let found = match read_over::<WithFigures, S, W>(alloc, question, limit, spread, watch, lists) {
        Ok(found) => found,
        Err(refused) => return Err(Left::NoMemory(refused)),
    };
    if let Some(refused) = refusal_of(&found.ending) {
        return Err(Left::NoMemory(refused));
    }
    if is_too_hard(question.setup, limit, &found) {
        return Err(Left::TooHard);
    }
    Ok(solved_since(begun, question, found, watch))
}

// Whether one worker ended at a limit that is lower than the setup's.
fn is_too_hard(setup: &Setup, limit: u64, found: &EndingWithFigures) -> bool
    requires several { 2 ≤ setup.now.workers }
    requires within { limit ≤ setup.now.limit }
    ensures yes { IsTrue result → (limit < setup.now.limit) × (¬ IsNoBound found.now.ending) }
    ensures no { IsFalse result → (limit ≡ setup.now.limit)
        ⊎ ((2 ≤ setup.now.workers) × IsNoBound found.now.ending) }
{
    if limit == setup.expansion_limit() {
        return false;
    }
    WithFigures::is_bound(found)
}

// The refusal of memory for which a run by itself ended with a bound, if it did so.
fn refusal_of(ending: &Ending) -> Option<OutOfMemory>
    requires { EndsWholeRun ending.now }
    ensures some { IfSome result (λ refused. LacksMemory ending.now) }
    ensures none { IfNone result (¬ LacksMemory ending.now) }
{
    match ending {
        Ending::Bounded {
            cause: Cause::Memory(Want::Refused(refused)),
            ..
        } => Some(*refused),
        _ => None,
    }
}

// The first of these boards with their endings, up to the last that was tried, the first one last.
// In each lane they are in rising order of their places.
fn take_endings(
    alloc: Global,
    setup: &Setup,
    boards: &[Board],
    lanes: &mut [Vec<Tried>],
) -> Vec<(Board, Option<Solved>)>
    requires { All (AreTried setup.now) lanes.old }
    ensures allowed { AreAllowed (rules_of setup.now) result.items }
    ensures stats { All (λ it. IfSome it.1 (HasStats setup.now it.0)) result.items }
    ensures alone { All (λ it. IfSome it.1 IsEndedAlone) result.items }
{
    let mut ready = Vec::new(alloc);
    'places: for place in (0..boards.len()).rev() {
        let tried = take_tried(setup, place, lanes);
        if tried.is_none() && ready.is_empty() {
            continue;
        }
        if push(&mut ready, entry_of(setup, tried, boards[place])).is_err() {
            return Vec::new(alloc);
        }
    }
    ready
}

// A board that was tried, with its ending, or else this one without.
fn entry_of(setup: &Setup, tried: Option<Tried>, board: Board) -> (Board, Option<Solved>)
    requires { IfSome tried (IsTried setup.now) }
    ensures ending { IfSome result.1
        (λ solved. MayAnswer setup.now result.0 (Some solved.ending)) }
    ensures stats { IfSome result.1 (HasStats setup.now result.0) }
    ensures alone { IfSome result.1 IsEndedAlone }
{
    let _ = setup;
    match tried {
        Some(tried) => (tried.board, tried.solved),
        None => (board, None),
    }
}

// Takes the board with a place from the lane that ends with it, if one does.
fn take_tried(setup: &Setup, place: usize, lanes: &mut [Vec<Tried>]) -> Option<Tried>
    requires { All (AreTried setup.now) lanes.old }
    ensures lanes { All (AreTried setup.now) lanes.new }
    ensures tried { IfSome result (IsTried setup.now) }
{
    let _ = setup;
    'lanes: for lane in 0..lanes.len() {
        if ends_with(&lanes[lane], place) {
            return lanes[lane].pop();
        }
    }
    None
}

// Whether the last board of a lane has this place.
fn ends_with(lane: &[Tried], place: usize) -> bool {
    match lane.last() {
        Some(tried) => tried.place == place,
        None => false,
    }
}
