//! Batches of a setup.

ghost use Rattle.std.specs.Prelude.{◌≡◌, All, IfOk, IfSome};
ghost use Rattle.byte_streams.specs.Streams.{change};
ghost use Rattle.batch_runs.specs.Batches.{ReportsLines, LeavesFlushed, MayGive, AreAllowed};
ghost use Rattle.batch_runs.specs.Headline.{IsTrueRun};
ghost use Rattle.batch_runs.specs.Stats.{HandsFigures};
ghost use Rattle.setup_runs.specs.Solving.{HasStats, rules_of};

use crate::ahead::{boards_ahead, end_ahead};
use crate::solving::{Question, solve_board};
use crate::watching::{Unwatched, Watch};
use batch_runs::{LinesFault, Ruled, Setup, Solved, Solver, Summary, run_lines};
use board::{Board, Shape};
use byte_streams::{Sink, Source};
use hda_run::Gate;
use memory::OutOfMemory;
use search_lists::SearchLists;
use std::alloc::Global;
use std::mem::replace;
use std::sync::{Mutex, Wait};
use std::thread::Threads;

// A setup, the closures by which its workers answer boards, and who watches them: threads start
// under the bounds of the function that makes the closures, which no trait's method has.
#[derive(Drop)]
struct Guided<'a, F, P, W> {
    setup: &'a Setup,
    solve: F,
    ahead: P,
    watch: &'a W,
}

impl<'a, F, P, W> Ruled for Guided<'a, F, P, W> {
    ghost use Rattle.setup_runs.specs.Solving.{rules_of};

    ghost rules = { λ guided. rules_of guided.setup.now };
}

impl<
    'a,
    F: Fn(&Board) -> Result<Solved, OutOfMemory>,
    P: Fn(&Board, &[u8]) -> Vec<(Board, Option<Solved>)>,
    W: Watch,
> Solver for Guided<'a, F, P, W> {
    ghost is_callable = { λ guided.
        ((start : _) → start.now.grid ≡ guided.setup.now.goal.grid → F.pre guided.solve start)
        × ((start result : _) → start.now.grid ≡ guided.setup.now.goal.grid
        → F.post guided.solve start result
        → MayGive (rules_of guided.setup.now) start.now result
        × IfOk result (HasStats guided.setup.now start.now))
        × ((start held : _) → start.now.grid ≡ guided.setup.now.goal.grid
        → P.pre guided.ahead start held)
        × ((start held result : _) → start.now.grid ≡ guided.setup.now.goal.grid
        → P.post guided.ahead start held result
        → AreAllowed (rules_of guided.setup.now) result.items
        × All (λ it. IfSome it.1 (HasStats guided.setup.now it.0)) result.items) };

    ghost has_stats = { λ guided b solved. HasStats guided.setup.now b solved };

    ghost has_observed = { λ guided id solved. W.has_taken guided.watch.now id solved.stats };

    fn shape(&self) -> Shape {
        self.setup.shape()
    }

    fn solve(&self, start: &Board) -> Result<Solved, OutOfMemory> {
        (self.solve)(start)
    }

    fn solve_ahead(&self, start: &Board, held: &[u8]) -> Vec<(Board, Option<Solved>)> {
        (self.ahead)(start, held)
    }

    fn observe(&self, id: &str, solved: &Solved) {
        self.watch.observe(id, &solved.stats);
    }
}

/// Writes a report for each line of the source that isn't passed over, in order: that of its first
/// fault, or of an ending that answers its board. A board that isn't in the goal's class is
/// answered without a search. Any other one is answered by A* with the setup's tables, within the
/// setup's limit. One worker searches in the calling thread, more in threads of their own, which
/// all end before the next line is read. The gate is passed after each of their steps.
///
/// Where a setup has several workers and the source holds several lines, their boards are tried
/// side by side, each by one worker. Then their lines are taken one after the other, and a board
/// that was too hard for one worker is solved by all. A line that comes alone is solved by one
/// worker if its board is easy or the limit is at most two million, and else by all.
///
/// The sink is flushed after each report, so that a reader who waits for one has it. Nothing is
/// flushed for a line that is passed over.
///
/// After `Read` exactly the reports of the lines that were read whole are written; after `Memory`
/// those of the first lines, whole; after `Write` a beginning of the reports: where a flush failed,
/// those up to its line.
///
/// What is written tells the truth: so says the clause `truth`, in words of what a reader sees.
pub fn run_batch<R: Threads + Wait + Sync, S: Source, K: Sink, G: Gate + Sync>(
    rt: &R,
    alloc: Global,
    source: &mut S,
    sink: &mut K,
    setup: &Setup,
    gate: &G,
) -> Result<Summary, LinesFault>
    ensures reports { ReportsLines (rules_of setup.now) (change S.state source.old source.new)
        (change K.state sink.old sink.new) result }
    ensures truth { IsTrueRun (rules_of setup.now) (change S.state source.old source.new)
        (change K.state sink.old sink.new) result }
    ensures flushed { LeavesFlushed K.is_flushed K.state sink.old sink.new }
{
    run_watched(rt, alloc, source, sink, setup, &Unwatched { gate })
}

/// Runs a batch as `run_batch` does, under a watch. It is handed the figures of each line whose
/// board is answered, in the order of the lines, before its report is written. The clause `figures`
/// says so, except the order: they are those of the line's board under this setup.
pub fn run_watched<R: Threads + Wait + Sync, S: Source, K: Sink, W: Watch + Sync>(
    rt: &R,
    alloc: Global,
    source: &mut S,
    sink: &mut K,
    setup: &Setup,
    watch: &W,
) -> Result<Summary, LinesFault>
    ensures reports { ReportsLines (rules_of setup.now) (change S.state source.old source.new)
        (change K.state sink.old sink.new) result }
    ensures truth { IsTrueRun (rules_of setup.now) (change S.state source.old source.new)
        (change K.state sink.old sink.new) result }
    ensures flushed { LeavesFlushed K.is_flushed K.state sink.old sink.new }
    ensures figures { HandsFigures (rules_of setup.now)
        (λ id b solved. HasStats setup.now b solved × W.has_taken watch.now id solved.stats)
        (S.state source.old).left (change K.state sink.old sink.new) }
{
    // The memory of these lists is kept from line to line.
    let kept = Mutex::new(SearchLists::new(alloc));
    let solve = |start: &Board| -> Result<Solved, OutOfMemory>
        requires { start.now.grid ≡ setup.now.goal.grid }
        ensures { MayGive (rules_of setup.entry.now) start.now result
            × IfOk result (HasStats setup.entry.now start.now) }
    {
        let question = Question { setup, start };
        let mut lists = take_kept(rt, alloc, &kept);
        let solved = solve_board(rt, alloc, &question, watch, &mut lists);
        *kept.lock(rt) = lists;
        solved
    };
    let ahead = |start: &Board, held: &[u8]| -> Vec<(Board, Option<Solved>)>
        requires { start.now.grid ≡ setup.now.goal.grid }
        ensures { AreAllowed (rules_of setup.entry.now) result.items
            × All (λ it. IfSome it.1 (HasStats setup.entry.now it.0)) result.items }
    {
        match boards_ahead(alloc, &Question { setup, start }, held) {
            Some(boards) => end_ahead(rt, alloc, setup, boards.as_slice(), watch),
            None => Vec::new(alloc),
        }
    };
    let guided = Guided {
        setup,
        solve,
        ahead,
        watch,
    };
    run_lines(alloc, source, sink, &guided)
}

// Takes lists whose memory is kept, so that no lock is held while a board is solved.
fn take_kept<R: Wait>(rt: &R, alloc: Global, kept: &Mutex<SearchLists>) -> SearchLists {
    let mut held = kept.lock(rt);
    replace(&mut *held, SearchLists::new(alloc))
}
