//! The solver of a setup's boards.

ghost use Rattle.std.specs.Prelude.{◌≡◌, ◌↔◌, ◌-◌, ◌^◌, ◌<◌, ◌≤◌, min, IfOk, IfErr, IfSome, IsFalse, IsTrue, Ok};
ghost use Rattle.board.specs.Boards.{BoardModel};
ghost use Rattle.board.specs.Classes.{SameClass};
ghost use Rattle.batch_runs.specs.Setups.{owner_by, task_of_setup};
ghost use Rattle.hda_run.specs.Alone.{IsFoundAlone};
ghost use Rattle.hda_run.specs.Answered.{IsAnswered};
ghost use Rattle.hda_run.specs.WholeRuns.{EndsWholeRun};
ghost use Rattle.batch_runs.specs.Batches.{MayGive};
ghost use Rattle.setup_runs.specs.Solving.{problem_of, problem_within, rules_of};
ghost use Rattle.setup_runs.specs.Solving.{IsSearched, IsNoBound, AreStatsOf, HasStats};
ghost use Rattle.setup_runs.specs.Ahead.{LacksMemory};
ghost use Rattle.setup_runs.specs.declared.solving.TheConstants.{EASY_EXPANSIONS};

use crate::watching::Watch;
use batch_runs::{Setup, Solved, SpreadKind, Stats};
use board::Board;
use hda_run::{Gate, Job, read_one_over};
use memory::OutOfMemory;
use outcomes::{Cause, Ending, Outcome};
use owners::{Abstract, ByBlank, Spread, Zobrist};
use search_lists::SearchLists;
use std::alloc::Global;
use std::sync::Wait;
use std::thread::Threads;
use thread_parts::Search;
use thread_runs::laws::owners_are_workers;
use thread_runs::search_by_workers;
use world_ends::{EndingWithFigures, Reading, WithFigures, WithRows};

// The most boards that one worker expands before several share the search, where the setup's limit
// is above `ENOUGH_EXPANDED`. Several expand up to a thousand times more for an easy board.
pub(crate) const EASY_EXPANSIONS: u64 = 16_384;

/// Where several boards are solved side by side, a thread leaves a board to all workers after this
/// many expansions. After as many for all its boards it takes no other one. So it counts less than
/// twice as many before the next reports, however many lines follow. (Those of a search that memory
/// ended over kept lists, and that began anew, count once.)
pub(crate) const ENOUGH_EXPANDED: u64 = 2_000_000;

/// A reading that tells bounds from other answers.
pub(crate) trait TellsBounds: Reading {
    /// Whether an answer is a bound.
    fn is_bound(answer: &Self::Answer) -> bool
        ensures no { IsFalse result → IsNoBound (Self.end answer.now) }
        ensures yes { IsTrue result → ¬ IsNoBound (Self.end answer.now) };

    /// Whether an answer is a bound for which memory was refused.
    fn lacks_memory(answer: &Self::Answer) -> bool
        ensures { IsTrue result ↔ LacksMemory (Self.end answer.now) };
}

impl TellsBounds for WithRows {
    fn is_bound(answer: &Outcome) -> bool {
        matches!(answer, Outcome::Bounded { .. })
    }

    fn lacks_memory(answer: &Outcome) -> bool {
        matches!(
            answer,
            Outcome::Bounded {
                cause: Cause::Memory(_),
                ..
            }
        )
    }
}

impl TellsBounds for WithFigures {
    fn is_bound(answer: &EndingWithFigures) -> bool {
        matches!(answer.ending, Ending::Bounded { .. })
    }

    fn lacks_memory(answer: &EndingWithFigures) -> bool {
        matches!(
            answer.ending,
            Ending::Bounded {
                cause: Cause::Memory(_),
                ..
            }
        )
    }
}

/// A setup, and a board of its shape that is to be answered.
#[derive(Drop)]
pub(crate) struct Question<'a> {
    pub(crate) setup: &'a Setup,
    pub(crate) start: &'a Board,
    pub(crate) ghost sides: { start.now.grid ≡ setup.now.goal.grid },
}

/// The ending of a board by the setup's workers, with the figures of their search. The memory of the
/// lists is kept from one board to the next. The error: out of memory before the first step.
pub(crate) fn solve_board<R: Threads + Wait + Sync, W: Watch + Sync>(
    rt: &R,
    alloc: Global,
    question: &Question<'_>,
    watch: &W,
    lists: &mut SearchLists,
) -> Result<Solved, OutOfMemory>
    ensures allowed { MayGive (rules_of question.now.setup.now) question.now.start.now result }
    ensures stats { IfOk result (HasStats question.now.setup.now question.now.start.now) }
{
    let begun = watch.microseconds();
    match answer_board::<WithFigures, R, W>(rt, alloc, question, watch, lists) {
        Ok(found) => Ok(solved_since(begun, question, found, watch)),
        Err(refused) => Err(refused),
    }
}

/// What was found of a board by a search that began at this moment and ends now.
pub(crate) fn solved_since<W: Watch>(
    begun: u64,
    question: &Question<'_>,
    found: EndingWithFigures,
    watch: &W,
) -> Solved
    ensures ending { result.ending ≡ found.ending }
    ensures stats { AreStatsOf question.now.setup.now question.now.start.now found.figures
        result.stats }
{
    let stats = Stats {
        expanded: narrowed(found.figures.expanded),
        known: narrowed(found.figures.known),
        microseconds: watch.microseconds().saturating_sub(begun),
        start_sum: question.setup.tables().of(question.start),
    };
    Solved {
        ending: found.ending,
        stats,
    }
}

// A count, or the greatest number of 64 bits where that is less.
fn narrowed(count: u128) -> u64
    ensures { result ≡ min count (2 ^ 64 - 1) }
{
    u64::try_from(count).unwrap_or(u64::MAX)
}

/// The answer of a board by the setup's workers, in a reading: an easy one by one worker in the
/// calling thread, over these lists, any other one by all of them, several in threads of their own.
/// The error: out of memory before the first step.
pub(crate) fn answer_board<A: TellsBounds, R: Threads + Wait + Sync, G: Gate + Sync>(
    rt: &R,
    alloc: Global,
    question: &Question<'_>,
    gate: &G,
    lists: &mut SearchLists,
) -> Result<A::Answer, OutOfMemory>
    ensures { IsSearched A.gives A.answers A.end A.parity question.now.setup.now
        question.now.start.now result }
{
    if question.setup.worker_count() == 1 {
        return answer_alone::<A, ByBlank, G>(alloc, question, &ByBlank, gate, lists);
    }
    if let Some(answer) = answer_easy::<A, ByBlank, G>(alloc, question, &ByBlank, gate, lists) {
        return Ok(answer);
    }
    // Frees what easy boards kept: a hard board may need it.
    *lists = SearchLists::new(alloc);
    answer_shared::<A, R, G>(rt, alloc, question, gate)
}

// The answer of a board by the setup's only worker, which owns all boards, whatever they are spread
// by.
fn answer_alone<A: TellsBounds, S: Spread, G: Gate>(
    alloc: Global,
    question: &Question<'_>,
    spread: &S,
    gate: &G,
    lists: &mut SearchLists,
) -> Result<A::Answer, OutOfMemory>
    requires { question.now.setup.now.workers ≡ 1 }
    ensures { IsSearched A.gives A.answers A.end A.parity question.now.setup.now
        question.now.start.now result }
{
    let limit = question.setup.expansion_limit();
    read_over::<A, S, G>(alloc, question, limit, spread, gate, lists)
}

/// What one worker finds of a board within a limit, over lists whose memory is kept from one board
/// to the next. Where memory is refused over lists that served before, they are dropped, and the
/// worker begins anew: what is kept must cost no answer. What it found first stays the answer where
/// memory is refused before its first step then.
pub(crate) fn read_over<A: TellsBounds, S: Spread, G: Gate>(
    alloc: Global,
    question: &Question<'_>,
    limit: u64,
    spread: &S,
    gate: &G,
    lists: &mut SearchLists,
) -> Result<A::Answer, OutOfMemory>
    ensures { IsAnswered A.parity (IsFoundAlone A.gives S.owner_of
        (problem_within limit question.now.setup.now question.now.start.now) spread.now)
        A.answers A.end
        (problem_within limit question.now.setup.now question.now.start.now) result }
{
    let have_served = lists.len() > 0;
    let found = read_once::<A, S, G>(alloc, question, limit, spread, gate, lists);
    if !have_served || !lacks_memory::<A>(&found) {
        return found;
    }
    *lists = SearchLists::new(alloc);
    let again = read_once::<A, S, G>(alloc, question, limit, spread, gate, lists);
    or_first::<A>(again, found)
}

// What was answered again, or the first answer where memory was refused before the first step.
fn or_first<A: Reading>(
    again: Result<A::Answer, OutOfMemory>,
    first: Result<A::Answer, OutOfMemory>,
) -> Result<A::Answer, OutOfMemory>
    ensures again { IfOk again (λ answer. result ≡ Ok answer) }
    ensures first { IfErr again (λ refused. result ≡ first) }
{
    match again {
        Ok(answer) => Ok(answer),
        Err(_) => first,
    }
}

// The same, whether or not memory is refused.
fn read_once<A: TellsBounds, S: Spread, G: Gate>(
    alloc: Global,
    question: &Question<'_>,
    limit: u64,
    spread: &S,
    gate: &G,
    lists: &mut SearchLists,
) -> Result<A::Answer, OutOfMemory>
    ensures { IsAnswered A.parity (IsFoundAlone A.gives S.owner_of
        (problem_within limit question.now.setup.now question.now.start.now) spread.now)
        A.answers A.end
        (problem_within limit question.now.setup.now question.now.start.now) result }
{
    let job = job_within(question, limit);
    read_one_over::<A, S, G>(alloc, job, spread, gate, lists)
}

// Whether a run was refused memory, before its first step or later.
fn lacks_memory<A: TellsBounds>(found: &Result<A::Answer, OutOfMemory>) -> bool
    ensures later { IfOk found.now (λ answer. IsTrue result ↔ LacksMemory (A.end answer)) }
    ensures before { IfErr found.now (λ refused. IsTrue result) }
{
    match found {
        Ok(answer) => A::lacks_memory(answer),
        Err(_) => true,
    }
}

// The answer of a board that all workers share, by the setup's spread. (It is never inlined: its
// caller would clear the words of each spread for each board, also where one worker solves it.)
#[inline(never)]
fn answer_shared<A: TellsBounds, R: Threads + Wait + Sync, G: Gate + Sync>(
    rt: &R,
    alloc: Global,
    question: &Question<'_>,
    gate: &G,
) -> Result<A::Answer, OutOfMemory>
    ensures { IsSearched A.gives A.answers A.end A.parity question.now.setup.now
        question.now.start.now result }
{
    let setup = question.setup;
    match setup.spread_kind() {
        SpreadKind::Zobrist => {
            let spread = Zobrist::new(setup.shape());
            answer_spread::<A, R, Zobrist, G>(rt, alloc, question, &spread, gate)
        }
        SpreadKind::Blank => {
            answer_spread::<A, R, ByBlank, G>(rt, alloc, question, &ByBlank, gate)
        }
        SpreadKind::Abstract => {
            let spread = Abstract::new(setup.shape());
            answer_spread::<A, R, Abstract, G>(rt, alloc, question, &spread, gate)
        }
    }
}

// How many boards one of several workers expands before all share the search: all that the setup
// allows, where no more than `ENOUGH_EXPANDED` are allowed. What such a search proves would be lost
// if all began anew within the same limit: a higher limit would give a lower bound.
fn easy_limit(whole: u64) -> u64
    ensures within { result ≤ whole }
    ensures few { result ≤ ENOUGH_EXPANDED }
    ensures all { whole ≤ ENOUGH_EXPANDED → result ≡ whole }
    ensures high { ENOUGH_EXPANDED < whole → result ≡ EASY_EXPANSIONS }
{
    if whole <= ENOUGH_EXPANDED {
        return whole;
    }
    EASY_EXPANSIONS
}

// The answer of a board by one of several workers, where the board is easy or the setup's limit is
// at most `ENOUGH_EXPANDED`. None where the board is to be shared.
fn answer_easy<A: TellsBounds, S: Spread, G: Gate>(
    alloc: Global,
    question: &Question<'_>,
    spread: &S,
    gate: &G,
    lists: &mut SearchLists,
) -> Option<A::Answer>
    requires { 2 ≤ question.now.setup.now.workers }
    ensures { IfSome result (λ answer. IsSearched A.gives A.answers A.end A.parity
        question.now.setup.now question.now.start.now (Ok answer)) }
{
    let whole = question.setup.expansion_limit();
    let limit = easy_limit(whole);
    let Ok(answer) = read_over::<A, S, G>(alloc, question, limit, spread, gate, lists) else {
        return None;
    };
    if limit == whole {
        return Some(answer);
    }
    if A::is_bound(&answer) {
        return None;
    }
    Some(answer)
}

// The answer of a board by all workers. Each owns the boards that the setup says, by this spread.
fn answer_spread<A: Reading, R: Threads + Wait + Sync, S: Spread + Sync, G: Gate + Sync>(
    rt: &R,
    alloc: Global,
    question: &Question<'_>,
    spread: &S,
    gate: &G,
) -> Result<A::Answer, OutOfMemory>
    requires { (b : BoardModel) → S.owner_of spread.now question.now.setup.now.workers b
        ≡ owner_by question.now.setup.now.spread question.now.setup.now.workers b }
    ensures { IsSearched A.gives A.answers A.end A.parity question.now.setup.now
        question.now.start.now result }
{
    owners_are_workers::<S>();
    let search = Search {
        job: job_for(question),
        owners: spread,
        workers: question.setup.worker_count(),
    };
    search_by_workers::<A, R, S, G>(rt, alloc, search, gate)
}

// The job of a board: the setup says the rest.
fn job_for<'a>(question: &Question<'a>) -> Job<'a>
    ensures { result ≡ problem_of question.now.setup.now question.now.start.now }
{
    job_within(question, question.setup.expansion_limit())
}

/// The job of a board with a limit of its own.
pub(crate) fn job_within<'a>(question: &Question<'a>, limit: u64) -> Job<'a>
    ensures { result ≡ problem_within limit question.now.setup.now question.now.start.now }
{
    let setup = question.setup;
    Job::new(
        *question.start,
        setup.goal(),
        setup.weights(),
        setup.tables(),
        limit,
    )
    .unwrap()
}
