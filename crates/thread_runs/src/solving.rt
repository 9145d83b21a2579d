//! Jobs that one worker or several solve.

ghost use Rattle.std.specs.Prelude.{◌≡◌, ◌↔◌, ◌≤◌, Ok, IfOk, IfSome, IfNone, IsErrOf, Some};
ghost use Rattle.board.specs.Classes.{SameClass};
ghost use Rattle.outcomes.specs.Outcomes.{Answers};
ghost use Rattle.outcomes.specs.declared.outcome.Outcome.TheVariants.{Unsolvable};
ghost use Rattle.outcomes.specs.declared.outcome.Why.TheVariants.{Parity};
ghost use Rattle.hda_run.specs.Answered.{IsAnswered};
ghost use Rattle.hda_run.specs.Jobs.{task_in};
ghost use Rattle.hda_run.specs.WholeRuns.{EndsWholeRun, HasWholeRun};
ghost use Rattle.hda_run.specs.Worlds.{IsWorkerCount};
ghost use Rattle.thread_runs.specs.Threads.{IsFoundByThreads};
ghost use Rattle.thread_runs.specs.Solved.{IsFoundByWorkers, IsSolved, IsLeftToOne};

use crate::joined_laws::joined_worlds_answer;
use crate::laws::owners_are_workers;
use crate::ledgers::run_by_threads;
use board::laws::plans_keep_the_class;
use hda_run::{Gate, Job, WorldFault, are_apart, is_worker_count, search_one};
use memory::OutOfMemory;
use outcomes::Outcome;
use owners::Spread;
use std::alloc::Global;
use std::sync::Wait;
use std::thread::Threads;
use thread_parts::Search;
use world_ends::{Reading, WithRows};

/// Solves a job by this number of workers, each in a thread of its own. A start that isn't in the
/// goal's class is answered without a search, and without memory.
///
/// One worker answers in the calling thread in three cases:
///
/// - one worker was asked for;
/// - memory was refused for what threads begin or end with;
/// - the world of the joined workers is not kept, as where a thread could not be started.
///
/// No contract says that threads run. A body that starts none, and names its opening world as one
/// that is not kept, would prove too: tests with threads refuse it.
///
/// Faults: V2 the workers are not from 1 to `WORKER_LIMIT`, V3 memory was refused for the world of
/// one worker. The outcome says what was refused later.
pub fn solve<'a, R: Threads + Wait + Sync, S: Spread + Sync, G: Gate + Sync>(
    rt: &R,
    alloc: Global,
    job: Job<'a>,
    workers: usize,
    spread: &'a S,
    gate: &G,
) -> Result<Outcome, WorldFault>
    ensures count { IsErrOf result WorldFault.WorkerCount ↔ (¬ IsWorkerCount workers) }
    ensures parity { IsWorkerCount workers → (result ≡ Ok (Unsolvable Parity))
        ↔ (¬ SameClass job.entry.start job.entry.goal) }
    ensures run { SameClass job.entry.start job.entry.goal
        → IfOk result (IsSolved S.owner_of job.entry spread.now workers) }
    ensures answers { IfOk result (Answers (task_in job.entry)) }
    ensures kept { IfOk result HasWholeRun }
{
    if !is_worker_count(workers) {
        return Err(WorldFault::WorkerCount);
    }
    let search = Search {
        job,
        owners: spread,
        workers,
    };
    match search_by_workers::<WithRows, R, S, G>(rt, alloc, search, gate) {
        Ok(outcome) => Ok(outcome),
        Err(refused) => Err(WorldFault::Memory(refused)),
    }
}

/// Solves a job as `solve`, by 1 to `WORKER_LIMIT` workers, and reads the answer without rows or with
/// them. The error: out of memory before the first step.
pub fn search_by_workers<A: Reading, R: Threads + Wait + Sync, S: Spread + Sync, G: Gate + Sync>(
    rt: &R,
    alloc: Global,
    search: Search<'_, S>,
    gate: &G,
) -> Result<A::Answer, OutOfMemory>
    ensures { IsAnswered A.parity (IsFoundByWorkers A.gives S.owner_of search.entry.job
        search.entry.owners.now search.entry.workers) A.answers A.end search.entry.job result }
{
    A::keep_laws();
    // By this law no plan leads from a board to another class.
    plans_keep_the_class();
    let _ = search.job.goal();
    if are_apart(&search.job) {
        return Ok(A::of_parity());
    }
    if let Some(answer) = found_by_threads::<A, R, S, G>(rt, alloc, &search, gate) {
        return Ok(answer);
    }
    search_one::<A, S, G>(alloc, search.job, search.owners, gate)
}

// What more than one worker find, where the world of their joined threads is kept.
fn found_by_threads<A: Reading, R: Threads + Wait + Sync, S: Spread + Sync, G: Gate + Sync>(
    rt: &R,
    alloc: Global,
    search: &Search<'_, S>,
    gate: &G,
) -> Option<A::Answer>
    ensures run { IfSome result (λ answer. (2 ≤ search.now.workers)
        × IsFoundByThreads A.gives S.owner_of search.now.job search.now.owners.now
        search.now.workers (Some answer)) }
    ensures left { IfNone result (IsLeftToOne S.owner_of search.now.job search.now.owners.now
        search.now.workers) }
    ensures answers { IfSome result (A.answers (task_in search.now.job)) }
    ensures kept { IfSome result (λ answer. EndsWholeRun (A.end answer)) }
{
    A::keep_laws();
    joined_worlds_answer::<A>();
    owners_are_workers::<S>();
    // This call gives that the sums are lower bounds.
    let _ = search.job.bound();
    if search.workers == 1 {
        return None;
    }
    let _ = search.job.goal();
    match run_by_threads::<A, R, S, G>(rt, alloc, search, gate) {
        Ok(found) => found,
        Err(_refused) => None,
    }
}
