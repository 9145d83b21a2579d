//! The parts of the world in which a run begins.

ghost use Rattle.std.specs.Prelude.{◌≡◌, ◌≤◌, ◌<◌, [], All, IfOk, length, map, replicate};
ghost use Rattle.std.specs.Prelude.{slice_set};
ghost use Rattle.board.specs.declared.moves.Move.{Move};
ghost use Rattle.outcomes.specs.Outcomes.{Task};
ghost use Rattle.search_lists.specs.Lists.{empty_lists, HasMoreRoom};
ghost use Rattle.search_lists.specs.Orders.{Guide};
ghost use Rattle.worker_core.specs.Contexts.{task_from};
ghost use Rattle.worker_core.specs.Roles.{IsGuideOf, IsGuided, guide_of};
ghost use Rattle.worker_core.specs.Workers.{state_of};
ghost use Rattle.world_model.specs.declared.limits.TheConstants.{WORKER_LIMIT};
ghost use Rattle.world_model.specs.Openings.{idle_worker, opening};
ghost use Rattle.world_model.specs.Openings.{first_worker as first_state};
ghost use Rattle.hda_run.specs.Jobs.{task_in};
ghost use Rattle.hda_run.specs.Worlds.{world_of, AreGuided, job_of};

use crate::job::Job;
use crate::parts::Parts;
use board::{Board, Move};
use memory::OutOfMemory;
use message_ledger::{Allowance, Credit, Grants, Plain, Purse};
use owners::Spread;
use quiescence::Book;
use search_keys::KeyedBoard;
use search_lists::SearchLists;
use std::alloc::Global;
use worker_core::laws::tasks_have_guides;
use worker_core::{Context, Queue, Worker};
use world_model::Item;

/// The parts of the opening world of a job. The start's owner has these lists, which know nothing,
/// and each other worker has new ones.
pub(crate) fn open_parts<'a, S: Spread>(
    alloc: Global,
    job: Job<'a>,
    workers: usize,
    owners: &'a S,
    lists: SearchLists,
) -> Result<Parts<'a, S>, OutOfMemory>
    requires some { 0 < workers }
    requires few { workers ≤ WORKER_LIMIT }
    requires empty { HasMoreRoom empty_lists lists }
    ensures opening { IfOk result (λ parts. (via : Move)
        × (world_of S.owner_of parts ≡ opening (job_of S.owner_of job.entry owners.now workers) via)) }
    ensures guided { IfOk result (λ parts. AreGuided parts) }
    ensures job { IfOk result (λ parts. parts.job ≡ job.entry) }
    ensures owners { IfOk result (λ parts. parts.owners.now ≡ owners.now) }
{
    tasks_have_guides();
    let _ = job.goal();
    let (mut credit, purse) = Credit::plain();
    let owner = owners.owner(job.start(), workers);
    let context = job.context(owner, workers, owners);
    let first = first_worker(alloc, &context, job.start(), purse, lists)?;
    let all = workers_with(alloc, workers, &mut credit, first, owner)?;
    let lanes = empty_lanes(alloc, workers)?;
    let book = Book::new(credit, Grants::plain(), job.limit(), workers);
    Ok(Parts {
        job,
        owners,
        workers: all,
        book,
        lanes,
    })
}

// The workers of an opening world: this one at a place, and idle ones at all others. Where there is
// one worker alone, no other one is made.
fn workers_with(
    alloc: Global,
    workers: usize,
    credit: &mut Credit<Plain>,
    first: Worker<Plain>,
    place: usize,
) -> Result<Vec<Worker<Plain>>, OutOfMemory>
    requires few { workers ≤ WORKER_LIMIT }
    requires there { place < workers }
    ensures states { IfOk result (λ all. map (λ worker. state_of worker) all.items
        ≡ slice_set (replicate workers (idle_worker workers)) place (state_of first)) }
    ensures guided { IfOk result (λ all. (task : Task) (guide : Guide) → IsGuideOf task guide
        → IsGuided task guide first.lists
        → All (λ worker. IsGuided task guide worker.lists) all.items) }
    ensures credit { credit.new ≡ credit.old }
{
    if workers == 1 {
        let mut alone = memory::with_capacity(alloc, 1)?;
        alone.push_reserved(first);
        return Ok(alone);
    }
    let mut all = idle_workers(alloc, workers, credit)?;
    all[place] = first;
    Ok(all)
}

// This number of workers that know nothing and have nothing.
fn idle_workers(
    alloc: Global,
    workers: usize,
    credit: &mut Credit<Plain>,
) -> Result<Vec<Worker<Plain>>, OutOfMemory>
    requires { workers ≤ WORKER_LIMIT }
    ensures states { IfOk result (λ made. map (λ worker. state_of worker) made.items
        ≡ replicate workers (idle_worker workers)) }
    ensures guided { IfOk result (λ made. (task : Task) (guide : Guide) → IsGuideOf task guide
        → All (λ worker. IsGuided task guide worker.lists) made.items) }
    ensures credit { credit.new ≡ credit.old }
{
    let mut made = memory::with_capacity(alloc, workers)?;
    'workers: for count in 0..workers {
        let purse = credit.empty_purse();
        let worker = Worker::new(alloc, workers, purse, Allowance::plain())?;
        made.push_reserved(worker);
    }
    Ok(made)
}

// A worker that knows the start, and has the purse. Before, its lists know nothing.
fn first_worker<S: Spread>(
    alloc: Global,
    context: &Context<'_, S>,
    start: &Board,
    purse: Purse<Plain>,
    lists: SearchLists,
) -> Result<Worker<Plain>, OutOfMemory>
    requires few { context.now.workers ≤ WORKER_LIMIT }
    requires empty { HasMoreRoom empty_lists lists }
    requires sides { start.now.grid ≡ context.now.goal.grid }
    requires one { purse ≡ 1 }
    ensures state { IfOk result (λ worker. (via : Move)
        × (state_of worker
        ≡ first_state context.now.workers (task_from start.now context.now) via)) }
    ensures guided { IfOk result (λ worker. IsGuided (task_from start.now context.now)
        (guide_of (task_from start.now context.now)) worker.lists) }
{
    tasks_have_guides();
    let _ = context.goal.shape();
    let mut worker = Worker::with_lists(alloc, context.workers, purse, Allowance::plain(), lists)?;
    let item = Item {
        board: KeyedBoard::new(start),
        cost: 0,
        via: Move::U,
    };
    worker.meet(alloc, context, &item)?;
    Ok(worker)
}

// For each worker an empty lane to each worker.
fn empty_lanes(alloc: Global, workers: usize) -> Result<Vec<Vec<Queue<Plain>>>, OutOfMemory>
    requires { workers ≤ WORKER_LIMIT }
    ensures { IfOk result (λ made. map (λ to_each. to_each.items) made.items
        ≡ replicate workers (replicate workers [])) }
{
    let mut made = memory::with_capacity(alloc, workers)?;
    'workers: for count in 0..workers {
        let to_each = lanes_to_each(alloc, workers)?;
        made.push_reserved(to_each);
    }
    Ok(made)
}

// An empty lane to each worker.
fn lanes_to_each(alloc: Global, workers: usize) -> Result<Vec<Queue<Plain>>, OutOfMemory>
    requires { workers ≤ WORKER_LIMIT }
    ensures { IfOk result (λ made. made.items ≡ replicate workers []) }
{
    let mut made = memory::with_capacity(alloc, workers)?;
    'workers: for count in 0..workers {
        let lane = Queue::new(alloc)?;
        made.push_reserved(lane);
    }
    Ok(made)
}
