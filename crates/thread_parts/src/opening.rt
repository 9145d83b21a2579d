//! The part with which a run begins.

ghost use Rattle.std.specs.Prelude.{◌≡◌, ◌≢◌, ◌<◌, ◌%◌, [], IfOk, replicate};
ghost use Rattle.board.specs.declared.moves.Move.{Move};
ghost use Rattle.worker_core.specs.Roles.{IsGuided, guide_of};
ghost use Rattle.thread_parts.specs.Rings.{out_rings, in_rings, sent_lanes, received_lanes};
ghost use Rattle.hda_run.specs.Jobs.{task_in};
ghost use Rattle.worker_core.specs.Workers.{state_of};
ghost use Rattle.thread_parts.specs.Parts.{fresh_allowance, begun_with};
ghost use Rattle.world_model.specs.Openings.{idle_worker, first_worker};
ghost use Rattle.thread_parts.specs.Parts.{face};

use crate::part::Part;
use crate::rows::Ends;
use crate::sealed::Sealed;
use crate::search::Search;
use board::Move;
use memory::OutOfMemory;
use message_ledger::{Allowance, Counting, Purse, Tokens};
use owners::Spread;
use search_keys::KeyedBoard;
use std::alloc::Global;
use worker_core::laws::tasks_have_guides;
use worker_core::{Ahead, Worker};
use world_model::Item;
use world_model::thread_laws::openings_are_kept;

/// What a worker begins with: its part of the credit, and an allowance by which nothing was granted
/// yet.
#[derive(Drop)]
pub struct Means<C: Counting> {
    pub purse: Purse<C>,
    pub allowance: Allowance<C>,
    pub ghost fresh: { allowance ≡ fresh_allowance },
}

/// The part of worker `me` with which a run begins, over rings by which nothing went yet. The
/// start's owner knows the start, and has to have a purse that isn't empty.
pub fn open_part<'a, S: Spread, C: Tokens>(
    alloc: Global,
    search: &'a Search<'a, S>,
    me: usize,
    ends: Ends<C>,
    means: Means<C>,
) -> Result<Sealed<'a, S, C>, OutOfMemory>
    requires count { search.now.workers ≡ C.workers }
    requires there { me < search.now.workers }
    requires purse { S.owner_of search.now.owners.now search.now.workers
        search.now.job.start ≡ me → 0 < means.purse }
    requires sent { sent_lanes ends.outs.items ≡ replicate search.now.workers [] }
    requires received { received_lanes ends.ins.items ≡ replicate search.now.workers [] }
    ensures { IfOk result (λ part. part ≡ face search.now.job search.now.owners.now me
        (out_rings ends.outs.items) (in_rings ends.ins.items)) }
{
    openings_are_kept();
    let _ = search.job.goal();
    let worker = open_worker(alloc, search, me, means)?;
    let Ends { outs, ins } = ends;
    Ok(Sealed::new(Part {
        job: &search.job,
        owners: search.owners,
        me,
        worker,
        ahead: Ahead::new::<S>(alloc),
        outs,
        ins,
    }))
}

// Worker `me`, which knows the start if it owns it. It differs from a worker of the opening world
// in its purse alone: nothing was granted to it, and it has expanded nothing.
fn open_worker<S: Spread, C: Counting>(
    alloc: Global,
    search: &Search<'_, S>,
    me: usize,
    means: Means<C>,
) -> Result<Worker<C>, OutOfMemory>
    requires { me < search.now.workers }
    ensures first { S.owner_of search.now.owners.now search.now.workers
        search.now.job.start ≡ me → IfOk result (λ worker. (via : Move) × (state_of worker
        ≡ begun_with means.purse
        (first_worker search.now.workers (task_in search.now.job) via))) }
    ensures idle { S.owner_of search.now.owners.now search.now.workers
        search.now.job.start ≢ me → IfOk result (λ worker. state_of worker
        ≡ begun_with means.purse (idle_worker search.now.workers)) }
    ensures guided { IfOk result (λ worker. IsGuided (task_in search.now.job)
        (guide_of (task_in search.now.job)) worker.lists) }
{
    tasks_have_guides();
    let workers = search.workers;
    let context = search.job.context(me, workers, search.owners);
    let Means { purse, allowance } = means;
    let mut worker = Worker::new(alloc, workers, purse, allowance)?;
    let owner = search.owners.owner(search.job.start(), workers);
    if owner != me {
        return Ok(worker);
    }
    let item = Item {
        board: KeyedBoard::new(search.job.start()),
        cost: 0,
        via: Move::U,
    };
    worker.meet(alloc, &context, &item)?;
    Ok(worker)
}
