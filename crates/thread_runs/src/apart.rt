//! Parts that are taken apart.

ghost use Rattle.std.specs.Prelude.{◌≤◌, IfOk, vec_len};
ghost use Rattle.world_model.specs.declared.limits.TheConstants.{WORKER_LIMIT};
ghost use Rattle.hda_run.specs.Jobs.{JobModel};
ghost use Rattle.thread_runs.specs.Threads.{IsJoint};
ghost use Rattle.thread_runs.specs.Worlds.{AreTakenApart};

use memory::OutOfMemory;
use message_ledger::{Counting, Tokens};
use owners::Spread;
use std::alloc::Global;
use thread_parts::{Part, Receiver, Sealed, Sender};
use worker_core::Worker;

/// The workers of joined parts, and for each the ends of its rings to and from each worker.
#[derive(Drop)]
pub(crate) struct Joined<C: Counting> {
    pub(crate) workers: Vec<Worker<C>>,
    pub(crate) outs: Vec<Vec<Sender<C>>>,
    pub(crate) ins: Vec<Vec<Receiver<C>>>,
}

/// Takes parts apart, so that both ends of a ring can be looked at.
pub(crate) fn take_apart<S: Spread, C: Tokens>(
    alloc: Global,
    sealed: Vec<Sealed<'_, S, C>>,
) -> Result<Joined<C>, OutOfMemory>
    requires few { vec_len sealed ≤ WORKER_LIMIT }
    ensures { (p : JobModel) (owners : S) → IsJoint p owners C.workers sealed.entry.items
        → IfOk result (AreTakenApart S.owner_of p owners C.workers) }
{
    let count = sealed.len();
    let mut workers = memory::with_capacity(alloc, count)?;
    let mut outs = memory::with_capacity(alloc, count)?;
    let mut ins = memory::with_capacity(alloc, count)?;
    'parts: for one in sealed {
        let Part {
            worker,
            outs: to_each,
            ins: from_each,
            ..
        } = one.open();
        workers.push_reserved(worker);
        outs.push_reserved(to_each);
        ins.push_reserved(from_each);
    }
    Ok(Joined { workers, outs, ins })
}
