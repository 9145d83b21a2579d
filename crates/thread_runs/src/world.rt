//! The world of joined parts.

ghost use Rattle.std.specs.Prelude.{◌≡◌, ◌≤◌, ◌<◌, All, IfOk};
ghost use Rattle.outcomes.specs.Outcomes.{Task};
ghost use Rattle.search_lists.specs.Orders.{Guide};
ghost use Rattle.world_model.specs.declared.limits.TheConstants.{WORKER_LIMIT};
ghost use Rattle.world_model.specs.Worlds.{WorldState};
ghost use Rattle.world_ends.specs.Parts.{states_of, AreWorkersGuided};
ghost use Rattle.hda_run.specs.Jobs.{JobModel};
ghost use Rattle.thread_runs.specs.Threads.{IsJoint};
ghost use Rattle.thread_runs.specs.Worlds.{IsWorldOf};

use crate::apart::{Joined, take_apart};
use crate::ties::tie_all;
use memory::OutOfMemory;
use message_ledger::Tokens;
use owners::Spread;
use quiescence::Book;
use std::alloc::Global;
use thread_parts::Sealed;
use worker_core::Worker;
use world_model::thread_laws::joined_parts_are_sound;

/// Takes joined parts apart and looks at all rings and purses: with the book they are a sound
/// world, and where it is quiet all is at rest.
pub(crate) fn join_world<S: Spread, C: Tokens>(
    alloc: Global,
    book: &mut Book<C>,
    sealed: Vec<Sealed<'_, S, C>>,
) -> Result<Joined<C>, OutOfMemory>
    requires some { 0 < C.workers }
    requires few { C.workers ≤ WORKER_LIMIT }
    requires joint { (p : JobModel) × (owners : S) × IsJoint p owners C.workers sealed.items }
    ensures world { IfOk result (λ joined. (p : JobModel) (owners : S)
        → IsJoint p owners C.workers sealed.entry.items
        → (w : WorldState) × IsWorldOf S.owner_of p owners C.workers book.old
        joined.workers.items joined.ins.items w) }
    ensures book { book.new ≡ book.old }
{
    joined_parts_are_sound();
    let _ = book.workers();
    let Joined {
        mut workers,
        mut outs,
        mut ins,
    } = take_apart(alloc, sealed)?;
    tie_all(book, &mut outs, &mut ins);
    audit_all(book, &mut workers);
    let _ = book.stop();
    Ok(Joined { workers, outs, ins })
}

// Shows that each worker's purse is within the credit.
fn audit_all<C: Tokens>(book: &mut Book<C>, workers: &mut [Worker<C>])
    ensures bound { All (λ worker. worker.purse ≤ book.old.credit) (states_of workers.old) }
    ensures book { book.new ≡ book.old }
    ensures same { states_of workers.new ≡ states_of workers.old }
    ensures guided { (task : Task) (guide : Guide) → AreWorkersGuided task guide workers.old
        → AreWorkersGuided task guide workers.new }
{
    'workers: for i in 0..workers.len() {
        workers[i].audit(book);
    }
}
