//! The lowest cost plus sum of what is still to be expanded.

ghost use Rattle.std.specs.Prelude.{◌≡◌, ℕ, Some, slice_get};
ghost use Rattle.lower_bound.specs.Bounds.{sum_of};
ghost use Rattle.lower_bound.specs.Tables.{parts_of};
ghost use Rattle.search_lists.specs.Orders.{Guide};
ghost use Rattle.world_model.specs.Costs.{lesser};
ghost use Rattle.world_model.specs.Workers.{WorkerState};
ghost use Rattle.worker_core.specs.Roles.{IsGuided};
ghost use Rattle.worker_core.specs.Workers.{state_of};
ghost use Rattle.world_ends.specs.Parts.{task_asked, states_of, AreWorkersGuided};
ghost use Rattle.world_ends.specs.Lowest.{IsLeastBeside, IsOfItem, IsOfUnsent, IsOfWorker};
ghost use Rattle.world_ends.specs.Lowest.{IsOfWorkers, AreItemsOn, HasItemsOn};

use crate::asked::Asked;
use lower_bound::Bound;
use message_ledger::Counting;
use worker_core::Worker;
use world_model::Item;

/// The least cost plus sum of items, or `lowest` where that is less; `None` where there is neither.
pub fn lowest_of(bound: &Bound, items: &[Item], lowest: Option<u32>) -> Option<u32>
    requires { AreItemsOn bound.now.split.grid items.now }
    ensures { IsLeastBeside (IsOfItem (sum_of (parts_of bound.now)) items.now) lowest result }
{
    let mut least = lowest;
    'items: for item in items {
        let f = item.cost + bound.of_keyed(&item.board);
        least = lesser(Some(f), least);
    }
    least
}

// The lesser of two costs. An absent one is above all.
pub(crate) fn lesser(first: Option<u32>, second: Option<u32>) -> Option<u32>
    ensures { result ≡ lesser first second }
{
    let Some(one) = first else {
        return second;
    };
    let Some(other) = second else {
        return first;
    };
    Some(one.min(other))
}

// The lesser of a number and the lowest cost plus sum of what all workers have.
pub(crate) fn lowest_of_workers<C: Counting>(
    asked: &Asked<'_>,
    workers: &mut [Worker<C>],
    lowest: Option<u32>,
) -> Option<u32>
    requires items { (i : ℕ) (worker : WorkerState) → slice_get (states_of workers.old) i ≡ Some worker
        → HasItemsOn asked.now.bound.now.split.grid worker }
    ensures least { (guide : Guide) → AreWorkersGuided (task_asked asked.now) guide workers.old
        → IsLeastBeside (IsOfWorkers (task_asked asked.now) (states_of workers.old)) lowest result }
    ensures same { states_of workers.new ≡ states_of workers.old }
{
    let mut least = lowest;
    'workers: for i in 0..workers.len() {
        least = lowest_of_worker(asked, &mut workers[i], least);
    }
    least
}

// The lesser of a number and the lowest cost plus sum of what a worker has.
fn lowest_of_worker<C: Counting>(
    asked: &Asked<'_>,
    worker: &mut Worker<C>,
    lowest: Option<u32>,
) -> Option<u32>
    requires items { HasItemsOn asked.now.bound.now.split.grid (state_of worker.old) }
    ensures least { (guide : Guide) → IsGuided (task_asked asked.now) guide worker.old.lists
        → IsLeastBeside (IsOfWorker (task_asked asked.now) (state_of worker.old)) lowest result }
    ensures same { state_of worker.new ≡ state_of worker.old }
    ensures guided { (guide : Guide) → IsGuided (task_asked asked.now) guide worker.old.lists
        → IsGuided (task_asked asked.now) guide worker.new.lists }
{
    let floor = worker.floor();
    let least = lesser(floor, lowest);
    let least = lowest_of(asked.bound, worker.held(), least);
    lowest_unsent(asked.bound, worker, least)
}

// The lesser of a number and the lowest cost plus sum of the items that a worker has unsent.
fn lowest_unsent<C: Counting>(bound: &Bound, worker: &Worker<C>, lowest: Option<u32>) -> Option<u32>
    requires { HasItemsOn bound.now.split.grid (state_of worker.now) }
    ensures { IsLeastBeside (IsOfUnsent (sum_of (parts_of bound.now)) (state_of worker.now))
        lowest result }
{
    let mut least = lowest;
    'packets: for to in 0..worker.workers() {
        least = lowest_of(bound, worker.unsent(to), least);
    }
    least
}
