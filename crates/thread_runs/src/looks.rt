//! Whether a world of joined workers is kept.

ghost use Rattle.std.specs.Prelude.{◌≡◌, ◌↔◌, ◌<◌, ◌*◌, true, All, IsTrue, Some, length};
ghost use Rattle.std.specs.Prelude.{option_map};
ghost use Rattle.outcomes.specs.Outcomes.{Task};
ghost use Rattle.search_lists.specs.Orders.{Guide};
ghost use Rattle.world_model.specs.declared.limits.TheConstants.{GREATEST_GRANT};
ghost use Rattle.world_model.specs.declared.parts.Known.{Known};
ghost use Rattle.world_model.specs.Costs.{limit_of};
ghost use Rattle.world_model.specs.Quiet.{IsKept};
ghost use Rattle.world_model.specs.Workers.{HasNothingBelow};
ghost use Rattle.world_model.specs.Worlds.{WorldState};
ghost use Rattle.worker_core.specs.Roles.{IsGuided, guide_of};
ghost use Rattle.worker_core.specs.Workers.{state_of};
ghost use Rattle.world_ends.specs.Parts.{states_of, known_in, AreWorkersGuided, HasParts};
ghost use Rattle.hda_run.specs.Jobs.{task_in};
ghost use Rattle.thread_runs.specs.Worlds.{AreAtRest};

use board::Board;
use incumbent::Best;
use message_ledger::{Counting, Tokens};
use owners::Spread;
use quiescence::Book;
use search_keys::KeyedBoard;
use thread_parts::Search;
use worker_core::Worker;
use world_model::{GREATEST_GRANT, Known, Stop};

/// Whether the world of these workers is kept, where it stopped so and, if by Quiet, all is at
/// rest. An outcome is taken from such worlds alone.
pub(crate) fn is_kept<C: Tokens, S: Spread>(
    search: &Search<'_, S>,
    book: &Book<C>,
    workers: &mut [Worker<C>],
) -> bool
    requires limit { search.now.job.limit ≡ C.limit }
    requires count { length workers.old ≡ search.now.workers }
    requires guided { AreWorkersGuided (task_in search.now.job)
        (guide_of (task_in search.now.job)) workers.old }
    ensures kept { (w : WorldState) → HasParts (task_in search.now.job)
        (S.owner_of search.now.owners.now) (states_of workers.old) w
        → w.book ≡ book.now → (book.now.stop ≡ Some Stop.Quiet → AreAtRest w)
        → IsTrue result ↔ IsKept w }
    ensures same { states_of workers.new ≡ states_of workers.old }
    ensures guided { AreWorkersGuided (task_in search.now.job)
        (guide_of (task_in search.now.job)) workers.new }
{
    let Some(stop) = book.stop() else {
        return false;
    };
    match stop {
        Stop::Quiet => is_quiet(search, book.best(), workers),
        Stop::Limit => has_spent(search, workers),
        Stop::Memory(_) => true,
        Stop::Start => false,
    }
}

// Whether no open board is below the limit of the best cost, and this is the cost at which the goal
// is known.
fn is_quiet<C: Counting, S: Spread>(
    search: &Search<'_, S>,
    best: Best,
    workers: &mut [Worker<C>],
) -> bool
    requires some { 0 < length workers.old }
    requires guided { AreWorkersGuided (task_in search.now.job)
        (guide_of (task_in search.now.job)) workers.old }
    ensures quiet { IsTrue result ↔ ((option_map (λ known. known.cost)
        (known_in (S.owner_of search.now.owners.now) (states_of workers.old)
        search.now.job.goal) ≡ best)
        × All (λ worker. HasNothingBelow (task_in search.now.job) worker (limit_of best))
        (states_of workers.old)) }
    ensures same { states_of workers.new ≡ states_of workers.old }
    ensures guided { AreWorkersGuided (task_in search.now.job)
        (guide_of (task_in search.now.job)) workers.new }
{
    if !is_reached(search, best, workers) {
        return false;
    }
    are_high(workers, best.limit())
}

// Whether the goal is known at just the best cost that was announced.
fn is_reached<C: Counting, S: Spread>(
    search: &Search<'_, S>,
    best: Best,
    workers: &[Worker<C>],
) -> bool
    requires { 0 < length workers.now }
    ensures { IsTrue result ↔ (option_map (λ known. known.cost) (known_in
        (S.owner_of search.now.owners.now) (states_of workers.now) search.now.job.goal)
        ≡ best) }
{
    let Some(known) = known_of(search.owners, workers, search.job.goal()) else {
        return best.cost().is_none();
    };
    let Some(cost) = best.cost() else {
        return false;
    };
    known.cost == cost
}

// Whether the start is expanded, or the limit is no more than one grant for each worker.
fn has_spent<C: Counting, S: Spread>(search: &Search<'_, S>, workers: &[Worker<C>]) -> bool
    requires { length workers.now ≡ search.now.workers }
    ensures { IsTrue result ↔ (GREATEST_GRANT * length workers.now < search.now.job.limit
        → (known : Known) × (known_in (S.owner_of search.now.owners.now) (states_of workers.now)
        search.now.job.start ≡ Some known) × (known.expanded ≡ true)) }
{
    if search.job.limit() <= GREATEST_GRANT * workers.len() as u64 {
        return true;
    }
    let Some(known) = known_of(search.owners, workers, search.job.start()) else {
        return false;
    };
    known.expanded
}

// What the owner of a board knows of it.
fn known_of<C: Counting, S: Spread>(
    owners: &S,
    workers: &[Worker<C>],
    board: &Board,
) -> Option<Known>
    requires { 0 < length workers.now }
    ensures { result ≡ known_in (S.owner_of owners.now) (states_of workers.now) board.now }
{
    let owner = owners.owner(board, workers.len());
    workers[owner].lists().get(KeyedBoard::new(board).key())
}

// Whether no worker has a board on its open list with a cost plus sum below a limit.
fn are_high<C: Counting>(workers: &mut [Worker<C>], limit: u32) -> bool
    ensures high { (task : Task) (guide : Guide) → AreWorkersGuided task guide workers.old
        → IsTrue result
        ↔ All (λ worker. HasNothingBelow task worker limit) (states_of workers.old) }
    ensures same { states_of workers.new ≡ states_of workers.old }
    ensures guided { (task : Task) (guide : Guide) → AreWorkersGuided task guide workers.old
        → AreWorkersGuided task guide workers.new }
{
    'workers: for i in 0..workers.len() {
        if !is_high(&mut workers[i], limit) {
            return false;
        }
    }
    true
}

// Whether a worker has none.
fn is_high<C: Counting>(worker: &mut Worker<C>, limit: u32) -> bool
    ensures high { (task : Task) (guide : Guide) → IsGuided task guide worker.old.lists
        → IsTrue result ↔ HasNothingBelow task (state_of worker.old) limit }
    ensures same { state_of worker.new ≡ state_of worker.old }
    ensures guided { (task : Task) (guide : Guide) → IsGuided task guide worker.old.lists
        → IsGuided task guide worker.new.lists }
{
    let Some(least) = worker.floor() else {
        return true;
    };
    limit <= least
}
