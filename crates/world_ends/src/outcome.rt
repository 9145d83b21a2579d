//! The outcome of a run.

ghost use Rattle.std.specs.Prelude.{ℕ, ◌≡◌, ◌≢◌, ◌⊎◌, None, Some, IfOk, IfErr, option_map, max};
ghost use Rattle.std.specs.Prelude.{slice_get};
ghost use Rattle.lower_bound.specs.Bounds.{sum_of};
ghost use Rattle.lower_bound.specs.Tables.{parts_of};
ghost use Rattle.outcomes.specs.declared.outcome.Cause.TheVariants.{Memory};
ghost use Rattle.outcomes.specs.declared.outcome.Want.TheVariants.{Refused};
ghost use Rattle.outcomes.specs.declared.outcome.Outcome.TheVariants as outcome;
ghost use Rattle.outcomes.specs.declared.outcome.Ending.TheVariants.{Optimal, Bounded};
ghost use Rattle.search_lists.specs.Orders.{Guide};
ghost use Rattle.world_model.specs.Costs.{lesser};
ghost use Rattle.world_model.specs.Workers.{WorkerState};
ghost use Rattle.world_model.specs.Outcomes.{IsGiven, cause_of};
ghost use Rattle.world_model.specs.Worlds.{WorldState};
ghost use Rattle.world_ends.specs.Parts.{task_asked, states_of, AreOfWorld, HasParts, IsSeen};
ghost use Rattle.world_ends.specs.Parts.{AreWorkersGuided};
ghost use Rattle.world_ends.specs.Lowest.{IsLowestInLanes, IsLeastBeside, IsOfWorkers, HasItemsOn};
ghost use Rattle.world_ends.specs.Endings.{EndsIn, EndsWhole, HasPlanAbove};

use crate::asked::{Asked, Snapshot};
use crate::lowest::{lesser, lowest_of_workers};
use crate::plan::{known_of, plan_back};
use crate::rows::rows_for;
use board::Move;
use memory::OutOfMemory;
use message_ledger::Counting;
use outcomes::{Cause, Ending, Outcome, Want, Why};
use owners::Spread;
use std::alloc::Global;
use worker_core::Worker;
use world_model::{Known, Stop};

/// The outcome that the workers of a world give, at any moment.
pub(crate) fn outcome_of<C: Counting, S: Spread>(
    alloc: Global,
    asked: &Asked<'_>,
    owners: &S,
    workers: &mut [Worker<C>],
    snapshot: Snapshot,
) -> Outcome
    requires { AreOfWorld asked.now (S.owner_of owners.now) workers.old }
    ensures given { (w : WorldState)
        → IsSeen asked.now (S.owner_of owners.now) workers.old snapshot w
        → IsGiven w result }
    ensures same { states_of workers.new ≡ states_of workers.old }
{
    let ending = match whole_ending(alloc, asked, owners, workers, snapshot) {
        Ok(ending) => ending,
        Err(lacking) => return bound_alone(lacking.bound, lacking.refused),
    };
    match ending {
        Ending::Optimal { cost, plan } => match rows_for(alloc, asked, workers, cost) {
            Ok(rows) => Outcome::Optimal { cost, plan, rows },
            Err(refused) => bound_alone(cost, refused),
        },
        Ending::Unsolvable { why } => Outcome::Unsolvable { why },
        Ending::Bounded { bound, best, cause } => match rows_for(alloc, asked, workers, bound) {
            Ok(rows) => Outcome::Bounded {
                bound,
                best,
                cause,
                rows: Some(rows),
            },
            Err(refused) => bound_alone(bound, refused),
        },
    }
}

// The bound for whose plan or rows memory was refused.
fn bound_alone(bound: u32, refused: OutOfMemory) -> Outcome
    ensures { result ≡ outcome.Bounded bound None (Memory (Refused refused)) None }
{
    Outcome::Bounded {
        bound,
        best: None,
        cause: Cause::Memory(Want::Refused(refused)),
        rows: None,
    }
}

/// The same without rows, for which no memory is taken.
pub(crate) fn ending_of<C: Counting, S: Spread>(
    alloc: Global,
    asked: &Asked<'_>,
    owners: &S,
    workers: &mut [Worker<C>],
    snapshot: Snapshot,
) -> Ending
    requires { AreOfWorld asked.now (S.owner_of owners.now) workers.old }
    ensures given { (w : WorldState)
        → IsSeen asked.now (S.owner_of owners.now) workers.old snapshot w
        → EndsIn w result }
    ensures same { states_of workers.new ≡ states_of workers.old }
{
    match whole_ending(alloc, asked, owners, workers, snapshot) {
        Ok(ending) => ending,
        Err(lacking) => Ending::Bounded {
            bound: lacking.bound,
            best: None,
            cause: Cause::Memory(Want::Refused(lacking.refused)),
        },
    }
}

// The bound of a run where memory was refused for its plan.
#[derive(Clone, Copy, Debug)]
struct PlanLacking {
    bound: u32,
    refused: OutOfMemory,
}

// The ending, or the bound for whose plan memory was refused.
fn whole_ending<C: Counting, S: Spread>(
    alloc: Global,
    asked: &Asked<'_>,
    owners: &S,
    workers: &mut [Worker<C>],
    snapshot: Snapshot,
) -> Result<Ending, PlanLacking>
    requires { AreOfWorld asked.now (S.owner_of owners.now) workers.old }
    ensures given { IfOk result (λ ending. (w : WorldState)
        → IsSeen asked.now (S.owner_of owners.now) workers.old snapshot w
        → EndsWhole w ending) }
    ensures lacking { IfErr result (λ lacking. (w : WorldState)
        → HasParts (task_asked asked.now) (S.owner_of owners.now) (states_of workers.old) w
        → IsLowestInLanes w snapshot.lanes → HasPlanAbove w lacking.bound) }
    ensures same { states_of workers.new ≡ states_of workers.old }
{
    let lowest = lowest_in(asked, workers, snapshot);
    let reached = known_of(owners, workers, &asked.goal);
    let Some(floor) = floor_of(lowest, reached) else {
        return Ok(Ending::Unsolvable {
            why: Why::Exhausted,
        });
    };
    let bound = bound_of(asked, floor);
    let Some(known) = reached else {
        return Ok(without_plan(bound, snapshot.stop));
    };
    match plan_back(alloc, asked, owners, workers, known) {
        Ok(found) => Ok(with_plan(bound, snapshot.stop, found)),
        Err(refused) => Err(PlanLacking { bound, refused }),
    }
}

// The lowest cost plus sum of what the workers and the lanes have.
fn lowest_in<C: Counting>(
    asked: &Asked<'_>,
    workers: &mut [Worker<C>],
    snapshot: Snapshot,
) -> Option<u32>
    requires items { (i : ℕ) (worker : WorkerState) → slice_get (states_of workers.old) i ≡ Some worker
        → HasItemsOn asked.now.bound.now.split.grid worker }
    ensures least { (guide : Guide) → AreWorkersGuided (task_asked asked.now) guide workers.old
        → IsLeastBeside (IsOfWorkers (task_asked asked.now) (states_of workers.old)) snapshot.lanes
        result }
    ensures same { states_of workers.new ≡ states_of workers.old }
{
    lowest_of_workers(asked, workers, snapshot.lanes)
}

// The lesser of the lowest cost plus sum and of the cost at which the goal is known.
fn floor_of(lowest: Option<u32>, reached: Option<Known>) -> Option<u32>
    ensures { result ≡ lesser lowest (option_map (λ known. known.cost) reached) }
{
    lesser(lowest, cost_of(reached))
}

// The bound that a floor and the start's sum give.
fn bound_of(asked: &Asked<'_>, floor: u32) -> u32
    requires { asked.now.start.grid ≡ asked.now.bound.now.split.grid }
    ensures { result ≡ max (sum_of (parts_of asked.now.bound.now) asked.now.start) floor }
{
    asked.bound.of(&asked.start).max(floor)
}

// The ending of a run that knows no plan.
fn without_plan(bound: u32, stop: Option<Stop>) -> Ending
    ensures { result ≡ Bounded bound None (cause_of stop) }
{
    let cause = cause_of(stop);
    Ending::Bounded {
        bound,
        best: None,
        cause,
    }
}

// The ending of a run that knows a plan: it is optimal where its cost is the bound.
fn with_plan(bound: u32, stop: Option<Stop>, found: (u32, Vec<Move>)) -> Ending
    ensures { ((found.0 ≡ bound) × (result ≡ Optimal found.0 found.1))
        ⊎ ((found.0 ≢ bound) × (result ≡ Bounded bound (Some found) (cause_of stop))) }
{
    if found.0 != bound {
        return Ending::Bounded {
            bound,
            best: Some(found),
            cause: cause_of(stop),
        };
    }
    Ending::Optimal {
        cost: found.0,
        plan: found.1,
    }
}

// The cost at which a board is known, where it is.
fn cost_of(known: Option<Known>) -> Option<u32>
    ensures { result ≡ option_map (λ known. known.cost) known }
{
    let Some(known) = known else {
        return None;
    };
    Some(known.cost)
}

// The cause of a bound, by what stopped the run.
fn cause_of(stop: Option<Stop>) -> Cause
    ensures { result ≡ cause_of stop }
{
    let Some(stop) = stop else {
        return Cause::Cut;
    };
    match stop {
        Stop::Limit => Cause::Limit,
        Stop::Memory(want) => Cause::Memory(want),
        Stop::Start => Cause::Start,
        Stop::Quiet => Cause::Cost,
    }
}
