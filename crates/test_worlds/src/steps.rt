//! The steps of one of two workers.

ghost use Rattle.std.specs.Prelude.{◌≡◌, ◌<◌, IfSome};
ghost use Rattle.test_worlds.specs.Jobs.{IsJobFit, IsGuidedToGoal, lent};

use crate::problems::Job;
use board::GREATEST_COST;
use memory::OutOfMemory;
use message_ledger::{Allowance, Counting, Purse};
use owners::{ByBlank, Spread};
use std::alloc::Global;
use worker_core::laws::tasks_have_guides;
use worker_core::{Ahead, Context, Goal, Successors, Worker};
use world_model::{Item, Refusal};

// How many workers there are.
const WORKERS: usize = 2;

/// One of two workers, which knows no board. None where memory is refused.
pub fn hire<C: Counting>(
    alloc: Global,
    job: &Job,
    purse: Purse<C>,
    allowance: Allowance<C>,
) -> Option<Worker<C>>
    requires { IsJobFit job.now }
    ensures { IfSome result (λ worker. IsGuidedToGoal job.now worker.lists) }
{
    tasks_have_guides();
    let _ = job.goal.shape();
    let Ok(worker) = Worker::new(alloc, WORKERS, purse, allowance) else {
        return None;
    };
    Some(worker)
}

/// Meets a board. None where it has other sides than the goal, or costs too much.
pub fn meet<C: Counting>(
    alloc: Global,
    job: &Job,
    worker: &mut Worker<C>,
    item: &Item,
) -> Option<Result<(), OutOfMemory>>
    requires job { IsJobFit job.now }
    requires led { IsGuidedToGoal job.now worker.old.lists }
    ensures led { IsGuidedToGoal job.now worker.new.lists }
{
    if item.board.shape() != job.goal.shape() {
        return None;
    }
    if item.cost > GREATEST_COST {
        return None;
    }
    let goal = Goal::new(&job.goal);
    let context = context_of(job, &goal, &ByBlank, 0);
    Some(worker.meet(alloc, &context, item))
}

/// Expands a board. None where there are not two workers, or `me` is not one of them.
pub fn expand<C: Counting, S: Spread>(
    alloc: Global,
    job: &Job,
    owners: &S,
    me: usize,
    worker: &mut Worker<C>,
) -> Option<Result<(), Refusal>>
    requires job { IsJobFit job.now }
    requires led { IsGuidedToGoal job.now worker.old.lists }
    ensures led { IsGuidedToGoal job.now worker.new.lists }
{
    if me >= WORKERS || worker.workers() != WORKERS {
        return None;
    }
    let goal = Goal::new(&job.goal);
    let context = context_of(job, &goal, owners, me);
    let mut ahead = Ahead::new::<S>(alloc);
    Some(worker.expand(alloc, &context, &mut ahead, Successors::All))
}

// What the steps of one of two workers are lent.
fn context_of<'a, S: Spread>(
    job: &'a Job,
    goal: &'a Goal,
    owners: &'a S,
    me: usize,
) -> Context<'a, S>
    requires job { IsJobFit job.now }
    requires goal { goal.now ≡ job.now.goal }
    requires me { me < WORKERS }
    ensures { result ≡ lent job.now owners.now me }
{
    Context {
        me,
        workers: WORKERS,
        goal,
        weights: &job.weights,
        bound: &job.bound,
        owners,
    }
}

/// Settles the last item that is held. None where `me` is not one of two workers.
pub fn settle<C: Counting, S: Spread>(
    alloc: Global,
    job: &Job,
    owners: &S,
    me: usize,
    worker: &mut Worker<C>,
) -> Option<Result<(), Refusal>>
    requires job { IsJobFit job.now }
    requires led { IsGuidedToGoal job.now worker.old.lists }
    ensures led { IsGuidedToGoal job.now worker.new.lists }
{
    if me >= WORKERS {
        return None;
    }
    let goal = Goal::new(&job.goal);
    let context = context_of(job, &goal, owners, me);
    Some(worker.settle(alloc, &context))
}
