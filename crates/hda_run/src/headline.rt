//! The main theorem: what a reader of an outcome may believe, whatever steps were taken.

ghost use Rattle.std.specs.Prelude.{◌↔◌, IfOk, IsErrOf};
ghost use Rattle.hda_run.specs.Headline.{IsOfSteps, TellsTruth};
ghost use Rattle.hda_run.specs.Worlds.{job_of, IsWorkerCount};

use crate::faults::WorldFault;
use crate::job::Job;
use crate::runs::run_steps;
use crate::world::World;
use outcomes::Outcome;
use owners::Spread;
use std::alloc::Global;
use world_model::Step;

/// Takes these steps in the opening world of a job, one after the other, and gives the outcome of
/// the world that they lead to. A refused step is passed over. Faults: V2 the workers are not from
/// 1 to `WORKER_LIMIT`, V3 memory was refused before the first step.
///
/// What the outcome says is true, whatever the steps are and wherever they end: so says the clause
/// `truth`.
pub fn run_and_finish<'a, S: Spread>(
    alloc: Global,
    job: Job<'a>,
    workers: usize,
    spread: &'a S,
    steps: &[Step],
) -> Result<Outcome, WorldFault>
    ensures count { IsErrOf result WorldFault.WorkerCount
        ↔ (¬ IsWorkerCount workers) }
    ensures run { IfOk result (IsOfSteps (job_of S.owner_of job.entry spread.now workers) steps.now) }
    ensures truth { IfOk result (TellsTruth job.entry) }
{
    let world = World::new(alloc, job, workers, spread)?;
    Ok(run_steps(alloc, world, steps).finish(alloc))
}
