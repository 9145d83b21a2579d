//! Worlds of workers as the runs of boards' jobs.

use crate::board_line::Opener;
use crate::stepping::Run;
use batch_runs::Setup;
use board::Board;
use hda_run::{Job, World, WorldFault};
use memory::OutOfMemory;
use outcomes::Outcome;
use owners::Spread;
use std::alloc::Global;
use world_model::{Refusal, Step};

impl<'a, P: Spread> Run for World<'a, P> {
    ghost use Rattle.hda_run.specs.Worlds.{world_of};

    ghost world = { world_of P.owner_of };

    fn step(&mut self, alloc: Global, step: Step) -> Result<(), Refusal> {
        self.step(alloc, step)
    }

    fn finish(self, alloc: Global) -> Outcome {
        self.finish(alloc)
    }
}

/// Opens the worlds of a setup's boards, which are spread so over its workers.
#[derive(Drop)]
pub(crate) struct Opening<'a, P: Spread> {
    pub(crate) setup: &'a Setup,
    pub(crate) spread: &'a P,
}

impl<'a, P: Spread> Opener<World<'a, P>> for Opening<'a, P> {
    ghost use Rattle.replay_runs.specs.Openings.{jobs_by};

    ghost jobs = { λ opening. jobs_by (P.owner_of opening.spread.now) opening.setup.now };

    fn open(self, alloc: Global, start: &Board) -> Result<World<'a, P>, OutOfMemory> {
        let Opening { setup, spread } = self;
        let job = Job::new(
            *start,
            setup.goal(),
            setup.weights(),
            setup.tables(),
            setup.expansion_limit(),
        )
        .unwrap();
        // By these calls the job is known to be as the law of runs needs it.
        let _ = job.goal();
        let _ = job.bound();
        match World::new(alloc, job, setup.worker_count(), spread) {
            Ok(world) => Ok(world),
            Err(WorldFault::Memory(refused)) => Err(refused),
            Err(WorldFault::WorkerCount) => unreachable!(),
        }
    }
}
