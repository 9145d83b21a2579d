//! Worlds of workers.

ghost use Rattle.std.specs.Prelude.{◌≡◌, ◌↔◌, ◌<◌, IfOk, IsErrOf, IsTrue, length};
ghost use Rattle.std.specs.Prelude.{slice_index_or};
ghost use Rattle.board.specs.declared.moves.Move.{Move};
ghost use Rattle.board.specs.Rows.{IsLowerBound};
ghost use Rattle.world_model.specs.Credit.{IsCredited};
ghost use Rattle.world_model.specs.Openings.{opening};
ghost use Rattle.world_model.specs.Shapes.{IsShaped};
ghost use Rattle.world_model.specs.Soundness.{IsSound};
ghost use Rattle.world_model.specs.Steps.{Next};
ghost use Rattle.world_model.specs.Turns.{turn, refusal_in};
ghost use Rattle.world_model.specs.Worlds.{IsLane};
ghost use Rattle.search_lists.specs.Lists.{empty_lists, HasMoreRoom};
ghost use Rattle.hda_run.specs.Jobs.{task_in};
ghost use Rattle.hda_run.specs.Worlds.{world_of, job_of, AreGuided, IsWorkerCount};

use crate::faults::WorldFault;
use crate::job::Job;
use crate::opening::open_parts;
use crate::parts::Parts;
use memory::OutOfMemory;
use message_ledger::Plain;
use owners::Spread;
use quiescence::Book;
use search_lists::SearchLists;
use std::alloc::Global;
use std::marker::Model;
use worker_core::{Ahead, Queue, Worker};
use world_model::laws::{
    openings_are_sound, steps_keep_credited, steps_keep_shaped, steps_keep_sound,
};
use world_model::{Refusal, Step, WORKER_LIMIT};

/// A job, and workers that share it on one thread. Whatever steps are taken, no board is lost, each
/// known one is reached, and the credit is what purses and packets have.
#[derive(Drop)]
pub struct World<'a, S: Spread> {
    pub(crate) parts: Parts<'a, S>,
    // What moves offer, found before they are made. No public contract speaks of it.
    pub(crate) ahead: Ahead,
}

impl<'a, S: Spread> Model for World<'a, S> {
    ghost use Rattle.std.specs.Coded.{codes};
    ghost use Rattle.search_lists.specs.Lists.{lists_code};
    ghost use Rattle.hda_run.specs.declared.parts.Parts.{Parts};
    ghost use Rattle.hda_run.specs.Worlds.{IsWorld};

    ghost Value = { Parts S };

    ghost coded = { Prim.hlevel (codes, lists_code) };

    ghost view = { λ w. w.parts };

    ghost invariant = { λ w. IsWorld S.owner_of w.parts w.ahead };
}

impl<'a, S: Spread> World<'a, S> {
    /// The opening world of a job, with this number of workers: the start's owner knows the start,
    /// and there is nothing else. Faults: V2 the workers are not from 1 to `WORKER_LIMIT`, V3
    /// memory was refused.
    pub fn new(
        alloc: Global,
        job: Job<'a>,
        workers: usize,
        spread: &'a S,
    ) -> Result<Self, WorldFault>
        ensures count { IsErrOf result WorldFault.WorkerCount
            ↔ (¬ IsWorkerCount workers) }
        ensures opening { IfOk result (λ world. (via : Move)
            × (world_of S.owner_of world ≡ opening (job_of S.owner_of job.entry spread.now workers) via)) }
        ensures job { IfOk result (λ world. world.job ≡ job.entry) }
        ensures owners { IfOk result (λ world. world.owners.now ≡ spread.now) }
    {
        if !is_worker_count(workers) {
            return Err(WorldFault::WorkerCount);
        }
        match World::open(alloc, job, workers, spread, SearchLists::new(alloc)) {
            Ok(world) => Ok(world),
            Err(refused) => Err(WorldFault::Memory(refused)),
        }
    }

    // The opening world of a job, with as many workers as there may be. The start's owner has these
    // lists, which know nothing: their memory may be that of a search before.
    pub(crate) fn open(
        alloc: Global,
        job: Job<'a>,
        workers: usize,
        spread: &'a S,
        lists: SearchLists,
    ) -> Result<Self, OutOfMemory>
        requires count { IsWorkerCount workers }
        requires empty { HasMoreRoom empty_lists lists }
        ensures opening { IfOk result (λ world. (via : Move)
            × (world_of S.owner_of world ≡ opening (job_of S.owner_of job.entry spread.now workers) via)) }
        ensures job { IfOk result (λ world. world.job ≡ job.entry) }
        ensures owners { IfOk result (λ world. world.owners.now ≡ spread.now) }
    {
        openings_are_sound();
        let _ = job.goal();
        let parts = open_parts(alloc, job, workers, spread, lists)?;
        let ahead = Ahead::new::<S>(alloc);
        Ok(World { parts, ahead })
    }
}

impl<'a, S: Spread> World<'a, S> {
    /// Takes a step. A refused one leaves the world as it was: S15 there is no such worker, or a
    /// lane would be from a worker to itself, or the refusal of the worker's step.
    pub fn step(&mut self, alloc: Global, step: Step) -> Result<(), Refusal>
        ensures step { Next step (turn (world_of S.owner_of self.old) (refusal_in result)
            (world_of S.owner_of self.new)) }
        ensures job { self.new.job ≡ self.old.job }
        ensures owners { self.new.owners.now ≡ self.old.owners.now }
    {
        steps_keep_shaped();
        steps_keep_sound();
        steps_keep_credited();
        self.parts.step(alloc, &mut self.ahead, step)
    }

    /// How many workers there are. Tells what each world keeps.
    pub fn workers(&self) -> usize
        ensures value { result ≡ length self.now.workers.items }
        ensures shaped { IsShaped (world_of S.owner_of self.now) }
        ensures sound { IsSound (world_of S.owner_of self.now) }
        ensures credited { IsCredited (world_of S.owner_of self.now) }
        ensures guided { AreGuided self.now }
        ensures bounded { IsLowerBound self.now.job.rule (task_in self.now.job).sum
            self.now.job.goal }
    {
        let _ = self.parts.job.bound();
        self.parts.workers.len()
    }

    /// The job.
    pub fn job(&self) -> &Job<'a>
        ensures { result.now ≡ self.now.job }
    {
        &self.parts.job
    }

    /// A worker, by its number.
    pub fn worker(&self, number: usize) -> &Worker<Plain>
        requires { number < length self.now.workers.items }
        ensures { result.now ≡ slice_index_or self.now.workers.items number result.now }
    {
        &self.parts.workers[number]
    }

    /// The book.
    pub fn book(&self) -> &Book<Plain>
        ensures { result.now ≡ self.now.book }
    {
        &self.parts.book
    }

    /// The lane from one worker to another.
    pub fn lane(&self, from: usize, to: usize) -> &Queue<Plain>
        requires sender { from < length self.now.workers.items }
        requires receiver { to < length self.now.workers.items }
        ensures { IsLane (world_of S.owner_of self.now) from to result.now }
    {
        let to_each = &self.parts.lanes[from];
        &to_each[to]
    }
}

/// Whether this many workers may share a job.
pub fn is_worker_count(workers: usize) -> bool
    ensures { IsTrue result ↔ IsWorkerCount workers }
{
    0 < workers && workers <= WORKER_LIMIT
}
