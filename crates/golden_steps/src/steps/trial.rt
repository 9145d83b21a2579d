//! A worker whose steps are tried.

ghost use Rattle.std.specs.Prelude.{IfSome};
ghost use Rattle.test_worlds.specs.Jobs.{IsJobFit};

use crate::steps::scenes::Scene;
use board::{Board, Shape, Weights};
use memory::OutOfMemory;
use message_ledger::{Allowance, Purse, Tokens};
use owners::Spread;
use quiescence::{Book, Rested};
use std::alloc::Global;
use std::marker::Model;
use test_worlds::{Job, bound_of, expand, hire, meet, settle};
use worker_core::{Goal, Queue, Worker};
use world_model::{HaltCause, Item, Refusal};

/// One of two workers, and its task. Contracts see nothing of it: its type keeps that its lists are
/// in order.
#[derive(Drop)]
pub struct Trial<C: Tokens> {
    job: Job,
    worker: Worker<C>,
}

impl<C: Tokens> Model for Trial<C> {
    ghost use Rattle.std.specs.Prelude.{⊤};
    ghost use Rattle.test_worlds.specs.Jobs.{IsJobFit, IsGuidedToGoal};

    ghost Value = { ⊤ };

    ghost view = { λ _. tt };

    ghost invariant = { λ t. IsJobFit t.job × IsGuidedToGoal t.job t.worker.lists };
}

// The search of a scene: at unit cost for Korf's goal, led by the tables of its groups.
fn job_of(alloc: Global, scene: &Scene) -> Option<Job>
    ensures { IfSome result (λ job. IsJobFit job) }
{
    let shape = Shape::new(scene.side, scene.side).ok()?;
    let goal = Board::goal(shape);
    let weights = Weights::unit(shape);
    let bound = bound_of(alloc, &goal, &weights, scene.groups)?;
    Some(Job {
        goal,
        weights,
        bound,
    })
}

impl<C: Tokens> Trial<C> {
    /// The worker of a scene, which knows no board; None where the scene has no boards, or there is
    /// no memory.
    pub fn new(
        alloc: Global,
        scene: &Scene,
        purse: Purse<C>,
        allowance: Allowance<C>,
    ) -> Option<Self> {
        let Some(job) = job_of(alloc, scene) else {
            return None;
        };
        let Some(worker) = hire(alloc, &job, purse, allowance) else {
            return None;
        };
        Some(Trial { job, worker })
    }

    /// The shape of its boards.
    pub fn shape(&self) -> Shape {
        self.job.goal.shape()
    }

    /// The worker.
    pub fn worker(&self) -> &Worker<C> {
        &self.worker
    }

    /// A board is met. None where it is left out.
    pub fn meet(&mut self, alloc: Global, item: &Item) -> Option<Result<(), OutOfMemory>> {
        let Trial { job, worker } = self;
        meet(alloc, job, worker, item)
    }

    /// A board is expanded. None where that is left out.
    pub fn expand<S: Spread>(
        &mut self,
        alloc: Global,
        owners: &S,
        me: usize,
    ) -> Option<Result<(), Refusal>> {
        let Trial { job, worker } = self;
        expand(alloc, job, owners, me, worker)
    }

    /// The last item that is held is taken in. None where that is left out.
    pub fn settle<S: Spread>(
        &mut self,
        alloc: Global,
        owners: &S,
        me: usize,
    ) -> Option<Result<(), Refusal>> {
        let Trial { job, worker } = self;
        settle(alloc, job, owners, me, worker)
    }

    /// What is unsent for a worker goes into the lane. None where there is no such worker.
    pub fn send(&mut self, to: usize, lane: &mut Queue<C>) -> Option<Result<(), Refusal>> {
        if to >= self.worker.workers() {
            return None;
        }
        Some(self.worker.send(to, lane))
    }

    /// The first packet comes out of the lane.
    pub fn deliver(&mut self, lane: &mut Queue<C>) -> Result<(), Refusal> {
        self.worker.deliver(lane)
    }

    /// Credit is drawn.
    pub fn draw(&mut self, book: &mut Book<C>) -> Result<(), Refusal> {
        self.worker.draw(book)
    }

    /// The goal's cost is announced. None where there are no workers.
    pub fn announce<S: Spread>(
        &mut self,
        owners: &S,
        me: usize,
        book: &mut Book<C>,
    ) -> Option<Result<(), Refusal>> {
        if self.worker.workers() == 0 {
            return None;
        }
        Some(
            self.worker
                .announce(me, &Goal::new(&self.job.goal), owners, book),
        )
    }

    /// Expansions are granted.
    pub fn grant(&mut self, book: &mut Book<C>) -> Result<(), Refusal> {
        self.worker.grant(book)
    }

    /// The worker rests. None where the book has no such worker.
    pub fn rest(&mut self, me: usize, book: &mut Book<C>) -> Option<Result<Rested, Refusal>> {
        if me >= book.workers() {
            return None;
        }
        Some(self.worker.rest(me, &Goal::new(&self.job.goal), book))
    }

    /// The run is halted for its limit.
    pub fn halt_by_limit(&mut self, book: &mut Book<C>) -> Result<(), Refusal> {
        self.worker.halt(HaltCause::Limit, book)
    }

    /// The run is halted by its start.
    pub fn halt_by_start(&mut self, book: &mut Book<C>) -> Result<(), Refusal> {
        self.worker.halt(HaltCause::Start, book)
    }
}
