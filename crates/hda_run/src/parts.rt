//! The parts of a world, and their steps.

ghost use Rattle.std.specs.Prelude.{ℕ, ◌≡◌, ◌≢◌, ◌⊎◌, ◌↔◌, ◌<◌, ◌≤◌, IsTrue, IsFalse, length};
ghost use Rattle.outcomes.specs.Outcomes.{Task};
ghost use Rattle.search_lists.specs.Orders.{Guide};
ghost use Rattle.worker_core.specs.declared.expanding.Successors.{Successors};
ghost use Rattle.worker_core.specs.Ahead.{AreFoundAhead};
ghost use Rattle.worker_core.specs.Roles.{IsRoleOf, IsGuided};
ghost use Rattle.worker_core.specs.Workers.{state_of, with_book, at_lane};
ghost use Rattle.world_model.specs.declared.steps.Step.{Step};
ghost use Rattle.world_model.specs.BookSteps.{RestStep};
ghost use Rattle.world_model.specs.Steps.{Next};
ghost use Rattle.world_model.specs.Turns.{turn, refusal_in};
ghost use Rattle.world_model.specs.Workers.{Role};
ghost use Rattle.world_model.specs.WorkerSteps.{SendStep, DeliverStep};
ghost use Rattle.hda_run.specs.Kinds.{Lacks};
ghost use Rattle.hda_run.specs.Worlds.{world_of, IsLawful, AreGuided, terms_in};

use crate::job::Job;
use message_ledger::Plain;
use owners::Spread;
use quiescence::Book;
use std::alloc::Global;
use worker_core::laws::onward_steps_alone_are_whole;
use worker_core::{Ahead, Goal, Queue, Successors, Worker};
use world_model::{Refusal, Step};

/// What a world is made of.
#[derive(Drop)]
pub struct Parts<'a, S: Spread> {
    pub(crate) job: Job<'a>,
    pub(crate) owners: &'a S,
    pub(crate) workers: Vec<Worker<Plain>>,
    pub(crate) book: Book<Plain>,
    /// For each worker its lanes to each worker.
    pub(crate) lanes: Vec<Vec<Queue<Plain>>>,
}

impl<'a, S: Spread> Parts<'a, S> {
    /// A step. S15 comes before all other refusals. What was found ahead is of these parts' search.
    pub(crate) fn step(
        &mut self,
        alloc: Global,
        ahead: &mut Ahead,
        step: Step,
    ) -> Result<(), Refusal>
        requires lawful { IsLawful S.owner_of self.old }
        requires found { AreFoundAhead S.owner_of (terms_in self.old) ahead.old }
        ensures step { Next step (turn (world_of S.owner_of self.old) (refusal_in result)
            (world_of S.owner_of self.new)) }
        ensures guided { AreGuided self.new }
        ensures found { AreFoundAhead S.owner_of (terms_in self.old) ahead.new }
        ensures job { self.new.job ≡ self.old.job }
        ensures owners { self.new.owners.now ≡ self.old.owners.now }
    {
        onward_steps_alone_are_whole();
        let Step::Expand(me) = step else {
            return self.other_step(alloc, step);
        };
        let count = self.workers.len();
        if me >= count {
            return Err(Refusal::NoSuchWorker);
        }
        let context = self.job.context(me, count, self.owners);
        self.workers[me].expand(alloc, &context, ahead, successors_for(count))
    }

    // A step that expands nothing. Most steps expand, and pay for no look at the others.
    fn other_step(&mut self, alloc: Global, step: Step) -> Result<(), Refusal>
        requires lawful { IsLawful S.owner_of self.old }
        requires other { (me : ℕ) → step ≢ Step.Expand me }
        ensures step { Next step (turn (world_of S.owner_of self.old) (refusal_in result)
            (world_of S.owner_of self.new)) }
        ensures guided { AreGuided self.new }
        ensures job { self.new.job ≡ self.old.job }
        ensures owners { self.new.owners.now ≡ self.old.owners.now }
    {
        let count = self.workers.len();
        if lacks(count, step) {
            return Err(Refusal::NoSuchWorker);
        }
        let goal = self.job.keyed_goal();
        match step {
            Step::Expand(_) => unreachable!(),
            Step::Settle(me) => {
                let context = self.job.context(me, count, self.owners);
                self.workers[me].settle(alloc, &context)
            }
            Step::Send(me, to) => {
                let to_each = &mut self.lanes[me];
                send_on(&mut self.workers[me], to, &mut to_each[to])
            }
            Step::Deliver(me, from) => {
                let to_each = &mut self.lanes[from];
                deliver_from(&mut self.workers[me], &mut to_each[me])
            }
            Step::Draw(me) => self.workers[me].draw(&mut self.book),
            Step::Announce(me) => self.workers[me].announce(me, goal, self.owners, &mut self.book),
            Step::Grant(me) => self.workers[me].grant(&mut self.book),
            Step::Rest(me) => rest_by(&mut self.workers[me], me, goal, &mut self.book),
            Step::Halt(me, cause) => self.workers[me].halt(cause, &mut self.book),
        }
    }
}

// Whether a step is by a worker that isn't below a count, or between two that aren't two different
// ones below it.
fn lacks(workers: usize, step: Step) -> bool
    ensures { IsTrue result ↔ Lacks workers step }
{
    match step {
        Step::Send(from, to) => !are_two(workers, from, to),
        Step::Deliver(to, from) => !are_two(workers, from, to),
        Step::Expand(me) => workers <= me,
        Step::Settle(me) => workers <= me,
        Step::Draw(me) => workers <= me,
        Step::Announce(me) => workers <= me,
        Step::Grant(me) => workers <= me,
        Step::Rest(me) => workers <= me,
        Step::Halt(me, _) => workers <= me,
    }
}

// Whether these are two different workers, both below a count.
fn are_two(workers: usize, from: usize, to: usize) -> bool
    ensures yes { IsTrue result → (from ≢ to) × (from < workers) × (to < workers) }
    ensures no { IsFalse result → (from ≡ to) ⊎ (workers ≤ from) ⊎ (workers ≤ to) }
{
    from != to && from < workers && to < workers
}

// The successors that one of these workers takes. One alone knows the board before each that it
// expands, so it leaves the move back out.
fn successors_for(workers: usize) -> Successors
    ensures { (result ≡ Successors.Onward) ↔ (workers ≡ 1) }
{
    if workers == 1 {
        Successors::Onward
    } else {
        Successors::All
    }
}

// Sends what is unsent for a worker by the lane to it.
fn send_on(worker: &mut Worker<Plain>, to: usize, lane: &mut Queue<Plain>) -> Result<(), Refusal>
    requires { to < length worker.old.unsent.items }
    ensures step { SendStep to (turn (at_lane (state_of worker.old) lane.old) (refusal_in result)
        (at_lane (state_of worker.new) lane.new)) }
    ensures lists { worker.new.lists ≡ worker.old.lists }
{
    worker.send(to, lane)
}

// Takes in the first packet of a lane.
fn deliver_from(worker: &mut Worker<Plain>, lane: &mut Queue<Plain>) -> Result<(), Refusal>
    ensures step { DeliverStep (turn (at_lane (state_of worker.old) lane.old) (refusal_in result)
        (at_lane (state_of worker.new) lane.new)) }
    ensures lists { worker.new.lists ≡ worker.old.lists }
{
    worker.deliver(lane)
}

// A worker rests. The book has what it answers too.
fn rest_by(
    worker: &mut Worker<Plain>,
    me: usize,
    goal: &Goal,
    book: &mut Book<Plain>,
) -> Result<(), Refusal>
    requires counted { worker.old.purse ≤ book.old.credit }
    requires there { me < length book.old.floors }
    ensures step { (role : Role) (guide : Guide) → IsRoleOf me goal.now role
        → IsGuided role.task guide worker.old.lists
        → RestStep role (turn (with_book (state_of worker.old) book.old) (refusal_in result)
        (with_book (state_of worker.new) book.new)) }
    ensures guided { (task : Task) (guide : Guide) → IsGuided task guide worker.old.lists
        → IsGuided task guide worker.new.lists }
{
    match worker.rest(me, goal, book) {
        Ok(_) => Ok(()),
        Err(refusal) => Err(refusal),
    }
}
