//! The two steps that a worker takes by itself.

ghost use Rattle.std.specs.Prelude.{◌≡◌};
ghost use Rattle.world_model.specs.Turns.{turn, refusal_in};
ghost use Rattle.world_model.specs.WorkerSteps.{ExpandOnwardStep};
ghost use Rattle.worker_core.specs.Settling.{SettleOrDrop};
ghost use Rattle.worker_core.specs.Workers.{state_of};
ghost use Rattle.thread_parts.specs.Parts.{role_of_part, IsSoundPart, ChangesItsWorker};

use crate::part::Part;
use message_ledger::Tokens;
use owners::Spread;
use std::alloc::Global;
use worker_core::Successors;
use world_model::Refusal;
use world_model::thread_laws::steps_are_kept;

impl<'a, S: Spread, C: Tokens> Part<'a, S, C> {
    /// Expands a board of least cost plus sum by all moves but the one back: whoever made its cost
    /// known, this worker or the one that sent it, knows the board before. Refusals: S1 no board
    /// may be expanded below the limit, S2 no allowance is left, S3 a packet has no room, S8 memory
    /// was refused.
    pub fn expand(&mut self, alloc: Global) -> Result<(), Refusal>
        requires { IsSoundPart S.owner_of C.workers self.old }
        ensures step { ExpandOnwardStep (role_of_part S.owner_of C.workers self.old)
            (turn (state_of self.old.worker) (refusal_in result) (state_of self.new.worker)) }
        ensures part { ChangesItsWorker S.owner_of C.workers self.old self.new }
    {
        steps_are_kept();
        let workers = self.worker.workers();
        let context = self.job.context(self.me, workers, self.owners);
        self.worker
            .expand(alloc, &context, &mut self.ahead, Successors::Onward)
    }

    /// Takes the last held item out: drops it where it is foreign, and else relaxes its board.
    /// Refusals: S13 nothing is held, S8 memory was refused.
    pub fn settle(&mut self, alloc: Global) -> Result<(), Refusal>
        requires { IsSoundPart S.owner_of C.workers self.old }
        ensures step { SettleOrDrop (role_of_part S.owner_of C.workers self.old)
            (turn (state_of self.old.worker) (refusal_in result) (state_of self.new.worker)) }
        ensures part { ChangesItsWorker S.owner_of C.workers self.old self.new }
    {
        steps_are_kept();
        let workers = self.worker.workers();
        self.worker
            .settle(alloc, &self.job.context(self.me, workers, self.owners))
    }
}
