//! The five steps on the book. A worker whose purse is empty takes none of them, so that it rests
//! as it came to rest, whatever the book says.

ghost use Rattle.std.specs.Prelude.{◌≡◌, ◌≢◌, None, OnOk, OnErr, IfOk, IfErr};
ghost use Rattle.outcomes.specs.declared.outcome.Want.{Want};
ghost use Rattle.quiescence.specs.Answers.{rested};
ghost use Rattle.world_model.specs.declared.steps.HaltCause.{HaltCause};
ghost use Rattle.world_model.specs.BookSteps.{DrawStep, AnnounceStep, GrantStep, RestStep};
ghost use Rattle.world_model.specs.BookSteps.{HaltStep};
ghost use Rattle.world_model.specs.Turns.{turn, refusal_in};
ghost use Rattle.worker_core.specs.Workers.{state_of, with_book};
ghost use Rattle.thread_parts.specs.Parts.{role_of_part, IsSoundPart, ChangesItsWorker};
ghost use Rattle.thread_parts.specs.Steps.{WithPurse, IsBarred};

use crate::part::Part;
use message_ledger::Tokens;
use owners::Spread;
use quiescence::{Book, Rested};
use world_model::thread_laws::steps_are_kept;
use world_model::{HaltCause, Refusal};

impl<'a, S: Spread, C: Tokens> Part<'a, S, C> {
    /// Draws credit. Refusals: S11 the run is stopped, S12 the purse is empty, S16 the credit is
    /// too great.
    pub fn draw(&mut self, book: &mut Book<C>) -> Result<(), Refusal>
        requires { IsSoundPart S.owner_of C.workers self.old }
        ensures step { DrawStep (turn (with_book (state_of self.old.worker) book.old)
            (refusal_in result) (with_book (state_of self.new.worker) book.new)) }
        ensures part { ChangesItsWorker S.owner_of C.workers self.old self.new }
    {
        steps_are_kept();
        if let Err(refusal) = self.look_at(book) {
            return Err(refusal);
        }
        self.worker.draw(book)
    }

    /// Announces the cost at which the goal is known. Refusals: S11 the run is stopped, S12 the
    /// purse is empty, S9 another worker owns the goal, or it is unknown, or its cost isn't below
    /// the best.
    pub fn announce(&mut self, book: &mut Book<C>) -> Result<(), Refusal>
        requires { IsSoundPart S.owner_of C.workers self.old }
        ensures step { WithPurse (AnnounceStep (role_of_part S.owner_of C.workers self.old))
            (turn (with_book (state_of self.old.worker) book.old)
            (refusal_in result) (with_book (state_of self.new.worker) book.new)) }
        ensures part { ChangesItsWorker S.owner_of C.workers self.old self.new }
    {
        steps_are_kept();
        if let Err(refusal) = self.look_at(book) {
            return Err(refusal);
        }
        let goal = self.job.keyed_goal();
        let me = self.me;
        let owners = self.owners;
        self.worker.announce(me, goal, owners, book)
    }

    /// Is granted expansions. Refusals: S11 the run is stopped, S12 the purse is empty, S1 no board
    /// may be expanded below the limit, S14 allowance is left, S2 all of the limit is granted.
    pub fn grant(&mut self, book: &mut Book<C>) -> Result<(), Refusal>
        requires { IsSoundPart S.owner_of C.workers self.old }
        ensures step { WithPurse (GrantStep (role_of_part S.owner_of C.workers self.old))
            (turn (with_book (state_of self.old.worker) book.old)
            (refusal_in result) (with_book (state_of self.new.worker) book.new)) }
        ensures part { ChangesItsWorker S.owner_of C.workers self.old self.new }
    {
        steps_are_kept();
        if let Err(refusal) = self.look_at(book) {
            return Err(refusal);
        }
        self.worker.grant(book)
    }

    /// Rests: gives the purse back. Refusals: S11 the run is stopped, S12 the purse is empty, S10
    /// something is held or unsent, a better goal is known, or a board may be expanded.
    pub fn rest(&mut self, book: &mut Book<C>) -> Result<Rested, Refusal>
        requires { IsSoundPart S.owner_of C.workers self.old }
        ensures step { RestStep (role_of_part S.owner_of C.workers self.old)
            (turn (with_book (state_of self.old.worker) book.old)
            (refusal_in result) (with_book (state_of self.new.worker) book.new)) }
        ensures answer { IfOk result (λ answer. answer ≡ rested book.new) }
        ensures part { ChangesItsWorker S.owner_of C.workers self.old self.new }
    {
        steps_are_kept();
        if let Err(refusal) = self.look_at(book) {
            return Err(refusal);
        }
        let _ = book.workers();
        let goal = self.job.keyed_goal();
        let me = self.me;
        self.worker.rest(me, goal, book)
    }

    /// Halts the run. Refusals: S11 the run is stopped, S12 the purse is empty, S14 it is to be
    /// halted for the limit, and allowance is left, or not all of the limit is granted.
    pub fn halt(&mut self, cause: HaltCause, book: &mut Book<C>) -> Result<(), Refusal>
        requires holds { IsSoundPart S.owner_of C.workers self.old }
        requires want { (want : Want) → cause ≡ HaltCause.Memory want → C.allows_want want }
        ensures step { WithPurse (HaltStep cause)
            (turn (with_book (state_of self.old.worker) book.old)
            (refusal_in result) (with_book (state_of self.new.worker) book.new)) }
        ensures part { ChangesItsWorker S.owner_of C.workers self.old self.new }
    {
        steps_are_kept();
        if let Err(refusal) = self.look_at(book) {
            return Err(refusal);
        }
        self.worker.halt(cause, book)
    }

    // Refused where no step on the book may be taken: S11 the run is stopped, S12 the purse is
    // empty.
    fn look_at(&self, book: &Book<C>) -> Result<(), Refusal>
        ensures goes_on { OnOk result (book.now.stop ≡ None) }
        ensures purse { OnOk result ((state_of self.now.worker).purse ≢ 0) }
        ensures refused { IfErr result (λ refusal. IsBarred (state_of self.now.worker) book.now
            refusal) }
    {
        if book.stop().is_some() {
            return Err(Refusal::Stopped);
        }
        if self.worker.purse() == 0 {
            return Err(Refusal::PurseEmpty);
        }
        Ok(())
    }
}
