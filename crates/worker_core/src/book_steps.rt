//! The steps on the book.

ghost use Rattle.std.specs.Prelude.{◌≡◌, ◌<◌, ◌+◌, length, IsTrue, IsFalse, IfOk, Some};
ghost use Rattle.std.specs.FinMap as map;
ghost use Rattle.search_keys.specs.SearchKeys.{search_key};
ghost use Rattle.outcomes.specs.declared.outcome.Want.{Want};
ghost use Rattle.outcomes.specs.Outcomes.{Task};
ghost use Rattle.world_model.specs.declared.steps.HaltCause.{HaltCause};
ghost use Rattle.world_model.specs.Turns.{turn, refusal_in};
ghost use Rattle.world_model.specs.Workers.{Role, IsFloor};
ghost use Rattle.world_model.specs.BookSteps.{DrawStep, AnnounceStep, GrantStep, RestStep};
ghost use Rattle.world_model.specs.BookSteps.{HaltStep, refusal_of};
ghost use Rattle.world_model.specs.Costs.{IsNotBelow};
ghost use Rattle.world_model.specs.declared.parts.Known.{Known};
ghost use Rattle.quiescence.specs.Answers.{rested};
ghost use Rattle.search_lists.specs.Orders.{Guide};
ghost use Rattle.worker_core.specs.Roles.{IsRoleOf, IsGuided};
ghost use Rattle.worker_core.specs.Serving.{KeepsLists, KeepsOrder};
ghost use Rattle.worker_core.specs.Workers.{state_of, with_book};

use crate::goal::Goal;
use crate::packets::are_empty;
use crate::worker::Worker;
use incumbent::Best;
use message_ledger::Counting;
use owners::Spread;
use quiescence::{Book, Rested};
use world_model::{BookFault, HaltCause, Refusal};

impl<C: Counting> Worker<C> {
    /// Draws credit. Refusals: S11 the run is stopped, S12 the purse is empty, S16 the credit is
    /// too great.
    pub fn draw(&mut self, book: &mut Book<C>) -> Result<(), Refusal>
        requires counted { C.counts book.old.credit self.old.purse }
        ensures step { DrawStep (turn (with_book (state_of self.old) book.old) (refusal_in result)
            (with_book (state_of self.new) book.new)) }
        ensures keeps { KeepsLists self.old self.new }
    {
        if let Err(fault) = book.draw(&mut self.purse) {
            return Err(refusal_for(fault));
        }
        self.best = book.best();
        Ok(())
    }

    /// Announces the cost at which the goal is known. Refusals: S11 the run is stopped, S9 another
    /// worker owns the goal, or it is unknown, or its cost isn't below the best.
    pub fn announce<S: Spread>(
        &mut self,
        me: usize,
        goal: &Goal,
        owners: &S,
        book: &mut Book<C>,
    ) -> Result<(), Refusal>
        requires some { 0 < length self.old.unsent.items }
        ensures step { (role : Role) → IsRoleOf me goal.now role
            → role.owner goal.now ≡ S.owner_of owners.now (length self.old.unsent.items) goal.now
            → AnnounceStep role (turn (with_book (state_of self.old) book.old) (refusal_in result)
            (with_book (state_of self.new) book.new)) }
        ensures keeps { KeepsLists self.old self.new }
    {
        if book.stop().is_some() {
            return Err(Refusal::Stopped);
        }
        if owners.owner(goal.board(), self.unsent.len()) != me {
            return Err(Refusal::NothingToAnnounce);
        }
        let Some(known) = self.lists.get(goal.key()) else {
            return Err(Refusal::NothingToAnnounce);
        };
        if let Err(fault) = book.announce(known.cost) {
            return Err(refusal_for(fault));
        }
        self.best = book.best();
        Ok(())
    }

    /// Is granted expansions. Refusals: S11 the run is stopped, S1 no board may be expanded below
    /// the limit, S14 allowance is left, S2 all of the limit is granted.
    #[tactic(auto, using(crate::proofs::BackLemmas::guided_by_next))]
    pub fn grant(&mut self, book: &mut Book<C>) -> Result<(), Refusal>
        requires counted { C.counts book.old.granted self.old.allowance.granted }
        ensures step { (role : Role) (guide : Guide) → IsGuided role.task guide self.old.lists
            → GrantStep role (turn (with_book (state_of self.old) book.old) (refusal_in result)
            (with_book (state_of self.new) book.new)) }
        ensures keeps { KeepsOrder self.old self.new }
        ensures granted { self.new.allowance.granted + book.old.granted
            ≡ self.old.allowance.granted + book.new.granted }
    {
        if book.stop().is_some() {
            return Err(Refusal::Stopped);
        }
        let Some(_) = self.lists.next(book.best().limit()) else {
            return Err(Refusal::NothingBelowLimit);
        };
        if self.allowance.left() != 0 {
            return Err(Refusal::AllowanceLeft);
        }
        if let Err(fault) = book.grant(&mut self.allowance) {
            return Err(refusal_for(fault));
        }
        self.best = book.best();
        Ok(())
    }

    /// Rests: gives the purse back. Refusals: S11 the run is stopped, S12 the purse is empty, S10
    /// something is held or unsent, a better goal is known, or a board may be expanded.
    #[tactic(auto, using(crate::proofs::BackLemmas::guided_by_next))]
    pub fn rest(&mut self, me: usize, goal: &Goal, book: &mut Book<C>) -> Result<Rested, Refusal>
        requires counted { C.counts book.old.credit self.old.purse }
        requires there { me < length book.old.floors }
        ensures step { (role : Role) (guide : Guide) → IsRoleOf me goal.now role
            → IsGuided role.task guide self.old.lists
            → RestStep role (turn (with_book (state_of self.old) book.old) (refusal_in result)
            (with_book (state_of self.new) book.new)) }
        ensures answer { IfOk result (λ answer. answer ≡ rested book.new) }
        ensures keeps { KeepsOrder self.old self.new }
        ensures allowance { self.new.allowance ≡ self.old.allowance }
    {
        if book.stop().is_some() {
            return Err(Refusal::Stopped);
        }
        if self.purse.amount() == 0 {
            return Err(Refusal::PurseEmpty);
        }
        if !self.held.is_empty() {
            return Err(Refusal::NotIdle);
        }
        if !are_empty(&self.unsent) {
            return Err(Refusal::NotIdle);
        }
        if self.knows_better(goal, book.best()) {
            return Err(Refusal::NotIdle);
        }
        let floor = self.lists.floor();
        match book.rest(me, &mut self.purse, floor) {
            Ok(rested) => {
                self.best = book.best();
                Ok(rested)
            }
            Err(fault) => Err(refusal_for(fault)),
        }
    }

    /// The least cost plus sum of a board on its open list. Entries of the open list that are out
    /// of date go out.
    pub fn floor(&mut self) -> Option<u32>
        ensures floor { (task : Task) (guide : Guide) → IsGuided task guide self.old.lists
            → IsFloor task (state_of self.old) result }
        ensures same { state_of self.new ≡ state_of self.old }
        ensures guided { (task : Task) (guide : Guide)
            → IsGuided task guide self.old.lists → IsGuided task guide self.new.lists }
    {
        self.lists.floor()
    }

    /// Whether it knows the goal at a lower cost than the best.
    pub fn knows_better(&self, goal: &Goal, best: Best) -> bool
        ensures yes { IsTrue result → (known : Known)
            × (map.get self.now.lists.closed.known (search_key goal.now) ≡ Some known)
            × (¬ IsNotBelow (Some known.cost) best) }
        ensures no { IsFalse result → (known : Known)
            → map.get self.now.lists.closed.known (search_key goal.now) ≡ Some known
            → IsNotBelow (Some known.cost) best }
    {
        let Some(known) = self.lists.get(goal.key()) else {
            return false;
        };
        match best.cost() {
            Some(cost) => known.cost < cost,
            None => true,
        }
    }

    /// Halts the run. Refusals: S11 the run is stopped, S14 it is to be halted for the limit, and
    /// allowance is left, or not all of the limit is granted.
    pub fn halt(&mut self, cause: HaltCause, book: &mut Book<C>) -> Result<(), Refusal>
        requires { (want : Want) → cause ≡ HaltCause.Memory want → C.allows_want want }
        ensures step { HaltStep cause (turn (with_book (state_of self.old) book.old)
            (refusal_in result) (with_book (state_of self.new) book.new)) }
        ensures keeps { KeepsLists self.old self.new }
    {
        if book.stop().is_some() {
            return Err(Refusal::Stopped);
        }
        if cause == HaltCause::Limit && self.allowance.left() > 0 {
            return Err(Refusal::AllowanceLeft);
        }
        if let Err(fault) = book.halt(cause) {
            return Err(refusal_for(fault));
        }
        self.best = book.best();
        Ok(())
    }
}

// The refusal of a step, for a fault of the book's call.
fn refusal_for(fault: BookFault) -> Refusal
    ensures { result ≡ refusal_of fault }
{
    match fault {
        BookFault::RunStopped => Refusal::Stopped,
        BookFault::NoPurse => Refusal::PurseEmpty,
        BookFault::CreditFull => Refusal::PurseFull,
        BookFault::NotLower => Refusal::NothingToAnnounce,
        BookFault::NothingLeft => Refusal::NoAllowance,
        BookFault::FloorBelowLimit => Refusal::NotIdle,
        BookFault::AllowanceRemains => Refusal::AllowanceLeft,
    }
}
