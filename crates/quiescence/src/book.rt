//! The book and its calls.

ghost use Rattle.std.specs.Prelude.{◌≡◌, ◌+◌, ◌<◌, ◌≤◌, ◌↔◌, IsTrue, IfOk, OnOk, OnErr};
ghost use Rattle.std.specs.Prelude.{All, None, Some, length, replicate};
ghost use Rattle.outcomes.specs.declared.outcome.Want.{Want};
ghost use Rattle.world_model.specs.Turns.{turn, refusal_in};
ghost use Rattle.world_model.specs.Costs.{IsNotBelow, limit_of};
ghost use Rattle.world_model.specs.Books.{grant_of};
ghost use Rattle.world_model.specs.BookCalls.{BookDraw, BookAnnounce, BookGrant, BookRest};
ghost use Rattle.world_model.specs.BookCalls.{BookHalt};
ghost use Rattle.quiescence.specs.Answers.{account, rested};

use arrayvec::ArrayVec;
use incumbent::Best;
use message_ledger::{Allowance, Counting, Credit, Grants, Packet, Purse};
use std::marker::Model;
use world_model::{BookFault, CREDIT_DRAWN, GREATEST_GRANT, HaltCause, Stop, WORKER_LIMIT};

// No more is drawn where the credit is above this, so that no sum wraps.
const FULL_CREDIT: u64 = 1 << 63;

/// The answer to a worker that rests.
#[derive(Clone, Copy, Debug, PartialEq, Eq)]
pub enum Rested {
    /// Others go on, or packets are under way.
    Waits,
    /// No credit is left: the run has stopped.
    Quiet,
}

/// What all workers of a run share. Its calls take no memory, and a call that is refused leaves
/// everything as it was.
#[derive(Drop)]
pub struct Book<C: Counting> {
    credit: Credit<C>,
    best: Best,
    // What each worker said when it rested last.
    floors: ArrayVec<Option<u32>, WORKER_LIMIT>,
    grants: Grants<C>,
    limit: u64,
    stop: Option<Stop>,
}

impl<C: Counting> Model for Book<C> {
    ghost use Rattle.world_model.specs.Books.{BookState};
    ghost use Rattle.quiescence.specs.Lawful.{IsLawfulBook};

    ghost Value = { BookState };

    ghost view = { λ b. record {
      credit = b.credit;
      best = b.best;
      floors = b.floors.items;
      granted = b.grants;
      limit = b.limit;
      stop = b.stop;
    } };

    ghost invariant = { λ b. IsLawfulBook C.allows_limit C.allows_workers C.allows_want (record {
      credit = b.credit;
      best = b.best;
      floors = b.floors.items;
      granted = b.grants;
      limit = b.limit;
      stop = b.stop;
    }) };
}

impl<C: Counting> Book<C> {
    /// The book of a run that begins: no plan is known, and nothing is granted yet.
    pub fn new(credit: Credit<C>, grants: Grants<C>, limit: u64, workers: usize) -> Self
        requires none { grants ≡ 0 }
        requires limit { C.allows_limit limit }
        requires workers { C.allows_workers workers }
        requires few { workers ≤ WORKER_LIMIT }
        ensures { result ≡ record {
          credit = credit;
          best = None;
          floors = replicate workers None;
          granted = 0;
          limit = limit;
          stop = None;
        } }
    {
        let mut floors = ArrayVec::from_array_in((), [None; WORKER_LIMIT]);
        floors.truncate(workers);
        Book {
            credit,
            best: Best::new(),
            floors,
            grants,
            limit,
            stop: None,
        }
    }

    /// What stopped the run; None while it goes on.
    pub fn stop(&self) -> Option<Stop>
        ensures value { result ≡ self.now.stop }
        ensures allowed { C.allows_limit self.now.limit }
        ensures within { self.now.granted ≤ self.now.limit }
        ensures quiet { result ≡ Some Stop.Quiet → self.now.credit ≡ 0 }
        ensures limit { result ≡ Some Stop.Limit → self.now.granted ≡ self.now.limit }
        ensures want { (want : Want) → result ≡ Some (Stop.Memory want) → C.allows_want want }
        ensures floors { All (λ floor. IsNotBelow floor (Some (limit_of self.now.best)))
            self.now.floors }
    {
        self.stop
    }

    /// How many workers share the book.
    pub fn workers(&self) -> usize
        ensures value { result ≡ length self.now.floors }
        ensures allowed { C.allows_workers result }
    {
        self.floors.len()
    }

    /// The cost of the best plan that was announced.
    pub fn best(&self) -> Best
        ensures { result ≡ self.now.best }
    {
        self.best
    }

    /// The sum of all purses and of what packets carry.
    pub fn credit(&self) -> u64
        ensures { result ≡ self.now.credit }
    {
        self.credit.sum()
    }

    /// Adds `CREDIT_DRAWN` to a purse of the credit, and so to the credit. Refusals: Q1 the run has
    /// stopped, Q2 the purse is empty, Q3 the credit is above 2^63.
    pub fn draw(&mut self, purse: &mut Purse<C>) -> Result<(), BookFault>
        requires counted { C.counts self.old.credit purse.old }
        ensures call { BookDraw (turn (account self.old purse.old) (refusal_in result)
            (account self.new purse.new)) }
    {
        if self.stop.is_some() {
            return Err(BookFault::RunStopped);
        }
        if purse.amount() == 0 {
            return Err(BookFault::NoPurse);
        }
        if self.credit.sum() > FULL_CREDIT {
            return Err(BookFault::CreditFull);
        }
        self.credit.draw(purse, CREDIT_DRAWN);
        Ok(())
    }

    /// Takes this cost as the best one. Refusals: Q1 the run has stopped, Q4 the cost isn't below
    /// the best one.
    pub fn announce(&mut self, cost: u32) -> Result<(), BookFault>
        ensures call { BookAnnounce cost (turn self.old (refusal_in result) self.new) }
    {
        if self.stop.is_some() {
            return Err(BookFault::RunStopped);
        }
        let Ok(()) = self.best.announce(cost) else {
            return Err(BookFault::NotLower);
        };
        Ok(())
    }

    /// Grants a worker that has no allowance left the smaller of `GREATEST_GRANT` and what is left
    /// of the limit, and answers how much that is. Refusals: Q1 the run has stopped, Q5 all of the
    /// limit is granted.
    pub fn grant(&mut self, allowance: &mut Allowance<C>) -> Result<u32, BookFault>
        requires none { allowance.old.left ≡ 0 }
        requires counted { C.counts self.old.granted allowance.old.granted }
        ensures call { BookGrant (turn self.old (refusal_in result) self.new) }
        ensures amount { IfOk result (λ more. more ≡ grant_of self.old) }
        ensures granted { IfOk result (λ more. allowance.new
            ≡ record { granted = allowance.old.granted + more; left = more }) }
        ensures refused { OnErr result (allowance.new ≡ allowance.old) }
    {
        if self.stop.is_some() {
            return Err(BookFault::RunStopped);
        }
        let left = self.limit - self.grants.total();
        if left == 0 {
            return Err(BookFault::NothingLeft);
        }
        let more = left.min(GREATEST_GRANT) as u32;
        allowance.grant(&mut self.grants, more);
        Ok(more)
    }

    /// Takes all of a worker's purse from the credit, and keeps its floor, the least cost plus sum
    /// of its open boards. Where no credit is left, the run has stopped. Refusals: Q1 the run has
    /// stopped, Q2 the purse is empty, Q6 the floor is below the limit of the best cost.
    pub fn rest(
        &mut self,
        worker: usize,
        purse: &mut Purse<C>,
        floor: Option<u32>,
    ) -> Result<Rested, BookFault>
        requires counted { C.counts self.old.credit purse.old }
        requires there { worker < length self.old.floors }
        ensures call { BookRest worker floor (turn (account self.old purse.old)
            (refusal_in result) (account self.new purse.new)) }
        ensures answer { IfOk result (λ answer. answer ≡ rested self.new) }
        ensures bound { OnOk result (purse.old ≤ self.old.credit) }
    {
        if self.stop.is_some() {
            return Err(BookFault::RunStopped);
        }
        if purse.amount() == 0 {
            return Err(BookFault::NoPurse);
        }
        if is_below(floor, self.best.limit()) {
            return Err(BookFault::FloorBelowLimit);
        }
        self.credit.give_back(purse);
        self.floors[worker] = floor;
        if self.credit.sum() > 0 {
            return Ok(Rested::Waits);
        }
        self.stop = Some(Stop::Quiet);
        Ok(Rested::Quiet)
    }

    /// Stops the run. Refusals: Q1 the run has stopped, Q7 it is to be halted for the limit, and
    /// not all of the limit is granted.
    pub fn halt(&mut self, cause: HaltCause) -> Result<(), BookFault>
        requires { (want : Want) → cause ≡ HaltCause.Memory want → C.allows_want want }
        ensures call { BookHalt cause (turn self.old (refusal_in result) self.new) }
    {
        if self.stop.is_some() {
            return Err(BookFault::RunStopped);
        }
        match cause {
            HaltCause::Limit => {
                if self.grants.total() < self.limit {
                    return Err(BookFault::AllowanceRemains);
                }
                self.stop = Some(Stop::Limit);
            }
            HaltCause::Memory(want) => self.stop = Some(Stop::Memory(want)),
            HaltCause::Start => self.stop = Some(Stop::Start),
        }
        Ok(())
    }

    /// Changes nothing, and tells that a purse of the credit is within it.
    pub fn audit(&mut self, purse: &mut Purse<C>)
        requires counted { C.counts self.old.credit purse.old }
        ensures bound { purse.old ≤ self.old.credit }
        ensures purse { purse.new ≡ purse.old }
        ensures book { self.new ≡ self.old }
    {
        self.credit.audit(purse);
    }

    /// Changes nothing, and tells that a packet whose share is of the credit is within it.
    pub fn audit_packet(&mut self, packet: &mut Packet<C>)
        requires counted { C.counts self.old.credit 1 }
        ensures bound { 1 ≤ self.old.credit }
        ensures packet { packet.new ≡ packet.old }
        ensures book { self.new ≡ self.old }
    {
        self.credit.audit_packet(packet);
    }

    /// What was granted to all workers.
    pub fn into_grants(self) -> Grants<C>
        ensures { result ≡ self.granted }
    {
        let Book { grants, .. } = self;
        grants
    }
}

// Whether a floor is below a limit. An absent one is above all numbers.
fn is_below(floor: Option<u32>, limit: u32) -> bool
    ensures { IsTrue result ↔ (¬ IsNotBelow floor (Some limit)) }
{
    match floor {
        Some(least) => least < limit,
        None => false,
    }
}
