//! What workers may expand: what is granted to each, and to all.

ghost use Rattle.std.specs.Prelude.{◌≡◌, ◌+◌, ◌^◌, ◌<◌, ◌≤◌};
ghost use Rattle.message_ledger.specs.Spending.{spent};

use crate::counting::Counting;
use crate::plain::Plain;
use crate::shares::{self, Capped, Shares};
use std::marker::Model;
use std::sync::ledger::{Blank, Ledger, Share};
use world_model::GREATEST_GRANT;

/// What was granted to all workers together. Contracts see it as a number.
#[derive(Drop)]
pub struct Grants<C: Counting> {
    total: C::Total,
}

impl<C: Counting> Model for Grants<C> {
    ghost use Rattle.std.specs.Prelude.{ℕ};

    ghost Value = { ℕ };

    ghost view = { λ g. C.total g.total };
}

impl<C: Counting> Grants<C> {
    /// The number of expansions that were granted.
    pub fn total(&self) -> u64
        ensures { result ≡ self.now }
    {
        C::total_of(&self.total)
    }
}

/// What was granted to one worker, and what is left of it; the rest was spent, 1 for each
/// expansion. So what was expanded needs no count of its own.
#[derive(Drop)]
pub struct Allowance<C: Counting> {
    ticket: C::Ticket,
    granted: u64,
    left: u32,
}

impl<C: Counting> Model for Allowance<C> {
    ghost use Rattle.std.specs.Prelude.{◌≡◌, ◌≤◌};
    ghost use Rattle.world_model.specs.declared.limits.TheConstants.{GREATEST_GRANT};
    ghost use Rattle.message_ledger.specs.Spending.{AllowanceModel};

    ghost Value = { AllowanceModel };

    ghost view = { λ a. record { granted = a.granted; left = a.left } };

    ghost invariant = { λ a. (C.granted a.ticket ≡ a.granted) × (a.left ≤ a.granted)
        × (a.left ≤ GREATEST_GRANT) };
}

impl<C: Counting> Allowance<C> {
    /// How many expansions are left.
    pub fn left(&self) -> u32
        ensures value { result ≡ self.now.left }
        ensures granted { self.now.left ≤ self.now.granted }
        ensures few { self.now.left ≤ GREATEST_GRANT }
    {
        self.left
    }

    /// How many expansions were spent.
    pub fn spent(&self) -> u64
        ensures { result ≡ spent self.now }
    {
        self.granted - u64::from(self.left)
    }

    /// Spends one.
    pub fn spend(&mut self)
        requires { 0 < self.old.left }
        ensures granted { self.new.granted ≡ self.old.granted }
        ensures left { self.new.left + 1 ≡ self.old.left }
    {
        self.left -= 1;
    }

    /// Grants more, where none is left, and so to all workers.
    pub fn grant(&mut self, grants: &mut Grants<C>, more: u32)
        requires none { self.old.left ≡ 0 }
        requires few { more ≤ GREATEST_GRANT }
        requires room { grants.old + more < 2 ^ 64 }
        requires counted { C.counts grants.old self.old.granted }
        ensures bound { self.old.granted ≤ grants.old }
        ensures worker { self.new ≡ record { granted = self.old.granted + more; left = more } }
        ensures grants { grants.new ≡ grants.old + more }
    {
        C::grant(&mut grants.total, &mut self.ticket, u64::from(more));
        self.granted += u64::from(more);
        self.left = more;
    }
}

impl Grants<Plain> {
    /// Nothing was granted.
    pub fn plain() -> Self
        ensures { result ≡ 0 }
    {
        Grants { total: 0 }
    }
}

impl Allowance<Plain> {
    /// Nothing was granted.
    pub fn plain() -> Self
        ensures { result ≡ record { granted = 0; left = 0 } }
    {
        Allowance {
            ticket: 0,
            granted: 0,
            left: 0,
        }
    }
}

impl<L: Ledger, M: Capped> Grants<Shares<L, M>> {
    /// Nothing was granted over a new ledger, and its tickets, as many as it has parts.
    pub fn shared(blank: Blank) -> (Self, Tickets<M>)
        requires name { blank.name ≡ M.name }
        requires parts { blank.parts ≡ M.parts }
        ensures grants { result.0 ≡ 0 }
        ensures tickets { result.1 ≡ blank.parts }
    {
        let (total, share) = Shares::<L, M>::open_total(blank);
        (Grants { total }, Tickets { share })
    }
}

/// The tickets of a ledger that no worker has yet. Contracts see how many there are.
#[derive(Drop)]
pub struct Tickets<M: Ledger> {
    share: Share<M>,
}

impl<M: Ledger> Model for Tickets<M> {
    ghost use Rattle.std.specs.Prelude.{ℕ, ◌≡◌};

    ghost Value = { ℕ };

    ghost view = { λ t. t.share.parts };

    ghost invariant = { λ t. t.share.amount ≡ 0 };
}

impl<M: Capped> Tickets<M> {
    /// Takes a ticket, by which nothing was granted yet.
    pub fn take<L: Ledger>(&mut self) -> Allowance<Shares<L, M>>
        requires { 0 < self.old }
        ensures left { self.new + 1 ≡ self.old }
        ensures none { result ≡ record { granted = 0; left = 0 } }
    {
        Allowance {
            ticket: shares::split_ticket(&mut self.share),
            granted: 0,
            left: 0,
        }
    }
}

impl<M: Ledger> Tickets<M> {
    /// Where each was taken: none came back yet.
    pub fn gather(self) -> Gathered<M>
        requires { self ≡ 0 }
        ensures { result ≡ record { tickets = 0; amount = 0 } }
    {
        let Tickets { share } = self;
        Gathered { share }
    }
}

/// The tickets that came back. Contracts see how many, and what was granted by them.
#[derive(Drop)]
pub struct Gathered<M: Ledger> {
    share: Share<M>,
}

impl<M: Ledger> Model for Gathered<M> {
    ghost use Rattle.message_ledger.specs.Spending.{GatheredModel};

    ghost Value = { GatheredModel };

    ghost view = { λ g. record { tickets = g.share.parts; amount = g.share.amount } };
}

impl<M: Capped> Gathered<M> {
    /// Takes in the ticket of an allowance.
    pub fn add<L: Ledger>(&mut self, allowance: Allowance<Shares<L, M>>)
        ensures tickets { self.new.tickets ≡ self.old.tickets + 1 }
        ensures amount { self.new.amount ≡ self.old.amount + allowance.granted }
    {
        let Allowance { ticket, .. } = allowance;
        shares::merge_ticket(&mut self.share, ticket);
    }

    /// Changes nothing, and tells that by these tickets no more was granted than to all workers,
    /// and just as much where all tickets came back.
    pub fn audit<L: Ledger>(&mut self, grants: &mut Grants<Shares<L, M>>)
        ensures tickets { self.new ≡ self.old }
        ensures grants { grants.new ≡ grants.old }
        ensures bound { self.old.amount ≤ grants.old }
        ensures whole { self.old.tickets ≡ M.parts → self.old.amount ≡ grants.old }
    {
        shares::audit_total(&mut grants.total, &mut self.share);
    }
}
