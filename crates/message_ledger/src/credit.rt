//! Purses, and the credit that is the sum of them and of what packets carry.

ghost use Rattle.std.specs.Prelude.{◌≡◌, ◌+◌, ◌^◌, ◌<◌, ◌≤◌};

use crate::counting::Counting;
use crate::packet::Packet;
use crate::plain::Plain;
use crate::shares::{Capped, Shares};
use std::marker::Model;
use std::sync::ledger::{Blank, Ledger};

/// What a worker has of the credit. Contracts see its amount.
#[derive(Drop)]
pub struct Purse<C: Counting> {
    pub(crate) part: C::Part,
}

impl<C: Counting> Model for Purse<C> {
    ghost use Rattle.std.specs.Prelude.{ℕ};

    ghost Value = { ℕ };

    ghost view = { λ p. C.amount p.part };
}

impl<C: Counting> Purse<C> {
    /// The amount.
    pub fn amount(&self) -> u64
        ensures { result ≡ self.now }
    {
        C::amount_of(&self.part)
    }

    /// Takes a purse of amount 1 off.
    pub fn split_one(&mut self) -> Purse<C>
        requires { 0 < self.old }
        ensures one { result ≡ 1 }
        ensures left { self.new + 1 ≡ self.old }
    {
        Purse {
            part: C::split_one(&mut self.part),
        }
    }

    /// Takes in another purse.
    pub fn join(&mut self, other: Purse<C>)
        requires { self.old + other < 2 ^ 64 }
        ensures { self.new ≡ self.old + other }
    {
        let Purse { part } = other;
        C::join(&mut self.part, part);
    }
}

/// The sum of all purses and of the shares of all packets. Contracts see it as a number.
#[derive(Drop)]
pub struct Credit<C: Counting> {
    sum: C::Sum,
}

impl<C: Counting> Model for Credit<C> {
    ghost use Rattle.std.specs.Prelude.{ℕ};

    ghost Value = { ℕ };

    ghost view = { λ c. C.sum c.sum };
}

impl<C: Counting> Credit<C> {
    /// The sum.
    pub fn sum(&self) -> u64
        ensures { result ≡ self.now }
    {
        C::sum_of(&self.sum)
    }

    /// An empty purse of this credit.
    pub fn empty_purse(&mut self) -> Purse<C>
        ensures empty { result ≡ 0 }
        ensures kept { self.new ≡ self.old }
    {
        Purse {
            part: C::empty(&mut self.sum),
        }
    }

    /// Adds to a purse of this credit, and so to the credit.
    pub fn draw(&mut self, purse: &mut Purse<C>, more: u64)
        requires some { 0 < more }
        requires room { self.old + more < 2 ^ 64 }
        requires counted { C.counts self.old purse.old }
        ensures purse { purse.new ≡ purse.old + more }
        ensures credit { self.new ≡ self.old + more }
    {
        C::draw(&mut self.sum, &mut purse.part, more);
    }

    /// Takes all of a purse of this credit from it.
    pub fn give_back(&mut self, purse: &mut Purse<C>)
        requires counted { C.counts self.old purse.old }
        ensures bound { purse.old ≤ self.old }
        ensures purse { purse.new ≡ 0 }
        ensures credit { self.new + purse.old ≡ self.old }
    {
        C::give_back(&mut self.sum, &mut purse.part);
    }

    /// Changes nothing, and tells that a purse of this credit is within it.
    pub fn audit(&mut self, purse: &mut Purse<C>)
        requires counted { C.counts self.old purse.old }
        ensures bound { purse.old ≤ self.old }
        ensures purse { purse.new ≡ purse.old }
        ensures credit { self.new ≡ self.old }
    {
        C::audit(&mut self.sum, &mut purse.part);
    }

    /// Changes nothing, and tells that a packet whose share is of this credit is within it.
    pub fn audit_packet(&mut self, packet: &mut Packet<C>)
        requires counted { C.counts self.old 1 }
        ensures bound { 1 ≤ self.old }
        ensures packet { packet.new ≡ packet.old }
        ensures credit { self.new ≡ self.old }
    {
        C::audit(&mut self.sum, &mut packet.share);
    }
}

impl Credit<Plain> {
    /// A credit of 1, and the purse that has it.
    pub fn plain() -> (Credit<Plain>, Purse<Plain>)
        ensures credit { result.0 ≡ 1 }
        ensures purse { result.1 ≡ 1 }
    {
        (Credit { sum: 1 }, Purse { part: 1 })
    }
}

impl<L: Ledger, M: Capped> Credit<Shares<L, M>> {
    /// A credit of 1 over a new ledger, and the purse that has it.
    pub fn shared(blank: Blank) -> (Credit<Shares<L, M>>, Purse<Shares<L, M>>)
        requires name { blank.name ≡ L.name }
        requires parts { blank.parts ≡ L.parts }
        requires all { blank.parts + 1 ≡ 2 ^ 64 }
        ensures credit { result.0 ≡ 1 }
        ensures purse { result.1 ≡ 1 }
    {
        let (sum, part) = Shares::<L, M>::open_credit(blank);
        (Credit { sum }, Purse { part })
    }
}
