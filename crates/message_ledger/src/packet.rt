//! Packets of items.

ghost use Rattle.std.specs.Prelude.{◌≡◌, ◌+◌, ◌^◌, ◌<◌, ◌≤◌, length};
ghost use Rattle.arrayvec.specs.ArrayVec.{array_vec_len};

use crate::counting::Counting;
use crate::credit::Purse;
use arrayvec::ArrayVec;
use std::marker::Model;
use world_model::{Item, PACKET_LIMIT};

/// Items on their way, at least one and at most `PACKET_LIMIT`, with a share of exactly 1 of the
/// credit. Contracts see the items.
#[derive(Drop)]
pub struct Packet<C: Counting> {
    items: ArrayVec<Item, PACKET_LIMIT>,
    pub(crate) share: C::Part,
}

impl<C: Counting> Model for Packet<C> {
    ghost use Rattle.std.specs.Prelude.{◌≡◌, ◌<◌, List};
    ghost use Rattle.arrayvec.specs.ArrayVec.{array_vec_len};
    ghost use Rattle.world_model.specs.declared.parts.Item.{Item};

    ghost Value = { List Item };

    ghost view = { λ p. p.items.items };

    ghost invariant = { λ p. (C.amount p.share ≡ 1) × (0 < array_vec_len p.items) };
}

impl<C: Counting> Packet<C> {
    /// Items with a share of 1, which is taken off the purse.
    pub fn seal(items: ArrayVec<Item, PACKET_LIMIT>, purse: &mut Purse<C>) -> Packet<C>
        requires some { 0 < array_vec_len items }
        requires funds { 0 < purse.old }
        ensures items { result ≡ items.items }
        ensures purse { purse.new + 1 ≡ purse.old }
    {
        let Purse { part } = purse.split_one();
        Packet { items, share: part }
    }

    /// The items.
    pub fn items(&self) -> &[Item]
        ensures value { result.now ≡ self.now }
        ensures some { 0 < length self.now }
        ensures few { length self.now ≤ PACKET_LIMIT }
    {
        self.items.as_slice()
    }

    /// Gives the items out. The share goes into the purse.
    pub fn open(self, purse: &mut Purse<C>) -> ArrayVec<Item, PACKET_LIMIT>
        requires { purse.old + 1 < 2 ^ 64 }
        ensures items { result.items ≡ self }
        ensures some { 0 < array_vec_len result }
        ensures purse { purse.new ≡ purse.old + 1 }
    {
        let Packet { items, share } = self;
        purse.join(Purse { part: share });
        items
    }
}
