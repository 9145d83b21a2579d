//! Lanes, by which packets go from one worker to another.

ghost use Rattle.std.specs.Prelude.{◌≡◌, ◌≢◌, ◌<◌, ◌≤◌, [], ◌∷◌, ◌++◌, List, length};
ghost use Rattle.std.specs.Prelude.{slice_index_or};
ghost use Rattle.std.specs.Prelude.{IfOk, OnOk, OnErr, IfErr, IfSome, IfNone};
ghost use Rattle.world_model.specs.declared.limits.TheConstants.{PACKET_LIMIT, LANE_LIMIT};
ghost use Rattle.world_model.specs.declared.parts.Item.{Item};

use memory::OutOfMemory;
use message_ledger::{Counting, Packet};
use std::alloc::Global;
use std::collections::VecDeque;
use std::marker::Model;
use world_model::{Item, LANE_LIMIT};

/// The end of a lane at which packets go in.
pub trait LaneOut<P> {
    /// The lane took a packet.
    ghost takes: { Self → P → Self → Type 0 };

    /// What must be so where it takes none.
    ghost may_be_full: { Self → Type 0 };

    /// Nothing has changed.
    ghost is_same: { Self → Self → Type 0 };

    /// So where no call was made.
    ghost reflexive: { (lane : Self) → is_same lane lane };

    /// Takes a packet, or gives it back.
    fn push(&mut self, packet: P) -> Result<(), P>
        ensures ok { OnOk result (takes self.old packet self.new) }
        ensures back { IfErr result (λ back. back ≡ packet) }
        ensures full { OnErr result (may_be_full self.old) }
        ensures kept { OnErr result (is_same self.old self.new) };
}

/// The end of a lane at which packets come out.
pub trait LaneIn<P> {
    /// A packet came out.
    ghost gives: { Self → P → Self → Type 0 };

    /// What must be so where none comes out.
    ghost may_be_empty: { Self → Type 0 };

    /// Nothing has changed.
    ghost is_same: { Self → Self → Type 0 };

    /// So where no call was made.
    ghost reflexive: { (lane : Self) → is_same lane lane };

    /// The packet that was taken first.
    fn pop(&mut self) -> Option<P>
        ensures some { IfSome result (λ packet. gives self.old packet self.new) }
        ensures empty { IfNone result (may_be_empty self.old) }
        ensures kept { IfNone result (is_same self.old self.new) };
}

/// Both ends of a lane on one thread: at most `LANE_LIMIT` packets, for which memory is taken when
/// it is made. Contracts see the items of the packets.
#[derive(Drop)]
pub struct Queue<C: Counting> {
    packets: VecDeque<Packet<C>>,
}

impl<C: Counting> Model for Queue<C> {
    ghost use Rattle.std.specs.Prelude.{◌≤◌};
    ghost use Rattle.std.specs.VecDeque.{deque_len, deque_capacity};
    ghost use Rattle.world_model.specs.declared.limits.TheConstants.{LANE_LIMIT};
    ghost use Rattle.world_model.specs.Workers.{Lane};

    ghost Value = { Lane };

    ghost view = { λ q. q.packets.items };

    ghost invariant = { λ q. (LANE_LIMIT ≤ deque_capacity q.packets)
        × (deque_len q.packets ≤ LANE_LIMIT) };
}

impl<C: Counting> Queue<C> {
    /// A lane with no packet.
    pub fn new(alloc: Global) -> Result<Self, OutOfMemory>
        ensures { IfOk result (λ lane. lane ≡ []) }
    {
        let places = memory::with_capacity(alloc, LANE_LIMIT)?;
        Ok(Queue {
            packets: VecDeque::from_vec(places),
        })
    }

    /// How many packets are on their way.
    pub fn len(&self) -> usize
        ensures len { result ≡ length self.now }
        ensures few { length self.now ≤ LANE_LIMIT }
    {
        self.packets.len()
    }

    /// The items of the packet that comes out after `at` others.
    pub fn packet(&self, at: usize) -> &[Item]
        requires { at < length self.now }
        ensures value { (d : List Item) → slice_index_or self.now at d ≡ result.now }
        ensures few { length result.now ≤ PACKET_LIMIT }
    {
        self.packets[at].items()
    }
}

impl<C: Counting> LaneOut<Packet<C>> for Queue<C> {
    ghost use Rattle.std.specs.Prelude.{◌≡◌, ◌≢◌, [], ◌∷◌, ◌++◌, length, refl};
    ghost use Rattle.world_model.specs.declared.limits.TheConstants.{LANE_LIMIT};

    ghost takes = { λ before packet after. (length before ≢ LANE_LIMIT)
        × (after ≡ before ++ packet ∷ []) };

    ghost may_be_full = { λ lane. length lane ≡ LANE_LIMIT };

    ghost is_same = { λ before after. after ≡ before };

    ghost reflexive = { λ lane. refl };

    fn push(&mut self, packet: Packet<C>) -> Result<(), Packet<C>>
        ensures ok { OnOk result ((length self.old ≢ LANE_LIMIT)
            × (self.new ≡ self.old ++ packet ∷ [])) }
        ensures back { IfErr result (λ back. back ≡ packet) }
        ensures full { OnErr result (length self.old ≡ LANE_LIMIT) }
        ensures kept { OnErr result (self.new ≡ self.old) }
    {
        if self.packets.len() == LANE_LIMIT {
            return Err(packet);
        }
        self.packets.push_back_reserved(packet);
        Ok(())
    }
}

impl<C: Counting> LaneIn<Packet<C>> for Queue<C> {
    ghost use Rattle.std.specs.Prelude.{◌≡◌, [], ◌∷◌, refl};

    ghost gives = { λ before packet after. before ≡ packet ∷ after };

    ghost may_be_empty = { λ lane. lane ≡ [] };

    ghost is_same = { λ before after. after ≡ before };

    ghost reflexive = { λ lane. refl };

    fn pop(&mut self) -> Option<Packet<C>>
        ensures some { IfSome result (λ packet. self.old ≡ packet ∷ self.new) }
        ensures empty { IfNone result (self.old ≡ []) }
        ensures kept { IfNone result (self.new ≡ self.old) }
    {
        self.packets.pop_front()
    }
}
