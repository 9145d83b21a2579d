//! The two ends of a ring, by which packets go from one thread to another.

ghost use Rattle.std.specs.Prelude.{◌≡◌, ◌<◌, ◌≤◌, ◌∷◌, ◌++◌, [], length};
ghost use Rattle.std.specs.Prelude.{IfErr, IfOk, IfSome, IfNone, OnOk, OnErr};
ghost use Rattle.world_model.specs.declared.limits.TheConstants.{LANE_LIMIT};
ghost use Rattle.thread_parts.specs.Rings.{TakesIn, GivesOut, Looks, room_of};

use message_ledger::{Counting, Packet};
use rtrb::{Consumer, Producer, PushError, RingBuffer};
use std::alloc::Global;
use std::marker::Model;
use worker_core::{LaneIn, LaneOut};

/// The end of a ring at which packets go in. Contracts see which ring it is of, and what was sent
/// by it.
#[derive(Drop)]
pub struct Sender<C: Counting> {
    producer: Producer<Packet<C>>,
}

impl<C: Counting> Model for Sender<C> {
    ghost use Rattle.thread_parts.specs.Rings.{SenderModel, sending_end};

    ghost Value = { SenderModel };

    ghost view = { λ s. sending_end s.producer };
}

/// The end of a ring at which packets come out. Contracts see which ring it is of, what was
/// received by it, and what it has seen in the ring and not taken.
#[derive(Drop)]
pub struct Receiver<C: Counting> {
    consumer: Consumer<Packet<C>>,
}

impl<C: Counting> Model for Receiver<C> {
    ghost use Rattle.std.specs.Prelude.{◌≤◌};
    ghost use Rattle.rtrb.specs.Ring.{consumer_capacity};
    ghost use Rattle.world_model.specs.declared.limits.TheConstants.{LANE_LIMIT};
    ghost use Rattle.thread_parts.specs.Rings.{ReceiverModel, receiving_end};

    ghost Value = { ReceiverModel };

    ghost view = { λ r. receiving_end r.consumer };

    ghost invariant = { λ r. consumer_capacity r.consumer ≤ LANE_LIMIT };
}

/// Memory was refused for a ring. Only `open_ring` makes one, where the growth of a ring failed.
#[derive(Clone, Copy, Debug, PartialEq, Eq)]
pub struct NoRing {
    seal: (),
}

/// Both ends of a new ring with room for `room` packets.
pub(crate) fn open_ring<C: Counting>(
    alloc: Global,
    room: usize,
) -> Result<(Sender<C>, Receiver<C>), NoRing>
    requires { room ≤ LANE_LIMIT }
    ensures pair { IfOk result (λ ends. ends.1.ring ≡ ends.0.ring) }
    ensures room { IfOk result (λ ends. room_of ends.0.ring ≡ room) }
    ensures sent { IfOk result (λ ends. ends.0.sent ≡ []) }
    ensures received { IfOk result (λ ends. ends.1.received ≡ []) }
    ensures left { IfOk result (λ ends. ends.1.left ≡ []) }
{
    match RingBuffer::new(alloc, room) {
        Ok((producer, consumer)) => Ok((Sender { producer }, Receiver { consumer })),
        Err(_refused) => Err(NoRing { seal: () }),
    }
}

impl<C: Counting> LaneOut<Packet<C>> for Sender<C> {
    ghost use Rattle.std.specs.Prelude.{◌≡◌, ◌≤◌, length, refl};
    ghost use Rattle.thread_parts.specs.Rings.{TakesIn, room_of};

    ghost takes = { λ before packet after. TakesIn before packet after };

    ghost may_be_full = { λ lane. room_of lane.ring ≤ length lane.sent };

    ghost is_same = { λ before after. after ≡ before };

    ghost reflexive = { λ lane. refl };

    fn push(&mut self, packet: Packet<C>) -> Result<(), Packet<C>>
        ensures ok { OnOk result (TakesIn self.old packet self.new) }
        ensures back { IfErr result (λ back. back ≡ packet) }
        ensures full { OnErr result (room_of self.old.ring ≤ length self.old.sent) }
        ensures kept { OnErr result (self.new ≡ self.old) }
    {
        match self.producer.push(packet) {
            Ok(()) => Ok(()),
            Err(PushError::Full(back)) => Err(back),
        }
    }
}

impl<C: Counting> LaneIn<Packet<C>> for Receiver<C> {
    ghost use Rattle.std.specs.Prelude.{◌≡◌, [], refl};
    ghost use Rattle.thread_parts.specs.Rings.{GivesOut, Looks};

    ghost gives = { λ before packet after. GivesOut before packet after };

    ghost may_be_empty = { λ lane. lane.left ≡ [] };

    ghost is_same = { λ before after. Looks before after };

    ghost reflexive = { λ lane. (refl, refl) };

    fn pop(&mut self) -> Option<Packet<C>>
        ensures some { IfSome result (λ packet. GivesOut self.old packet self.new) }
        ensures empty { IfNone result (self.old.left ≡ []) }
        ensures kept { IfNone result (Looks self.old self.new) }
    {
        match self.consumer.pop() {
            Ok(packet) => Some(packet),
            Err(_empty) => None,
        }
    }
}

impl<C: Counting> Receiver<C> {
    /// How many packets it has seen in the ring and not taken.
    pub fn left(&self) -> usize
        ensures value { result ≡ length self.now.left }
        ensures few { length self.now.left ≤ LANE_LIMIT }
    {
        self.consumer.cached_slots()
    }

    /// Takes the first of the packets that it has seen in the ring.
    pub fn pop_left(&mut self) -> Packet<C>
        requires { 0 < length self.old.left }
        ensures ring { self.new.ring ≡ self.old.ring }
        ensures received { self.new.received ≡ self.old.received ++ result ∷ [] }
        ensures left { self.old.left ≡ result ∷ self.new.left }
    {
        self.consumer.pop_known()
    }

    /// Looks at the ring from both ends, with the other one: what was received and what is left is
    /// what was sent. Answers how many are left.
    pub(crate) fn look_beside(&mut self, sender: &mut Sender<C>) -> usize
        requires { sender.old.ring ≡ self.old.ring }
        ensures tied { self.new.received ++ self.new.left ≡ sender.new.sent }
        ensures count { result ≡ length self.new.left }
        ensures few { length self.new.left ≤ LANE_LIMIT }
        ensures receiver { Looks self.old self.new }
        ensures sender { sender.new ≡ sender.old }
    {
        self.consumer.slots_beside(&mut sender.producer)
    }
}
