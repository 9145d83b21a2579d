//! The two steps on a lane.

ghost use Rattle.std.specs.Prelude.{◌≡◌, ◌<◌, length, OnOk, OnErr};
ghost use Rattle.world_model.specs.Turns.{turn, refusal_in};
ghost use Rattle.world_model.specs.Workers.{Lane};
ghost use Rattle.world_model.specs.WorkerSteps.{SendStep, DeliverStep};
ghost use Rattle.worker_core.specs.Lanes.{IsAtSender, IsAtReceiver, HasSent, HasReceived};
ghost use Rattle.worker_core.specs.Workers.{state_of, at_lane};

use crate::lanes::{LaneIn, LaneOut};
use crate::packets::{put_packet, take_packet};
use crate::worker::Worker;
use message_ledger::{Counting, Packet};
use search_lists::SearchLists;
use world_model::{Item, PACKET_LIMIT, Refusal};

impl<C: Counting> Worker<C> {
    /// Sends what is unsent for worker `to` as one packet, with 1 of the purse. Refusals: S13
    /// nothing is unsent for it, S6 the purse is below 2, S4 the lane is full.
    pub fn send<L: LaneOut<Packet<C>>>(&mut self, to: usize, lane: &mut L) -> Result<(), Refusal>
        requires there { to < length self.old.unsent.items }
        ensures step { (before after : Lane)
            → IsAtSender (λ packet. L.takes lane.old packet lane.new) (L.may_be_full lane.old)
            (L.is_same lane.old lane.new) before after
            → SendStep to (turn (at_lane (state_of self.old) before) (refusal_in result)
            (at_lane (state_of self.new) after)) }
        ensures sent { OnOk result (HasSent (λ packet. L.takes lane.old packet lane.new) to
            (state_of self.old) (state_of self.new)) }
        ensures refused { OnErr result ((L.is_same lane.old lane.new)
            × (state_of self.new ≡ state_of self.old)) }
        ensures lists { self.new.lists ≡ self.old.lists }
    {
        if self.unsent[to].is_empty() {
            return Err(Refusal::NothingThere);
        }
        if self.purse.amount() < 2 {
            return Err(Refusal::PurseTooSmall);
        }
        let items = take_packet(&mut self.unsent, to);
        let packet = Packet::seal(items, &mut self.purse);
        if let Err(back) = lane.push(packet) {
            let items = back.open(&mut self.purse);
            put_packet(&mut self.unsent, to, items);
            return Err(Refusal::RingFull);
        }
        Ok(())
    }

    /// Takes the first packet out of a lane: its items are held, and the purse gets its 1.
    /// Refusals: S7 something is held, S16 the purse is too great, S5 the lane is empty.
    pub fn deliver<L: LaneIn<Packet<C>>>(&mut self, lane: &mut L) -> Result<(), Refusal>
        ensures step { (before after : Lane)
            → IsAtReceiver (λ packet. L.gives lane.old packet lane.new) (L.may_be_empty lane.old)
            (L.is_same lane.old lane.new) before after
            → DeliverStep (turn (at_lane (state_of self.old) before) (refusal_in result)
            (at_lane (state_of self.new) after)) }
        ensures given { OnOk result (HasReceived (λ packet. L.gives lane.old packet lane.new)
            (state_of self.old) (state_of self.new)) }
        ensures refused { OnErr result ((L.is_same lane.old lane.new)
            × (state_of self.new ≡ state_of self.old)) }
        ensures lists { self.new.lists ≡ self.old.lists }
        ensures unsent { self.new.unsent ≡ self.old.unsent }
    {
        if !self.held.is_empty() {
            return Err(Refusal::StillHolding);
        }
        if self.purse.amount() == u64::MAX {
            return Err(Refusal::PurseFull);
        }
        let Some(packet) = lane.pop() else {
            return Err(Refusal::RingEmpty);
        };
        self.held = packet.open(&mut self.purse);
        read_ahead(&mut self.lists, &self.held);
        Ok(())
    }
}

// Reads ahead what is read of the boards that came, so that the reads of memory overlap.
fn read_ahead(lists: &mut SearchLists, items: &[Item])
    ensures { lists.new ≡ lists.old }
{
    'items: for item in items {
        lists.read_ahead(item.board.key());
    }
}
