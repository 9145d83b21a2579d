//! The two steps on rings.

ghost use Rattle.std.specs.Prelude.{◌≡◌, ◌<◌, [], IsErrOf, slice_index_or};
ghost use Rattle.thread_parts.specs.Rings.{out_rings, sent_lanes, left_lanes, MayBeFull};
ghost use Rattle.world_model.specs.declared.steps.Refusal.{Refusal};
ghost use Rattle.world_model.specs.Turns.{turn, refusal_in};
ghost use Rattle.thread_parts.specs.Parts.{part_state, IsSoundPart, KeepsPart};
ghost use Rattle.thread_parts.specs.Steps.{SendByRing, DeliverByRing};

use crate::part::Part;
use message_ledger::Tokens;
use owners::Spread;
use world_model::Refusal;
use world_model::thread_laws::steps_are_kept;

impl<'a, S: Spread, C: Tokens> Part<'a, S, C> {
    /// Sends what is unsent for worker `to` as one packet, with 1 of the purse. Refusals: S13
    /// nothing is unsent for it, S6 the purse is below 2, S4 the ring is full: as many
    /// packets were sent by it as it has room for.
    pub fn send(&mut self, to: usize) -> Result<(), Refusal>
        requires holds { IsSoundPart S.owner_of C.workers self.old }
        requires there { to < C.workers }
        ensures step { SendByRing (out_rings self.old.outs.items) to (turn (part_state self.old)
            (refusal_in result) (part_state self.new)) }
        ensures full { IsErrOf result Refusal.RingFull → MayBeFull (out_rings self.old.outs.items)
            (sent_lanes self.old.outs.items) to }
        ensures part { KeepsPart S.owner_of C.workers self.old self.new }
    {
        steps_are_kept();
        let lane = &mut self.outs[to];
        self.worker.send(to, lane)
    }

    /// Takes the first packet out of the ring from worker `from`: its items are held, and the purse
    /// gets its 1. Refusals: S7 something is held, S16 the purse is too great, S5 the ring is
    /// empty: it has seen no packet there that it hasn't taken.
    pub fn deliver(&mut self, from: usize) -> Result<(), Refusal>
        requires holds { IsSoundPart S.owner_of C.workers self.old }
        requires there { from < C.workers }
        ensures step { DeliverByRing (left_lanes self.old.ins.items) from (turn
            (part_state self.old) (refusal_in result) (part_state self.new)) }
        ensures seen { IsErrOf result Refusal.RingEmpty
            → slice_index_or (left_lanes self.old.ins.items) from [] ≡ [] }
        ensures part { KeepsPart S.owner_of C.workers self.old self.new }
    {
        steps_are_kept();
        let lane = &mut self.ins[from];
        self.worker.deliver(lane)
    }
}
