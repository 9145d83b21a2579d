//! What is known of a ring once both ends of it are in one thread.

ghost use Rattle.std.specs.Prelude.{◌≡◌, ◌≤◌, ◌++◌, [], length, slice_index_or};
ghost use Rattle.world_model.specs.declared.limits.TheConstants.{LANE_LIMIT};
ghost use Rattle.thread_parts.specs.Rings.{out_rings, in_rings, sent_lanes, received_lanes, left_lanes};
ghost use Rattle.thread_parts.specs.Rings.{IsSameRing, IsLookedAt};

use crate::ends::{Receiver, Sender};
use message_ledger::Counting;

/// Looks at a ring from both ends: what was received and what is left is what was sent. Answers how
/// many packets are left.
#[tactic(auto, using(crate::proofs::EndLemmas::looks))]
pub fn tie<C: Counting>(
    outs: &mut Vec<Sender<C>>,
    to: usize,
    ins: &mut Vec<Receiver<C>>,
    from: usize,
) -> usize
    requires { IsSameRing (out_rings outs.old.items) to (in_rings ins.old.items) from }
    ensures tied { slice_index_or (received_lanes ins.new.items) from []
        ++ slice_index_or (left_lanes ins.new.items) from []
        ≡ slice_index_or (sent_lanes outs.new.items) to [] }
    ensures count { result ≡ length (slice_index_or (left_lanes ins.new.items) from []) }
    ensures few { result ≤ LANE_LIMIT }
    ensures outs { outs.new.items ≡ outs.old.items }
    ensures ins { IsLookedAt from ins.old.items ins.new.items }
{
    ins[from].look_beside(&mut outs[to])
}
