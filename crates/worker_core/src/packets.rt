//! The items that wait to be sent, for each worker a list of them.

ghost use Rattle.std.specs.Prelude.{◌≡◌, ◌<◌, ◌≤◌, [], IfOk, replicate, slice_set, slice_index_or};
ghost use Rattle.std.specs.Prelude.{length, IsTrue, ◌↔◌, All};
ghost use Rattle.world_model.specs.declared.limits.TheConstants.{WORKER_LIMIT};
ghost use Rattle.worker_core.specs.Workers.{packets_of};

use arrayvec::ArrayVec;
use memory::OutOfMemory;
use std::alloc::Global;
use world_model::{Item, PACKET_LIMIT, WORKER_LIMIT};

/// Items that are sent together.
pub(crate) type Items = ArrayVec<Item, PACKET_LIMIT>;

/// An empty list of items for each worker: nothing is to be sent.
pub(crate) fn new_packets(alloc: Global, workers: usize) -> Result<Vec<Items>, OutOfMemory>
    requires { workers ≤ WORKER_LIMIT }
    ensures { IfOk result (λ lists. packets_of lists.items ≡ replicate workers []) }
{
    let mut packets = memory::with_capacity(alloc, workers)?;
    'workers: for made in 0..workers {
        packets.push_reserved(ArrayVec::new());
    }
    Ok(packets)
}

/// Takes out all items for one worker.
#[tactic(auto, using(crate::proofs::GuideLemmas::packet_replaced))]
pub(crate) fn take_packet(packets: &mut Vec<Items>, to: usize) -> Items
    requires { to < length packets.old.items }
    ensures items { result.items ≡ slice_index_or (packets_of packets.old.items) to [] }
    ensures left { packets_of packets.new.items ≡ slice_set (packets_of packets.old.items) to [] }
{
    packets[to].take()
}

/// Puts items in the place of those for one worker.
#[tactic(auto, using(crate::proofs::GuideLemmas::packet_replaced))]
pub(crate) fn put_packet(packets: &mut Vec<Items>, to: usize, items: Items)
    requires { to < length packets.old.items }
    ensures { packets_of packets.new.items ≡ slice_set (packets_of packets.old.items) to items.items }
{
    packets[to] = items;
}

/// Whether nothing is to be sent.
pub(crate) fn are_empty(packets: &[Items]) -> bool
    ensures { IsTrue result ↔ All (λ packet. packet ≡ []) (packets_of packets.now) }
{
    'packets: for to in 0..packets.len() {
        if !packets[to].is_empty() {
            return false;
        }
    }
    true
}
